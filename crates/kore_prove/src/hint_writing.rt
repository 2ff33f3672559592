// The file of the hints of a run.
ghost use Rattle.std.specs.Prelude.{◌≡◌, ◌≤◌, ◌⊎◌, Some, IsFalse, OnOk, OnErr, IsErrOf};
ghost use Rattle.std.specs.Prelude.{[], option_copied, option_map};
ghost use Rattle.desk_io.specs.Counts.{CountRose};
ghost use Rattle.desk_io.specs.HeldFiles.{TellsNow};
ghost use Rattle.desk_io.specs.KeptFiles.{KeepsFile, KeepsOthers};
ghost use Rattle.hint_file.specs.RunTexts.{text_so_far};
ghost use Rattle.kore_prove.specs.WrittenHints.{HoldsText, MayHoldText};
ghost use Rattle.kore_prove.specs.HintFronts.{HoldsFrontOf};

use desk_io::{Desk, DeskFault, write_whole};
use hint_file::Hints;
use std::alloc::Global;

/// Hints without a text yet, which are wanted if a file for them is named.
pub fn hints_for(alloc: Global, file: Option<&str>) -> Hints
    ensures { text_so_far result ≡ option_map (λ _. []) (option_copied file.entry) }
{
    match file {
        Some(_) => Hints::wanted(alloc),
        None => Hints::unwanted(),
    }
}

/// Writes the text of the hints to the file of this name, if both are there.
///
/// Errors: a fault that the desk counted, or out of memory. The file is then as before, or holds a
/// part of the text from its front.
pub fn write_hints<D: Desk>(
    desk: &mut D,
    file: Option<&str>,
    hints: &Hints,
) -> Result<(), DeskFault>
    requires none_created { IsFalse (D.created desk.old) }
    ensures held { OnOk result (HoldsText
        (D.state desk.old).told (D.state desk.new).told (option_copied file.entry)
        (text_so_far hints.now)) }
    ensures front { OnErr result (MayHoldText
        (D.state desk.old).told (D.state desk.new).told (option_copied file.entry)
        (text_so_far hints.now)) }
    ensures files { KeepsOthers (λ other. option_copied file.entry ≡ Some other)
        (D.state desk.old).told (D.state desk.new).told }
    ensures created { D.created desk.new ≡ D.created desk.old }
    ensures failed { IsErrOf result DeskFault.Failed
        → CountRose (D.state desk.old).write_faults (D.state desk.new).write_faults }
    ensures counts { (D.state desk.old).write_faults ≤ (D.state desk.new).write_faults }
    ensures reads { (D.state desk.new).read_faults ≡ (D.state desk.old).read_faults }
{
    match (file, &hints.text) {
        (Some(name), Some(text)) => write_file(desk, name, text),
        _ => Ok(()),
    }
}

/// Makes the file of this name, writes the bytes to it and closes it.
///
/// Errors: a fault that the desk counted, or out of memory. The file is then as before, or holds a
/// part of the bytes from their front.
fn write_file<D: Desk>(desk: &mut D, name: &str, bytes: &[u8]) -> Result<(), DeskFault>
    requires none_created { IsFalse (D.created desk.old) }
    ensures held { OnOk result
        (TellsNow (D.state desk.old).told (D.state desk.new).told name.now bytes.now) }
    ensures front { OnErr result
        (KeepsFile (D.state desk.old).told (D.state desk.new).told name.now
        ⊎ HoldsFrontOf (D.state desk.old).told (D.state desk.new).told name.now bytes.now) }
    ensures files { KeepsOthers (λ other. Some name.now ≡ Some other)
        (D.state desk.old).told (D.state desk.new).told }
    ensures created { D.created desk.new ≡ D.created desk.old }
    ensures failed { IsErrOf result DeskFault.Failed
        → CountRose (D.state desk.old).write_faults (D.state desk.new).write_faults }
    ensures counts { (D.state desk.old).write_faults ≤ (D.state desk.new).write_faults }
    ensures reads { (D.state desk.new).read_faults ≡ (D.state desk.old).read_faults }
{
    desk.create_file(name)?;
    match write_whole(desk, bytes) {
        Ok(()) => desk.close_file(),
        Err(fault) => {
            let _closed = desk.close_file();
            Err(fault)
        }
    }
}
