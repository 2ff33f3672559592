// The text of a proof, written to the created file of a desk, which is closed at the end.
ghost use Rattle.std.specs.Prelude.{◌≡◌, ◌≤◌, IsTrue, IsFalse, OnOk, OnErr, IsErrOf};
ghost use Rattle.desk_io.specs.Changes.{Closes, Writes, WritesFront};
ghost use Rattle.desk_io.specs.Counts.{CountRose};

use crate::ends::ProveEnd;
use desk_io::{Desk, DeskFault, write_whole};

// Appends a text to the created file.
pub(crate) fn write_text<D: Desk>(desk: &mut D, text: &[u8]) -> Result<(), ProveEnd>
    requires { IsTrue (D.created desk.old) }
    ensures written { OnOk result
        (Writes (D.state desk.old).told (D.state desk.new).told text.now) }
    ensures prefix { OnErr result
        (WritesFront (D.state desk.old).told (D.state desk.new).told text.now) }
    ensures created { IsTrue (D.created desk.new) }
    ensures failed { IsErrOf result ProveEnd.Failed
        → CountRose (D.state desk.old).write_faults (D.state desk.new).write_faults }
    ensures counts { (D.state desk.old).write_faults ≤ (D.state desk.new).write_faults }
    ensures no_fault { OnOk result
        ((D.state desk.new).write_faults ≡ (D.state desk.old).write_faults) }
    ensures reads { (D.state desk.new).read_faults ≡ (D.state desk.old).read_faults }
{
    match write_whole(desk, text) {
        Ok(()) => Ok(()),
        Err(DeskFault::Failed) => Err(ProveEnd::Failed),
        Err(DeskFault::Memory) => Err(ProveEnd::Memory),
    }
}

// Closes the created file.
pub(crate) fn close_text<D: Desk>(desk: &mut D) -> Result<(), ProveEnd>
    requires { IsTrue (D.created desk.old) }
    ensures closes { Closes (D.state desk.old).told (D.state desk.new).told }
    ensures created { IsFalse (D.created desk.new) }
    ensures failed { IsErrOf result ProveEnd.Failed
        → CountRose (D.state desk.old).write_faults (D.state desk.new).write_faults }
    ensures counts { (D.state desk.old).write_faults ≤ (D.state desk.new).write_faults }
    ensures no_fault { OnOk result
        ((D.state desk.new).write_faults ≡ (D.state desk.old).write_faults) }
    ensures reads { (D.state desk.new).read_faults ≡ (D.state desk.old).read_faults }
{
    match desk.close_file() {
        Ok(()) => Ok(()),
        Err(DeskFault::Failed) => Err(ProveEnd::Failed),
        Err(DeskFault::Memory) => Err(ProveEnd::Memory),
    }
}
