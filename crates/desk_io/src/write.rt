// Writing all bytes to the created file.
ghost use Rattle.std.specs.Prelude.{◌≡◌, ◌≤◌, IsTrue, OnOk, OnErr, IsErrOf};
ghost use Rattle.desk_io.specs.Changes.{Writes, WritesFront};
ghost use Rattle.desk_io.specs.Counts.{CountRose};

use crate::desk::{Desk, DeskFault};

/// Appends all of `bytes` to the created file, in as many writes as the desk needs. After an error
/// some bytes from the front of `bytes`, perhaps none, are appended. The other files, the unread
/// bytes and the choice of the created file stay as they were. A call that succeeds counts no fault.
pub fn write_whole<D: Desk>(desk: &mut D, bytes: &[u8]) -> Result<(), DeskFault>
    requires { IsTrue (D.created desk.old) }
    ensures written { OnOk result
        (Writes (D.state desk.old).told (D.state desk.new).told bytes.now) }
    ensures prefix { OnErr result
        (WritesFront (D.state desk.old).told (D.state desk.new).told bytes.now) }
    ensures created { IsTrue (D.created desk.new) }
    ensures failed { IsErrOf result DeskFault.Failed
        → CountRose (D.state desk.old).write_faults (D.state desk.new).write_faults }
    ensures counts { (D.state desk.old).write_faults ≤ (D.state desk.new).write_faults }
    ensures no_fault { OnOk result
        ((D.state desk.new).write_faults ≡ (D.state desk.old).write_faults) }
    ensures reads { (D.state desk.new).read_faults ≡ (D.state desk.old).read_faults }
{
    let mut at = 0;
    while at < bytes.len() {
        at += desk.write(&bytes[at..])?;
    }
    Ok(())
}
