// Reading a whole file.
ghost use Rattle.std.specs.Prelude.{◌≡◌, ◌<◌, ◌≤◌, ◌+◌, ◌⊎◌, length, IfOk, IsOk, IsErrOf, OnOk};
ghost use Rattle.std.specs.Prelude.{vec_len};
ghost use Rattle.desk_io.specs.Told.{Holds};
ghost use Rattle.desk_io.specs.KeptFiles.{KeepsFiles};
ghost use Rattle.desk_io.specs.Changes.{Leaves, AtEnd};
ghost use Rattle.desk_io.specs.ReadBounds.{LeavesMost};
ghost use Rattle.desk_io.specs.MissingFiles.{Lacks, HoldsMore};
ghost use Rattle.desk_io.specs.ReadingOn.{Drains, PassedMany, PassedAtMost, PassedTo};
ghost use Rattle.desk_io.specs.Counts.{CountRose};
ghost use Rattle.desk_io.specs.End.{end_by};
ghost use Rattle.desk_io.specs.declared.read.ReadEnd.TheVariants.{Memory};

use crate::desk::{Desk, DeskFault};
use std::alloc::{AllocError, Global};

/// The greatest number of bytes that one read asks for.
const BUFFER: usize = 8192;

/// Why a file was not read as a whole.
#[derive(Clone, Copy, Debug, PartialEq, Eq)]
pub enum ReadEnd {
    /// There is no file of that name.
    NoFile,

    /// The desk failed, and counted it.
    Failed,

    /// The file has more bytes than the limit.
    TooLarge,

    /// Memory ran out.
    Memory,
}

impl From<AllocError> for ReadEnd {
    ghost from_gives = { λ _ e. e ≡ Memory };

    fn from(_error: AllocError) -> ReadEnd {
        ReadEnd::Memory
    }
}

/// The end of a reading after a fault of the desk.
fn end_of(fault: DeskFault) -> ReadEnd
    ensures { result ≡ end_by fault }
{
    match fault {
        DeskFault::Failed => ReadEnd::Failed,
        DeskFault::Memory => ReadEnd::Memory,
    }
}

/// All bytes of the named file, if they are at most `limit`, which is at most 256 MiB. Takes at
/// most one byte more than the limit from the desk, also if it ends with an error, and leaves the
/// desk's files as they were. `Memory` may come at any time. Each other error has its cause below. A
/// call that succeeds counts no fault.
pub fn read_file<D: Desk>(
    alloc: Global,
    desk: &mut D,
    name: &str,
    limit: usize,
) -> Result<Vec<u8>, ReadEnd>
    requires { limit ≤ 268435456 }
    ensures found { IfOk result (λ v. Holds (D.state desk.old).told name.now v.items) }
    ensures within { IfOk result (λ v. vec_len v ≤ limit) }
    ensures no_file { IsErrOf result ReadEnd.NoFile → Lacks (D.state desk.old).told name.now }
    ensures too_large { IsErrOf result ReadEnd.TooLarge
        → HoldsMore (D.state desk.old).told name.now limit }
    ensures failed { IsErrOf result ReadEnd.Failed
        → CountRose (D.state desk.old).read_faults (D.state desk.new).read_faults }

    // What the call did to the desk.
    ensures taken { IfOk result
        (λ v. Leaves (D.state desk.old).told (D.state desk.new).told name.now (vec_len v)) }
    ensures taken_more { IsErrOf result ReadEnd.TooLarge
        → Leaves (D.state desk.old).told (D.state desk.new).told name.now (limit + 1) }
    ensures bounded { LeavesMost (D.state desk.old).told (D.state desk.new).told name.now (limit + 1) }
    ensures files { KeepsFiles (D.state desk.old).told (D.state desk.new).told }
    ensures counts { (D.state desk.old).read_faults ≤ (D.state desk.new).read_faults }
    ensures no_fault { OnOk result
        ((D.state desk.new).read_faults ≡ (D.state desk.old).read_faults) }
    ensures writes { (D.state desk.new).write_faults ≡ (D.state desk.old).write_faults }
    ensures created { D.created desk.new ≡ D.created desk.old }
{
    match desk.open_file(name) {
        Ok(true) => read_rest(alloc, desk, limit),
        Ok(false) => Err(ReadEnd::NoFile),
        Err(fault) => Err(end_of(fault)),
    }
}

/// All unread bytes, if they are at most `limit`.
fn read_rest<D: Desk>(alloc: Global, desk: &mut D, limit: usize) -> Result<Vec<u8>, ReadEnd>
    requires { limit ≤ 268435456 }
    ensures drained { IfOk result
        (λ v. Drains (D.state desk.old).told (D.state desk.new).told v.items) }
    ensures within { IfOk result (λ v. vec_len v ≤ limit) }
    ensures too_large { IsErrOf result ReadEnd.TooLarge
        → PassedMany (D.state desk.old).told (D.state desk.new).told (limit + 1) }
    ensures bounded { PassedAtMost (D.state desk.old).told (D.state desk.new).told (limit + 1) }
    ensures some_file { ¬ (IsErrOf result ReadEnd.NoFile) }
    ensures failed { IsErrOf result ReadEnd.Failed
        → CountRose (D.state desk.old).read_faults (D.state desk.new).read_faults }
    ensures files { KeepsFiles (D.state desk.old).told (D.state desk.new).told }
    ensures counts { (D.state desk.old).read_faults ≤ (D.state desk.new).read_faults }
    ensures no_fault { OnOk result
        ((D.state desk.new).read_faults ≡ (D.state desk.old).read_faults) }
    ensures writes { (D.state desk.new).write_faults ≡ (D.state desk.old).write_faults }
    ensures created { D.created desk.new ≡ D.created desk.old }
{
    let mut bytes = Vec::new(alloc);
    let mut buffer = [0u8; BUFFER];
    while bytes.len() <= limit {
        let room = (limit + 1 - bytes.len()).min(BUFFER);
        match read_more(desk, &mut buffer[..room], &mut bytes) {
            Ok(0) => return Ok(bytes),
            Ok(_) => {}
            Err(end) => return Err(end),
        }
    }
    Err(ReadEnd::TooLarge)
}

/// One read through `buffer`. Its bytes are appended to `bytes`. Returns how many there were.
fn read_more<D: Desk>(
    desk: &mut D,
    buffer: &mut [u8],
    bytes: &mut Vec<u8>,
) -> Result<usize, ReadEnd>
    requires { 0 < length buffer.old }
    ensures within { IfOk result (λ n. n ≤ length buffer.old) }
    ensures length { IfOk result (λ n. vec_len bytes.new ≡ vec_len bytes.old + n) }
    ensures passed { IfOk result (λ n. PassedTo
        (D.state desk.old).told (D.state desk.new).told bytes.old.items bytes.new.items) }
    ensures end { IfOk result (λ n. n ≡ 0 → AtEnd (D.state desk.old).told) }
    ensures bounded { PassedAtMost (D.state desk.old).told (D.state desk.new).told (length buffer.old) }
    ensures fault { (IsErrOf result ReadEnd.Failed) ⊎ (IsErrOf result ReadEnd.Memory)
        ⊎ IsOk result }
    ensures failed { IsErrOf result ReadEnd.Failed
        → CountRose (D.state desk.old).read_faults (D.state desk.new).read_faults }
    ensures files { KeepsFiles (D.state desk.old).told (D.state desk.new).told }
    ensures counts { (D.state desk.old).read_faults ≤ (D.state desk.new).read_faults }
    ensures no_fault { OnOk result
        ((D.state desk.new).read_faults ≡ (D.state desk.old).read_faults) }
    ensures writes { (D.state desk.new).write_faults ≡ (D.state desk.old).write_faults }
    ensures created { D.created desk.new ≡ D.created desk.old }
{
    match desk.read(buffer) {
        Ok(n) => {
            bytes.extend_from_slice(&buffer[..n])?;
            Ok(n)
        }
        Err(fault) => Err(end_of(fault)),
    }
}
