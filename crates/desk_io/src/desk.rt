// Where files come from and go to.
ghost use Rattle.std.specs.Prelude.{◌≡◌, ℕ, Bool, true, false, ◌<◌, ◌≤◌, Option, length, take};
ghost use Rattle.std.specs.Prelude.{is_ok, IsTrue, IsFalse, IfOk, OnOk, OnErr, IsErrOf};
ghost use Rattle.desk_io.specs.Changes.{Opens, Passed, AtEnd, Same, TellsCreated, Creates};
ghost use Rattle.desk_io.specs.Changes.{Writes, Closes};
ghost use Rattle.desk_io.specs.States.{DeskState};
ghost use Rattle.desk_io.specs.Counts.{CountRose};
ghost use Rattle.desk_io.specs.declared.desk.DeskFault.TheVariants.{Memory};

use std::alloc::AllocError;

/// Why a call of a desk or a sink did nothing.
#[derive(Clone, Copy, Debug, PartialEq, Eq)]
pub enum DeskFault {
    /// The desk or the sink failed, and counted it.
    Failed,

    /// Memory ran out.
    Memory,
}

impl From<AllocError> for DeskFault {
    ghost from_gives = { λ _ e. e ≡ Memory };

    fn from(_error: AllocError) -> DeskFault {
        DeskFault::Memory
    }
}

/// A place with named files. One file at a time is read, and one at a time is created and written.
/// Each call changes only what its description names. A call that succeeds counts no fault.
pub trait Desk {
    // Its files, the unread bytes of the opened file and the name of the created one, if it tells
    // them. How many faults `open_file` and `read` have had, and how many `create_file`, `write`
    // and `close_file`. These counts stop at 2^64 - 1.
    ghost state: { Self → DeskState };

    // Whether a file is created.
    ghost created: { Self → Bool };

    /// Opens the named file at its first byte, and returns whether there is such a file. After
    /// `false` or a fault no file is open. The created file may be opened too.
    fn open_file(&mut self, name: &str) -> Result<bool, DeskFault>
        ensures opens { Opens (state self.old).told (state self.new).told name.now result }
        ensures failed { IsErrOf result DeskFault.Failed
            → CountRose (state self.old).read_faults (state self.new).read_faults }
        ensures counts { (state self.old).read_faults ≤ (state self.new).read_faults }
        ensures no_fault { OnOk result
            ((state self.new).read_faults ≡ (state self.old).read_faults) }
        ensures writes { (state self.new).write_faults ≡ (state self.old).write_faults }
        ensures created { created self.new ≡ created self.old };

    /// Reads the next bytes of the opened file to the front of `buf`, and returns how many. It
    /// returns 0 only if none is left or no file is open. After a fault the unread bytes are as
    /// before.
    fn read(&mut self, buf: &mut [u8]) -> Result<usize, DeskFault>
        requires { 0 < length buf.old }
        ensures within { IfOk result (λ n. n ≤ length buf.new) }
        ensures passed { IfOk result
            (λ n. Passed (state self.old).told (state self.new).told (take n buf.new)) }
        ensures end { IfOk result (λ n. n ≡ 0 → AtEnd (state self.old).told) }
        ensures fault { OnErr result (Same (state self.old).told (state self.new).told) }
        ensures failed { IsErrOf result DeskFault.Failed
            → CountRose (state self.old).read_faults (state self.new).read_faults }
        ensures counts { (state self.old).read_faults ≤ (state self.new).read_faults }
        ensures no_fault { OnOk result
            ((state self.new).read_faults ≡ (state self.old).read_faults) }
        ensures writes { (state self.new).write_faults ≡ (state self.old).write_faults }
        ensures created { created self.new ≡ created self.old };

    /// Makes the named file empty, whether or not it existed, and makes it the created file. No
    /// file is open afterwards. After a fault no file is created, and all is as before.
    fn create_file(&mut self, name: &str) -> Result<(), DeskFault>
        requires { IsFalse (created self.old) }
        ensures creates { OnOk result
            (Creates (state self.old).told (state self.new).told name.now) }
        ensures fault { OnErr result (Same (state self.old).told (state self.new).told) }
        ensures created { created self.new ≡ is_ok result }
        ensures failed { IsErrOf result DeskFault.Failed
            → CountRose (state self.old).write_faults (state self.new).write_faults }
        ensures counts { (state self.old).write_faults ≤ (state self.new).write_faults }
        ensures no_fault { OnOk result
            ((state self.new).write_faults ≡ (state self.old).write_faults) }
        ensures reads { (state self.new).read_faults ≡ (state self.old).read_faults };

    /// Appends the first bytes of `piece` to the created file, and returns how many. It returns 0
    /// only if the piece is empty. After a fault the file is as before.
    fn write(&mut self, piece: &[u8]) -> Result<usize, DeskFault>
        requires { IsTrue (created self.old) }
        ensures within { IfOk result (λ n. n ≤ length piece.now) }
        ensures some { IfOk result (λ n. 0 < length piece.now → 0 < n) }
        ensures writes { IfOk result
            (λ n. Writes (state self.old).told (state self.new).told (take n piece.now)) }
        ensures fault { OnErr result (Same (state self.old).told (state self.new).told) }
        ensures created { IsTrue (created self.new) }
        ensures failed { IsErrOf result DeskFault.Failed
            → CountRose (state self.old).write_faults (state self.new).write_faults }
        ensures counts { (state self.old).write_faults ≤ (state self.new).write_faults }
        ensures no_fault { OnOk result
            ((state self.new).write_faults ≡ (state self.old).write_faults) }
        ensures reads { (state self.new).read_faults ≡ (state self.old).read_faults };

    /// Ends the writing of the created file, which keeps its bytes. No file is created afterwards,
    /// even after a fault.
    fn close_file(&mut self) -> Result<(), DeskFault>
        requires { IsTrue (created self.old) }
        ensures closes { Closes (state self.old).told (state self.new).told }
        ensures created { IsFalse (created self.new) }
        ensures failed { IsErrOf result DeskFault.Failed
            → CountRose (state self.old).write_faults (state self.new).write_faults }
        ensures counts { (state self.old).write_faults ≤ (state self.new).write_faults }
        ensures no_fault { OnOk result
            ((state self.new).write_faults ≡ (state self.old).write_faults) }
        ensures reads { (state self.new).read_faults ≡ (state self.old).read_faults };

    // If it tells its files, the created one is among them.
    ghost tells_created: { (desk : Self) → TellsCreated (created desk) (state desk).told };
}
