// The desk of the system: the edge for files.
ghost use Rattle.std.specs.Prelude.{◌≡◌, ◌<◌, ◌≤◌, None, length, is_some, option_and_then, IsFalse};
ghost use Rattle.std.specs.Prelude.{◌↔◌, ◌⊎◌, IsTrue, IfOk, OnOk, IsErrOf};
ghost use Rattle.std.specs.IoError.{error_kind};
ghost use Rattle.std.specs.Io.KnownBytes.{ReadConsumes, WriteAppends};
ghost use Rattle.desk_io.specs.Counts.{CountRose};

use crate::desk::{Desk, DeskFault};
use crate::faults::counted;
use crate::system::{read_some, write_some};
use std::fs;
use std::io::{self, ErrorKind};
use std::rt::Files;

/// The files of the system, under the runtime `R`. It tells no files. A read returns all bytes that
/// the open file gave. A write appends to the created file all bytes that it counts (clauses
/// `bytes`). A call that the system interrupts is a fault like any other, because the program
/// handles no signals. A write that takes none of some bytes is a fault. Each write goes to the
/// system at once. Std loses the error of a closing, so closing is never a fault.
#[derive(Drop)]
pub struct RealDesk<R: Files> {
    files: R,
    reading: Option<R::File>,
    created: Option<R::File>,
    read_faults: u64,
    write_faults: u64,
}

impl<R: Files> RealDesk<R> {
    /// The system's desk, with no file open or created and no fault counted.
    pub fn new(files: R) -> RealDesk<R>
        ensures faults { (⟦<RealDesk<R> as Desk>⟧.state result).read_faults ≡ 0 }
        ensures write_faults { (⟦<RealDesk<R> as Desk>⟧.state result).write_faults ≡ 0 }
        ensures created { IsFalse (⟦<RealDesk<R> as Desk>⟧.created result) }
    {
        RealDesk {
            files,
            reading: None,
            created: None,
            read_faults: 0,
            write_faults: 0,
        }
    }
}

impl<R: Files> Desk for RealDesk<R> {
    ghost state = { λ desk. record {
      told = None;
      read_faults = desk.read_faults;
      write_faults = desk.write_faults;
    } };

    ghost created = { λ desk. is_some desk.created };

    ghost tells_created = { λ _. tt };

    fn open_file(&mut self, name: &str) -> Result<bool, DeskFault> {
        self.reading = None;
        match fs::open(&self.files, name) {
            Ok(file) => {
                self.reading = Some(file);
                Ok(true)
            }
            Err(error) if is_missing(&error) => Ok(false),
            Err(error) => Err(counted(&error, &mut self.read_faults)),
        }
    }

    fn read(&mut self, buf: &mut [u8]) -> Result<usize, DeskFault>
        ensures within { IfOk result (λ n. n ≤ length buf.new) }
        ensures bytes { ReadConsumes
            (option_and_then R.File.remaining self.old.reading)
            (option_and_then R.File.remaining self.new.reading) result buf.new }
        ensures failed { IsErrOf result DeskFault.Failed
            → CountRose self.old.read_faults self.new.read_faults }
        ensures counts { self.old.read_faults ≤ self.new.read_faults }
        ensures no_fault { OnOk result (self.new.read_faults ≡ self.old.read_faults) }
        ensures writes { self.new.write_faults ≡ self.old.write_faults }
        ensures created { self.new.created ≡ self.old.created }
    {
        match &mut self.reading {
            Some(file) => read_some(file, buf, &mut self.read_faults),
            None => Ok(0),
        }
    }

    fn create_file(&mut self, name: &str) -> Result<(), DeskFault> {
        match fs::create(&self.files, name) {
            Ok(file) => {
                self.reading = None;
                self.created = Some(file);
                Ok(())
            }
            Err(error) => Err(counted(&error, &mut self.write_faults)),
        }
    }

    fn write(&mut self, piece: &[u8]) -> Result<usize, DeskFault>
        requires { IsTrue (is_some self.old.created) }
        ensures within { IfOk result (λ n. n ≤ length piece.now) }
        ensures some { IfOk result (λ n. 0 < length piece.now → 0 < n) }
        ensures bytes { WriteAppends
            (option_and_then R.File.contents self.old.created)
            (option_and_then R.File.contents self.new.created) result piece.now }
        ensures created { IsTrue (is_some self.new.created) }
        ensures failed { IsErrOf result DeskFault.Failed
            → CountRose self.old.write_faults self.new.write_faults }
        ensures counts { self.old.write_faults ≤ self.new.write_faults }
        ensures no_fault { OnOk result (self.new.write_faults ≡ self.old.write_faults) }
        ensures reads { self.new.read_faults ≡ self.old.read_faults }
    {
        let Some(file) = &mut self.created else {
            unreachable!()
        };
        write_some(file, piece, &mut self.write_faults)
    }

    fn close_file(&mut self) -> Result<(), DeskFault> {
        self.created = None;
        Ok(())
    }
}

/// Whether there is no such file: the name leads nowhere, or through something that is not a
/// folder.
fn is_missing(error: &io::Error) -> bool
    ensures { IsTrue result
        ↔ (error_kind error.now ≡ ErrorKind.NotFound)
        ⊎ (error_kind error.now ≡ ErrorKind.NotADirectory) }
{
    matches!(error.kind(), ErrorKind::NotFound | ErrorKind::NotADirectory)
}
