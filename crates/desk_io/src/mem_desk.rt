// A desk in memory.
ghost use Rattle.std.specs.Prelude.{◌≡◌, ◌∷◌, ◌<◌, ◌≤◌, [], false, length, take, min, vec_len};
ghost use Rattle.std.specs.Prelude.{string_bytes, option_copied, nat_eq, IsTrue, IsFalse, OnOk};
ghost use Rattle.std.specs.Prelude.{OnErr};
ghost use Rattle.std.specs.List.{position};
ghost use Rattle.std.specs.Cmp.Lexicographic.{pointwise};
ghost use Rattle.desk_io.specs.Told.{file_of};
ghost use Rattle.desk_io.specs.Changes.{NamesDiffer};
ghost use Rattle.desk_io.specs.Memory.{named_bytes, content_of, passed_of, end_of};
ghost use Rattle.desk_io.specs.MemoryChanges.{files_needed, without, grown};
ghost use Rattle.desk_io.specs.FirstFile.{tells_first};

use crate::desk::{Desk, DeskFault};
use crate::faults::{FaultPlan, raised};
use std::alloc::AllocError;

/// How far a file is read: its index among the files, how many of its bytes have been read, and how
/// many it had when it was opened.
#[derive(Clone, Copy)]
struct Place {
    file: usize,
    passed: usize,
    end: usize,
}

/// A desk over files in memory, for tests. It tells its files, reads and writes a few bytes in each
/// call, and fails the calls that it is asked to fail. The created file is the first one.
pub struct MemDesk {
    files: Vec<(String, Vec<u8>)>,
    most: usize,
    plan: FaultPlan,
    reading: Option<Place>,
    created: bool,
    read_faults: u64,
    write_faults: u64,
    ghost some: { 0 < most },
    ghost there: { files_needed reading ≤ vec_len files },
    ghost within: { passed_of reading ≤ end_of reading },
    ghost ended: { end_of reading ≤ length (content_of (named_bytes files.items) reading) },
    ghost first: { IsTrue created → 0 < vec_len files },
}

// A desk is dropped by one call, and not field by field at each end of each call that owns one.
impl Drop for MemDesk {
    fn drop(self) {
        let MemDesk {
            files: _,
            most: _,
            plan: _,
            reading: _,
            created: _,
            read_faults: _,
            write_faults: _,
        } = self;
    }
}

impl MemDesk {
    ghost use Rattle.desk_io.specs.MemDesk.{files_of, unread_of};

    /// A desk with these files, none of them open or created. A call of `read` reads at most `most`
    /// bytes, and a call of `write` takes at most `most`. The calls whose numbers, counted from 0,
    /// are in `fail_at` fail. The numbers stop at 2^64 - 1.
    pub fn new(files: Vec<(String, Vec<u8>)>, most: usize, fail_at: Vec<u64>) -> MemDesk
        requires names { NamesDiffer (named_bytes files.items) }
        requires some { 0 < most }
        ensures files { files_of result ≡ named_bytes files.items }
        ensures unread { unread_of result ≡ [] }
        ensures created { IsFalse (⟦<MemDesk as Desk>⟧.created result) }
        ensures faults { (⟦<MemDesk as Desk>⟧.state result).read_faults ≡ 0 }
        ensures write_faults { (⟦<MemDesk as Desk>⟧.state result).write_faults ≡ 0 }
    {
        MemDesk {
            files,
            most,
            plan: FaultPlan::new(fail_at),
            reading: None,
            created: false,
            read_faults: 0,
            write_faults: 0,
        }
    }

    /// The content of the named file, if there is one.
    pub fn file(&self, name: &str) -> Option<&[u8]>
        ensures { option_copied result ≡ file_of (files_of self.now) name.now }
    {
        match position_of(&self.files, name) {
            Some(file) => Some(self.files[file].1.as_slice()),
            None => None,
        }
    }
}

impl Desk for MemDesk {
    ghost use Rattle.desk_io.specs.MemDesk.{told_of, files_of, unread_of};

    ghost state = { λ desk. record {
      told = told_of desk;
      read_faults = desk.read_faults;
      write_faults = desk.write_faults;
    } };

    ghost created = { λ desk. desk.created };

    ghost tells_created = { λ desk.
        tells_first desk.files (unread_of desk) desk.created desk.first };

    fn open_file(&mut self, name: &str) -> Result<bool, DeskFault> {
        self.reading = None;
        if self.plan.is_to_fail() {
            self.read_faults = raised(self.read_faults);
            return Err(DeskFault::Failed);
        }
        match position_of(&self.files, name) {
            Some(file) => {
                let end = self.files[file].1.len();
                self.reading = Some(Place {
                    file,
                    passed: 0,
                    end,
                });
                Ok(true)
            }
            None => Ok(false),
        }
    }

    fn read(&mut self, buf: &mut [u8]) -> Result<usize, DeskFault> {
        if self.plan.is_to_fail() {
            self.read_faults = raised(self.read_faults);
            return Err(DeskFault::Failed);
        }
        let Some(place) = self.reading else {
            return Ok(0);
        };
        let content = self.files[place.file].1.as_slice();
        let n = pass(&content[place.passed..place.end], buf, self.most);
        self.reading = Some(Place {
            file: place.file,
            passed: place.passed + n,
            end: place.end,
        });
        Ok(n)
    }

    fn create_file(&mut self, name: &str) -> Result<(), DeskFault> {
        if self.plan.is_to_fail() {
            self.write_faults = raised(self.write_faults);
            return Err(DeskFault::Failed);
        }
        match put_empty(&mut self.files, name) {
            Ok(()) => {
                self.reading = None;
                self.created = true;
                Ok(())
            }
            Err(_) => Err(DeskFault::Memory),
        }
    }

    fn write(&mut self, piece: &[u8]) -> Result<usize, DeskFault> {
        if self.plan.is_to_fail() {
            self.write_faults = raised(self.write_faults);
            return Err(DeskFault::Failed);
        }
        let n = piece.len().min(self.most);
        match append_to_first(&mut self.files, &piece[..n]) {
            Ok(()) => Ok(n),
            Err(_) => Err(DeskFault::Memory),
        }
    }

    fn close_file(&mut self) -> Result<(), DeskFault> {
        self.created = false;
        if self.plan.is_to_fail() {
            self.write_faults = raised(self.write_faults);
            return Err(DeskFault::Failed);
        }
        Ok(())
    }
}

/// The index of the first file of that name.
fn position_of(files: &[(String, Vec<u8>)], name: &str) -> Option<usize>
    ensures { result ≡ position (λ f. pointwise nat_eq (string_bytes f.0) name.now) files.now }
{
    files.iter().position(|file| file.0.as_str() == name)
}

/// Copies bytes from the front of `from` to the front of `to`, as many as both have, but at most
/// `most`, and returns how many.
fn pass(from: &[u8], to: &mut [u8], most: usize) -> usize
    ensures count { result ≡ min most (min (length from.now) (length to.old)) }
    ensures bytes { take result to.new ≡ take result from.now }
{
    let n = most.min(from.len().min(to.len()));
    to[..n].copy_from_slice(&from[..n]);
    n
}

/// Puts an empty file of that name before the others. It replaces the file that has the name.
fn put_empty(files: &mut Vec<(String, Vec<u8>)>, name: &str) -> Result<(), AllocError>
    ensures put { OnOk result (named_bytes files.new.items
        ≡ (name.now, []) ∷ without (named_bytes files.old.items) name.now) }
    ensures fault { OnErr result (files.new.items ≡ files.old.items) }
{
    let alloc = *files.allocator();
    let replaced = position_of(files, name);
    let file = (String::from_str(alloc, name)?, Vec::new(alloc));
    files.insert(0, file)?;
    if let Some(at) = replaced {
        files.remove(at + 1);
    }
    Ok(())
}

/// Appends the bytes to the first file.
fn append_to_first(files: &mut Vec<(String, Vec<u8>)>, piece: &[u8]) -> Result<(), AllocError>
    requires { 0 < vec_len files.old }
    ensures grown { OnOk result
        (named_bytes files.new.items ≡ grown (named_bytes files.old.items) piece.now) }
    ensures fault { OnErr result (named_bytes files.new.items ≡ named_bytes files.old.items) }
    ensures count { vec_len files.new ≡ vec_len files.old }
{
    files[0].1.extend_from_slice(piece)
}
