// The verdict on a database, and its line.
ghost use Rattle.std.specs.Prelude.{◌≡◌, ◌≤◌, IfOk, IfErr, OnOk, OnErr, IsErrOf};
ghost use Rattle.desk_io.specs.KeptFiles.{KeepsFiles};
ghost use Rattle.desk_io.specs.Sent.{Appends};
ghost use Rattle.desk_io.specs.SinkChanges.{AppendsFront};
ghost use Rattle.desk_io.specs.Counts.{CountRose};
ghost use Rattle.kore_prove.specs.FileCauses.{UnreadCause};
ghost use Rattle.kore_prove.specs.Causes.{VerifyCause};
ghost use Rattle.kore_prove.specs.Courses.{course_of};
ghost use Rattle.kore_prove.specs.Limits.{HoldsWithin};
ghost use Rattle.kore_prove.specs.Verdicts.{database_limit, valid_line, invalid_line};
ghost use Rattle.kore_prove.specs.PlainEnds.{plain_end};
ghost use Rattle.kore_prove.specs.DatabaseVerdicts.{IsVerdictOn, HoldsDatabase, PrintsVerdictOn};
ghost use Rattle.kore_prove.specs.DatabaseVerdicts.{verdict_code, verdict_line};

use crate::reading::unread_end;
use crate::report::{End, send_pieces, write_end};
use desk_io::{Desk, DeskFault, ReadEnd, Sink, read_file};
use itoa::Buffer;
use mm_text::MmFault;
use mm_verify::{Report, VerifyEnd, verify};
use std::alloc::{AllocError, Global};

/// The greatest number of bytes of a database.
const DATABASE_LIMIT: usize = 268_435_456;

/// The verdict on a database.
#[derive(Clone, Copy)]
pub enum Verdict {
    /// Valid, with these numbers of `$a` and `$p` statements.
    Valid(Report),
    /// Invalid, with this first fault.
    Invalid(MmFault),
}

impl Verdict {
    /// The exit code.
    pub fn code(&self) -> u8
        ensures { result ≡ verdict_code self.now }
    {
        match self {
            Verdict::Valid(_) => 0,
            Verdict::Invalid(_) => 12,
        }
    }
}

/// Verifies the database in the file of that name, and prints the line of the verdict to `out`.
pub fn verify_command<'a, D: Desk, O: Sink>(
    alloc: Global,
    file: &'a str,
    desk: &mut D,
    out: &mut O,
) -> Result<Verdict, End<'a>>
    ensures printed { IfOk result (PrintsVerdictOn
        file.now (D.state desk.old).told (O.state out.old).bytes (O.state out.new).bytes) }
    ensures cause { IfErr result (λ end. VerifyCause file.now (course_of
        (D.state desk.old) (D.state desk.new) (O.state out.old) (O.state out.new))
        (plain_end end)) }
    ensures files { KeepsFiles (D.state desk.old).told (D.state desk.new).told }
    ensures created { D.created desk.new ≡ D.created desk.old }
{
    let verdict = match read_verdict(alloc, desk, file) {
        Ok(verdict) => verdict,
        Err(end) => return Err(unread_end(end, file)),
    };
    match send_verdict(out, &verdict) {
        Ok(()) => Ok(verdict),
        Err(fault) => Err(write_end(fault)),
    }
}

/// The verdict on the database in the file of that name.
fn read_verdict<D: Desk>(alloc: Global, desk: &mut D, name: &str) -> Result<Verdict, ReadEnd>
    ensures found { IfOk result (HoldsDatabase (D.state desk.old).told name.now) }
    ensures cause { IfErr result (UnreadCause
        (D.state desk.old).told name.now database_limit (D.state desk.old).read_faults
        (D.state desk.new).read_faults) }
    ensures files { KeepsFiles (D.state desk.old).told (D.state desk.new).told }
    ensures created { D.created desk.new ≡ D.created desk.old }
{
    match read_database(alloc, desk, name) {
        Ok(bytes) => match verdict_on(alloc, &bytes) {
            Ok(verdict) => Ok(verdict),
            Err(_) => Err(ReadEnd::Memory),
        },
        Err(end) => Err(end),
    }
}

/// The bytes of the file of that name, if they are within the limit of a database.
pub fn read_database<D: Desk>(alloc: Global, desk: &mut D, name: &str) -> Result<Vec<u8>, ReadEnd>
    ensures held { IfOk result (λ bytes. HoldsWithin
        (D.state desk.old).told name.now database_limit bytes.items) }
    ensures cause { IfErr result (UnreadCause
        (D.state desk.old).told name.now database_limit (D.state desk.old).read_faults
        (D.state desk.new).read_faults) }
    ensures counts { (D.state desk.old).read_faults ≤ (D.state desk.new).read_faults }
    ensures files { KeepsFiles (D.state desk.old).told (D.state desk.new).told }
    ensures created { D.created desk.new ≡ D.created desk.old }
{
    read_file(alloc, desk, name, DATABASE_LIMIT)
}

/// The verdict on these bytes.
fn verdict_on(alloc: Global, bytes: &[u8]) -> Result<Verdict, AllocError>
    ensures { IfOk result (IsVerdictOn bytes.now) }
{
    match verify(alloc, bytes) {
        Ok(report) => Ok(Verdict::Valid(report)),
        Err(end) => match end {
            VerifyEnd::Invalid(fault) => Ok(Verdict::Invalid(fault)),
            VerifyEnd::Memory => Err(AllocError),
        },
    }
}

/// Sends the line of a verdict. After an error some bytes from its front, perhaps none, are sent.
/// It fails with `Failed` only if the sink counted a fault.
fn send_verdict<O: Sink>(out: &mut O, verdict: &Verdict) -> Result<(), DeskFault>
    ensures sent { OnOk result
        (Appends (O.state out.old).bytes (O.state out.new).bytes (verdict_line verdict.now)) }
    ensures prefix { OnErr result
        (AppendsFront (O.state out.old).bytes (O.state out.new).bytes (verdict_line verdict.now)) }
    ensures failed { IsErrOf result DeskFault.Failed
        → CountRose (O.state out.old).faults (O.state out.new).faults }
{
    match verdict {
        Verdict::Valid(report) => send_valid(out, report.axioms, report.theorems),
        Verdict::Invalid(fault) => send_invalid(out, fault.kind, fault.at),
    }
}

/// Sends the line of a valid database.
fn send_valid<O: Sink>(out: &mut O, axioms: u64, theorems: u64) -> Result<(), DeskFault>
    ensures sent { OnOk result
        (Appends (O.state out.old).bytes (O.state out.new).bytes (valid_line axioms theorems)) }
    ensures prefix { OnErr result
        (AppendsFront (O.state out.old).bytes (O.state out.new).bytes (valid_line axioms theorems)) }
    ensures failed { IsErrOf result DeskFault.Failed
        → CountRose (O.state out.old).faults (O.state out.new).faults }
{
    let mut first = Buffer::new();
    let mut second = Buffer::new();
    let pieces = [
        "valid ",
        first.format(axioms),
        " ",
        second.format(theorems),
        "\n",
    ];
    send_pieces(out, &pieces)
}

/// Sends the line of a database with this first fault.
pub fn send_invalid<O: Sink>(out: &mut O, kind: u8, byte: usize) -> Result<(), DeskFault>
    ensures sent { OnOk result
        (Appends (O.state out.old).bytes (O.state out.new).bytes (invalid_line kind byte)) }
    ensures prefix { OnErr result
        (AppendsFront (O.state out.old).bytes (O.state out.new).bytes (invalid_line kind byte)) }
    ensures failed { IsErrOf result DeskFault.Failed
        → CountRose (O.state out.old).faults (O.state out.new).faults }
{
    let mut first = Buffer::new();
    let mut second = Buffer::new();
    let pieces = [
        "invalid ",
        first.format(kind),
        " at ",
        second.format(byte),
        "\n",
    ];
    send_pieces(out, &pieces)
}
