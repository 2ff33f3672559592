// What a database justifies over the program of a definition, and the lines that say it.
ghost use Rattle.std.specs.Prelude.{◌≡◌, ◌≤◌, IfOk, IfErr, OnOk, OnErr, IsErrOf};
ghost use Rattle.desk_io.specs.KeptFiles.{KeepsFiles};
ghost use Rattle.desk_io.specs.Sent.{Appends};
ghost use Rattle.desk_io.specs.SinkChanges.{AppendsFront};
ghost use Rattle.desk_io.specs.Counts.{CountRose};
ghost use Rattle.rule_core.specs.ProgramView.{theory_of};
ghost use Rattle.assumed_texts.specs.AssumedTexts.{CanBeAssumed};
ghost use Rattle.mm_check.specs.OffenceNumbers.{offence_number};
ghost use Rattle.kore_prove.specs.Causes.{CheckCause, CheckReadCause};
ghost use Rattle.kore_prove.specs.Checks.{unjustified_line};
ghost use Rattle.kore_prove.specs.Courses.{course_of};
ghost use Rattle.kore_prove.specs.Decisions.{IsDecisionOn, HoldsDecision, PrintsDecision};
ghost use Rattle.kore_prove.specs.Decisions.{decision_code, decision_lines};
ghost use Rattle.kore_prove.specs.PlainEnds.{plain_end};
ghost use Rattle.kore_prove.specs.Requests.{check_request};

use crate::files::read_program;
use crate::reading::{definition_end, unread_end};
use crate::report::{End, send_pieces, write_end};
use crate::verification::{read_database, send_invalid};
use command_words::CheckWords;
use desk_io::{Desk, DeskFault, Sink, send_whole};
use itoa::Buffer;
use mm_check::{CheckEnd, Offence, check};
use mm_text::MmFault;
use rule_core::Program;
use std::alloc::{AllocError, Global};

/// What was decided of a database.
#[derive(Drop)]
pub enum Decision {
    /// It justifies that one pattern reaches another: the lines that say so.
    Justified(Vec<u8>),
    /// It is not valid: its first fault.
    Invalid(MmFault),
    /// It is valid and justifies nothing: what is wrong first, and the byte of that statement.
    Unjustified(Offence, usize),
}

impl Decision {
    /// The exit code.
    pub fn code(&self) -> u8
        ensures { result ≡ decision_code self.now }
    {
        match self {
            Decision::Justified(_) => 0,
            Decision::Invalid(_) => 12,
            Decision::Unjustified(..) => 13,
        }
    }
}

/// Decides what the database in a file justifies over the program of the definition in another, and
/// prints the lines of the decision to `out`.
pub fn check_command<'a, D: Desk, O: Sink>(
    alloc: Global,
    asked: &CheckWords<'a>,
    desk: &mut D,
    out: &mut O,
) -> Result<Decision, End<'a>>
    ensures printed { IfOk result (PrintsDecision (D.state desk.old).told
        (check_request asked.now) (O.state out.old).bytes (O.state out.new).bytes) }
    ensures cause { IfErr result (λ end. CheckCause (check_request asked.now) (course_of
        (D.state desk.old) (D.state desk.new) (O.state out.old) (O.state out.new))
        (plain_end end)) }
    ensures files { KeepsFiles (D.state desk.old).told (D.state desk.new).told }
    ensures created { D.created desk.new ≡ D.created desk.old }
{
    let decision = match read_decision(alloc, desk, asked) {
        Ok(decision) => decision,
        Err(end) => return Err(end),
    };
    match send_decision(out, &decision) {
        Ok(()) => Ok(decision),
        Err(fault) => Err(write_end(fault)),
    }
}

/// The decision on the files of a request. The definition is read first.
fn read_decision<'a, D: Desk>(
    alloc: Global,
    desk: &mut D,
    asked: &CheckWords<'a>,
) -> Result<Decision, End<'a>>
    ensures found { IfOk result
        (HoldsDecision (D.state desk.old).told (check_request asked.now)) }
    ensures cause { IfErr result (λ end. CheckReadCause (check_request asked.now)
        (D.state desk.old).told (D.state desk.old).read_faults (D.state desk.new).read_faults
        (plain_end end)) }
    ensures files { KeepsFiles (D.state desk.old).told (D.state desk.new).told }
    ensures created { D.created desk.new ≡ D.created desk.old }
{
    let program = match read_program(alloc, desk, asked.definition) {
        Ok(program) => program,
        Err(end) => return Err(definition_end(end, asked.definition)),
    };
    let bytes = match read_database(alloc, desk, asked.file) {
        Ok(bytes) => bytes,
        Err(end) => return Err(unread_end(end, asked.file)),
    };
    match decision_on(alloc, &program, &bytes) {
        Ok(decision) => Ok(decision),
        Err(_) => Err(End::OutOfMemory),
    }
}

/// The decision on these bytes, over a program.
fn decision_on(alloc: Global, program: &Program, bytes: &[u8]) -> Result<Decision, AllocError>
    requires { CanBeAssumed program.now }
    ensures { IfOk result (IsDecisionOn (theory_of program.now) bytes.now) }
{
    match check(alloc, program, bytes) {
        Ok(checked) => Ok(Decision::Justified(checked.lines(alloc)?)),
        Err(end) => match end {
            CheckEnd::Invalid(fault) => Ok(Decision::Invalid(fault)),
            CheckEnd::Unjustified(offence, at) => Ok(Decision::Unjustified(offence, at)),
            CheckEnd::Memory => Err(AllocError),
        },
    }
}

/// Sends the lines of a decision. After an error some bytes from their front, perhaps none, are
/// sent. It fails with `Failed` only if the sink counted a fault.
fn send_decision<O: Sink>(out: &mut O, decision: &Decision) -> Result<(), DeskFault>
    ensures sent { OnOk result
        (Appends (O.state out.old).bytes (O.state out.new).bytes (decision_lines decision.now)) }
    ensures prefix { OnErr result
        (AppendsFront (O.state out.old).bytes (O.state out.new).bytes (decision_lines decision.now)) }
    ensures failed { IsErrOf result DeskFault.Failed
        → CountRose (O.state out.old).faults (O.state out.new).faults }
{
    match decision {
        Decision::Justified(lines) => send_whole(out, lines),
        Decision::Invalid(fault) => send_invalid(out, fault.kind, fault.at),
        Decision::Unjustified(offence, at) => send_unjustified(out, offence.number(), *at),
    }
}

/// Sends the line of a database that justifies nothing.
fn send_unjustified<O: Sink>(out: &mut O, number: u8, byte: usize) -> Result<(), DeskFault>
    ensures sent { OnOk result
        (Appends (O.state out.old).bytes (O.state out.new).bytes (unjustified_line number byte)) }
    ensures prefix { OnErr result
        (AppendsFront (O.state out.old).bytes (O.state out.new).bytes (unjustified_line number byte)) }
    ensures failed { IsErrOf result DeskFault.Failed
        → CountRose (O.state out.old).faults (O.state out.new).faults }
{
    let mut first = Buffer::new();
    let mut second = Buffer::new();
    let pieces = [
        "unjustified ",
        first.format(number),
        " at ",
        second.format(byte),
        "\n",
    ];
    send_pieces(out, &pieces)
}
