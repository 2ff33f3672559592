// The drill: a definition and a term that the program makes itself, their run, its proof and the
// counts of that.
ghost use Rattle.std.specs.Prelude.{◌≡◌, ◌≤◌, ◌++◌, IsFalse, IfOk, IfErr, OnOk, OnErr, IsErrOf};
ghost use Rattle.command_words.specs.CommandLine.{most_drilled};
ghost use Rattle.desk_io.specs.Sent.{Appends};
ghost use Rattle.desk_io.specs.SinkChanges.{AppendsFront};
ghost use Rattle.desk_io.specs.Counts.{CountRose};
ghost use Rattle.kore_rules.specs.RefusedTexts.{RefusesFor};
ghost use Rattle.rule_core.specs.ProgramView.{theory_of};
ghost use Rattle.term_core.specs.RulePatterns.{plain_pattern};
ghost use Rattle.kore_prove.specs.Courses.{course_of};
ghost use Rattle.kore_prove.specs.DrillProgram.{IsDrillProgram};
ghost use Rattle.kore_prove.specs.DrilledRun.{counts_line};
ghost use Rattle.kore_prove.specs.PlainEnds.{plain_end};
ghost use Rattle.kore_prove.specs.Requests.{drill_request};
ghost use Rattle.kore_prove.specs.Runnable.{IsRunnable};
ghost use Rattle.kore_prove.specs.RunsDone.{IsDrillDone, IsDrillEnded};

use crate::files::Accepted;
use crate::proof_file::proved_lines;
use crate::report::{End, send_pieces, write_end};
use crate::running::Bounds;
use command_words::DrillWords;
use desk_io::{Desk, DeskFault, Sink, send_whole};
use drill_accepted::drill_acceptance_laws;
use drill_gen::{drill, drill_laws};
use hint_file::Hints;
use itoa::Buffer;
use kore_rules::{Refusal, accept, accept_term};
use prove_run::Summary;
use std::alloc::{AllocError, Global};

/// The greatest number of calls of functions in a drill.
const DRILL_CALLS: u32 = 10_000;

/// Runs the definition and the term of the drill. The limit of the run is one more than the drill's
/// steps. Writes the proof of the run to the named file, and prints the two lines of the run and
/// the line with the counts of the file.
pub fn drill_command<'a, D: Desk, O: Sink>(
    alloc: Global,
    asked: &DrillWords<'a>,
    desk: &mut D,
    out: &mut O,
) -> Result<(), End<'a>>
    requires none_created { IsFalse (D.created desk.old) }
    requires few { asked.now.steps ≤ most_drilled }
    ensures done { IfOk result (λ _. IsDrillDone (drill_request asked.now) (course_of
        (D.state desk.old) (D.state desk.new) (O.state out.old) (O.state out.new))) }
    ensures ended { IfErr result (λ end. IsDrillEnded (drill_request asked.now) (course_of
        (D.state desk.old) (D.state desk.new) (O.state out.old) (O.state out.new))
        (plain_end end)) }
    ensures created { D.created desk.new ≡ D.created desk.old }
{
    let accepted = match accepted_drill(alloc, asked.steps) {
        Ok(accepted) => accepted,
        Err(_) => return Err(End::OutOfMemory),
    };
    let bounds = Bounds {
        limit: asked.steps + 1,
        calls: DRILL_CALLS,
    };
    let mut hints = Hints::unwanted();
    let file = asked.file;
    let proved = match proved_lines(alloc, desk, &accepted, bounds, false, file, &mut hints) {
        Ok(proved) => proved,
        Err(fault) => return Err(write_end(fault)),
    };
    match send_lines(out, &proved.lines, proved.summary) {
        Ok(()) => Ok(()),
        Err(fault) => Err(write_end(fault)),
    }
}

// The program and the initial term of the drill, whose texts are never refused. `AllocError` says
// that memory ran out.
fn accepted_drill(alloc: Global, steps: u32) -> Result<Accepted, AllocError>
    requires { steps ≤ most_drilled }
    ensures program { IfOk result
        (λ a. IsDrillProgram steps (theory_of a.program) (plain_pattern a.start)) }
    ensures runnable { IfOk result IsRunnable }
{
    drill_laws();
    drill_acceptance_laws(alloc);
    let texts = drill(alloc, steps)?;
    let program = match accept(alloc, &texts.definition) {
        Ok(program) => program,
        Err(refusal) => return Err(out_of_memory(refusal)),
    };
    match accept_term(alloc, &program, &texts.term) {
        Ok(start) => Ok(Accepted { program, start }),
        Err(refusal) => Err(out_of_memory(refusal)),
    }
}

// Why a text that is never refused was not accepted: memory ran out.
fn out_of_memory(refusal: Refusal) -> AllocError
    requires { RefusesFor (λ _. ⊥) refusal }
{
    match refusal {
        Refusal::Refused(_, _) => unreachable!(),
        Refusal::Memory => AllocError,
    }
}

// Sends the lines of a run and the line of the counts. After an error some bytes from their front,
// perhaps none, are sent. It fails with `Failed` only if the sink counted a fault.
fn send_lines<O: Sink>(out: &mut O, lines: &[u8], summary: Summary) -> Result<(), DeskFault>
    ensures sent { OnOk result (Appends (O.state out.old).bytes (O.state out.new).bytes
        (lines.now ++ counts_line summary.facts summary.statements summary.bytes)) }
    ensures prefix { OnErr result (AppendsFront (O.state out.old).bytes (O.state out.new).bytes
        (lines.now ++ counts_line summary.facts summary.statements summary.bytes)) }
    ensures failed { IsErrOf result DeskFault.Failed
        → CountRose (O.state out.old).faults (O.state out.new).faults }
{
    match send_whole(out, lines) {
        Ok(()) => send_counts(out, summary),
        Err(fault) => Err(fault),
    }
}

// Sends the line of the counts, with the same errors.
fn send_counts<O: Sink>(out: &mut O, summary: Summary) -> Result<(), DeskFault>
    ensures sent { OnOk result (Appends
        (O.state out.old).bytes (O.state out.new).bytes
        (counts_line summary.facts summary.statements summary.bytes)) }
    ensures prefix { OnErr result (AppendsFront
        (O.state out.old).bytes (O.state out.new).bytes
        (counts_line summary.facts summary.statements summary.bytes)) }
    ensures failed { IsErrOf result DeskFault.Failed
        → CountRose (O.state out.old).faults (O.state out.new).faults }
{
    let mut facts = Buffer::new();
    let mut statements = Buffer::new();
    let mut bytes = Buffer::new();
    let pieces = [
        "facts ",
        facts.format(summary.facts),
        " statements ",
        statements.format(summary.statements),
        " bytes ",
        bytes.format(summary.bytes),
        "\n",
    ];
    send_pieces(out, &pieces)
}
