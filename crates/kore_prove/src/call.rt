// The top call: words, files, the run and its lines, the verdict, the drill.
ghost use Rattle.std.specs.Prelude.{◌≡◌, ◌⊎◌, ◌++◌, IsFalse, IfOk, IfErr, OnOk, OnErr, IsErrOf, Err};
ghost use Rattle.std.specs.Prelude.{map, string_bytes};
ghost use Rattle.desk_io.specs.Sent.{Appends};
ghost use Rattle.desk_io.specs.SinkChanges.{AppendsFront};
ghost use Rattle.desk_io.specs.Counts.{CountRose};
ghost use Rattle.desk_io.specs.KeptFiles.{KeepsFiles, KeepsOthers};
ghost use Rattle.run_loop.specs.RunEnds.{plain_run};
ghost use Rattle.kore_prove.specs.BegunLines.{StopsPrinting, FailsInPrinting};
ghost use Rattle.kore_prove.specs.Calls.{IsAnswered};
ghost use Rattle.kore_prove.specs.Causes.{Ends};
ghost use Rattle.kore_prove.specs.Checks.{PrintsCheck};
ghost use Rattle.kore_prove.specs.CompleteChecks.{CompletesCheck};
ghost use Rattle.kore_prove.specs.CompleteDrills.{CompletesDrill};
ghost use Rattle.kore_prove.specs.CompletePaths.{CompletesPath};
ghost use Rattle.kore_prove.specs.CompleteRuns.{Completes};
ghost use Rattle.kore_prove.specs.CompleteVerdicts.{CompletesVerdict};
ghost use Rattle.kore_prove.specs.Courses.{call_of, course_of};
ghost use Rattle.kore_prove.specs.DrilledRun.{Drills, LeavesFrontOfDrill};
ghost use Rattle.kore_prove.specs.HintedRun.{HintsRun};
ghost use Rattle.kore_prove.specs.HintFronts.{LeavesHintFront};
ghost use Rattle.kore_prove.specs.PlainEnds.{plain_end};
ghost use Rattle.kore_prove.specs.PrintedRun.{PrintsRun, code_of, shown_line};
ghost use Rattle.kore_prove.specs.ProvedPath.{ProvesPath, LeavesFrontOfPath};
ghost use Rattle.kore_prove.specs.ProvedRun.{ProvesRun};
ghost use Rattle.kore_prove.specs.RunFronts.{LeavesFrontOfRun};
ghost use Rattle.kore_prove.specs.Reports.{Reports};
ghost use Rattle.kore_prove.specs.Requests.{HasGoodFiles, AsksFor, request};
ghost use Rattle.kore_prove.specs.RunsDone.{IsRunDone, IsRunEnded};
ghost use Rattle.kore_prove.specs.ShownRun.{ShowsStuckRun};
ghost use Rattle.kore_prove.specs.Unwritten.{IsUnwritten};
ghost use Rattle.kore_prove.specs.Verdicts.{PrintsVerdict};
ghost use Rattle.kore_prove.specs.Words.{IsWrittenFile};
ghost use Rattle.kore_prove.specs.BadWords.{AreBad};

use crate::checking::check_command;
use crate::drilling::drill_command;
use crate::proof_file::{Made, made_lines};
use crate::proving::prove_command;
use crate::reading::read_run;
use crate::report::{End, send_pieces, send_report, write_end};
use crate::verification::verify_command;
use command_words::{Command, RunWords, WordsEnd, read_words};
use desk_io::{Desk, DeskFault, Sink, send_whole};
use itoa::Buffer;
use run_loop::RunEnd;
use std::alloc::Global;

/// How a call ended: the exit code of the program.
#[derive(Clone, Copy, PartialEq, Eq, Debug)]
pub struct Status {
    pub code: u8,
}

/// Does what the words ask for. A run reads its files from the desk, runs the term, writes the
/// proof of the run and then its hints to their files, if they are named, and prints the two lines
/// of the run to `out`, and a third one that says how many rules the proof shows unmet at its end,
/// if that is wanted. A proof of a path reads a definition and hints, checks all lines of the
/// hints, writes the proof of the path to its file, and prints two lines: the number of steps, and
/// the last configuration. A verification prints the line of the verdict on the database. A check
/// reads a definition and a database, and prints what the database justifies over the definition's
/// program, or what is wrong first. A drill runs a definition of its own, writes the proof to its
/// file, and prints the two lines of the run and one line with the counts of the file. If the call
/// does not print these lines, `err` gets one line that states the reason, and the file of the proof
/// is as before or holds the front of a proof, and that of the hints the front of the hints. The
/// output then got nothing, or a part of the lines from the front; the files are whole before the
/// first of them.
///
/// The status has the exit code. A run: 0 if it is stuck, 10 if it reached its limit, 11 if it is
/// blocked. A proof of a path: 0 if it was written, 14 if a line of the hints is bad. A
/// verification: 0 if the database is valid, 12 if it is not. A check: 0 if the database justifies
/// that one pattern reaches another, 12 if it is not valid, 13 if it is valid and justifies nothing.
/// A drill: 0. Any other end: its code (`Reports`).
pub fn kore_main<D: Desk, O: Sink, E: Sink>(
    alloc: Global,
    words: &[String],
    desk: &mut D,
    out: &mut O,
    err: &mut E,
) -> Status
    requires none_created { IsFalse (D.created desk.old) }
    ensures printed_run { PrintsRun (call_of
        (map string_bytes words.now) (D.state desk.old) (D.state desk.new) (O.state out.old)
        (O.state out.new) (E.state err.old) (E.state err.new)) result.code }
    ensures proved_run { ProvesRun (call_of
        (map string_bytes words.now) (D.state desk.old) (D.state desk.new) (O.state out.old)
        (O.state out.new) (E.state err.old) (E.state err.new)) result.code }
    ensures shown_stuck { ShowsStuckRun (call_of
        (map string_bytes words.now) (D.state desk.old) (D.state desk.new) (O.state out.old)
        (O.state out.new) (E.state err.old) (E.state err.new)) result.code }
    ensures proof_front { LeavesFrontOfRun (call_of
        (map string_bytes words.now) (D.state desk.old) (D.state desk.new) (O.state out.old)
        (O.state out.new) (E.state err.old) (E.state err.new)) }
    ensures hinted_run { HintsRun (call_of
        (map string_bytes words.now) (D.state desk.old) (D.state desk.new) (O.state out.old)
        (O.state out.new) (E.state err.old) (E.state err.new)) result.code }
    ensures hint_front { LeavesHintFront (call_of
        (map string_bytes words.now) (D.state desk.old) (D.state desk.new) (O.state out.old)
        (O.state out.new) (E.state err.old) (E.state err.new)) }
    ensures verdict { PrintsVerdict (call_of
        (map string_bytes words.now) (D.state desk.old) (D.state desk.new) (O.state out.old)
        (O.state out.new) (E.state err.old) (E.state err.new)) result.code }
    ensures checked { PrintsCheck (call_of
        (map string_bytes words.now) (D.state desk.old) (D.state desk.new) (O.state out.old)
        (O.state out.new) (E.state err.old) (E.state err.new)) result.code }
    ensures proved_path { ProvesPath (call_of
        (map string_bytes words.now) (D.state desk.old) (D.state desk.new) (O.state out.old)
        (O.state out.new) (E.state err.old) (E.state err.new)) result.code }
    ensures path_front { LeavesFrontOfPath (call_of
        (map string_bytes words.now) (D.state desk.old) (D.state desk.new) (O.state out.old)
        (O.state out.new) (E.state err.old) (E.state err.new)) }
    ensures drilled { Drills (call_of
        (map string_bytes words.now) (D.state desk.old) (D.state desk.new) (O.state out.old)
        (O.state out.new) (E.state err.old) (E.state err.new)) result.code }
    ensures drill_front { LeavesFrontOfDrill (call_of
        (map string_bytes words.now) (D.state desk.old) (D.state desk.new) (O.state out.old)
        (O.state out.new) (E.state err.old) (E.state err.new)) }
    ensures ends { Ends (call_of
        (map string_bytes words.now) (D.state desk.old) (D.state desk.new) (O.state out.old)
        (O.state out.new) (E.state err.old) (E.state err.new)) result.code }
    ensures stops_printing { StopsPrinting (call_of
        (map string_bytes words.now) (D.state desk.old) (D.state desk.new) (O.state out.old)
        (O.state out.new) (E.state err.old) (E.state err.new)) result.code }
    ensures fails_in_printing { FailsInPrinting (call_of
        (map string_bytes words.now) (D.state desk.old) (D.state desk.new) (O.state out.old)
        (O.state out.new) (E.state err.old) (E.state err.new)) result.code }
    ensures complete { Completes (call_of
        (map string_bytes words.now) (D.state desk.old) (D.state desk.new) (O.state out.old)
        (O.state out.new) (E.state err.old) (E.state err.new)) result.code }
    ensures complete_verdict { CompletesVerdict (call_of
        (map string_bytes words.now) (D.state desk.old) (D.state desk.new) (O.state out.old)
        (O.state out.new) (E.state err.old) (E.state err.new)) result.code }
    ensures complete_check { CompletesCheck (call_of
        (map string_bytes words.now) (D.state desk.old) (D.state desk.new) (O.state out.old)
        (O.state out.new) (E.state err.old) (E.state err.new)) result.code }
    ensures complete_path { CompletesPath (call_of
        (map string_bytes words.now) (D.state desk.old) (D.state desk.new) (O.state out.old)
        (O.state out.new) (E.state err.old) (E.state err.new)) result.code }
    ensures complete_drill { CompletesDrill (call_of
        (map string_bytes words.now) (D.state desk.old) (D.state desk.new) (O.state out.old)
        (O.state out.new) (E.state err.old) (E.state err.new)) result.code }
    ensures bad_words { AreBad (map string_bytes words.now)
        → (result.code ≡ 2) ⊎ (result.code ≡ 1) }
    ensures others { KeepsOthers (IsWrittenFile (map string_bytes words.now))
        (D.state desk.old).told (D.state desk.new).told }
    ensures files { IsUnwritten result.code
        → KeepsFiles (D.state desk.old).told (D.state desk.new).told }
    ensures created { D.created desk.new ≡ D.created desk.old }
{
    answered(alloc, words, desk, out, err)
}

// The call, with all that its contract says as one fact.
fn answered<D: Desk, O: Sink, E: Sink>(
    alloc: Global,
    words: &[String],
    desk: &mut D,
    out: &mut O,
    err: &mut E,
) -> Status
    requires none_created { IsFalse (D.created desk.old) }
    ensures answered { IsAnswered (call_of
        (map string_bytes words.now) (D.state desk.old) (D.state desk.new) (O.state out.old)
        (O.state out.new) (E.state err.old) (E.state err.new)) result.code }
    ensures created { D.created desk.new ≡ D.created desk.old }
{
    match named_command(alloc, words) {
        Ok(command) => match command {
            Command::Run(asked) => match run_command(alloc, &asked, desk, out) {
                Ok(end) => Status {
                    code: exit_code(&end),
                },
                Err(end) => report(err, &end),
            },
            Command::Verify(file) => match verify_command(alloc, file, desk, out) {
                Ok(verdict) => Status {
                    code: verdict.code(),
                },
                Err(end) => report(err, &end),
            },
            Command::Check(asked) => match check_command(alloc, &asked, desk, out) {
                Ok(decision) => Status {
                    code: decision.code(),
                },
                Err(end) => report(err, &end),
            },
            Command::Prove(asked) => match prove_command(alloc, &asked, desk, out) {
                Ok(()) => Status { code: 0 },
                Err(end) => report(err, &end),
            },
            Command::Drill(asked) => match drill_command(alloc, &asked, desk, out) {
                Ok(()) => Status { code: 0 },
                Err(end) => report(err, &end),
            },
        },
        Err(end) => match end {
            WordsEnd::Bad => report(err, &End::BadWords),
            WordsEnd::Memory => report(err, &End::OutOfMemory),
        },
    }
}

// What the words ask for.
fn named_command(alloc: Global, words: &[String]) -> Result<Command<'_>, WordsEnd>
    ensures asked { IfOk result (AsksFor (map string_bytes words.entry.now)) }
    ensures bad { result ≡ Err WordsEnd.Bad → AreBad (map string_bytes words.entry.now) }
{
    read_words(alloc, words)
}

// The exit code of a run.
fn exit_code(end: &RunEnd) -> u8
    ensures { result ≡ code_of (plain_run end.now) }
{
    match end {
        RunEnd::Stuck(..) => 0,
        RunEnd::Limit(..) => 10,
        RunEnd::Blocked(..) | RunEnd::Unstarted(_) => 11,
    }
}

/// Reports on `err` why the call did not print its lines. If memory runs out in this too, the
/// status is the one for out of memory.
pub fn report<E: Sink>(err: &mut E, end: &End) -> Status
    ensures { Reports (plain_end end.now)
        (E.state err.old).bytes (E.state err.new).bytes (E.state err.old).faults
        (E.state err.new).faults result.code }
{
    let answer = send_report(err, end);
    Status {
        code: end.code_after(answer),
    }
}

// Runs the term of one file by the definition of the other file, writes the proof of the run and
// its hints if they are wanted, and prints the lines of the run.
fn run_command<'a, D: Desk, O: Sink>(
    alloc: Global,
    asked: &RunWords<'a>,
    desk: &mut D,
    out: &mut O,
) -> Result<RunEnd, End<'a>>
    requires none_created { IsFalse (D.created desk.old) }
    requires good_files { HasGoodFiles (request asked.now) }
    ensures done { IfOk result (λ end. IsRunDone (request asked.now) (course_of
        (D.state desk.old) (D.state desk.new) (O.state out.old) (O.state out.new))
        (plain_run end)) }
    ensures ended { IfErr result (λ end. IsRunEnded (request asked.now) (course_of
        (D.state desk.old) (D.state desk.new) (O.state out.old) (O.state out.new))
        (plain_end end)) }
    ensures created { D.created desk.new ≡ D.created desk.old }
{
    let accepted = match read_run(alloc, desk, asked) {
        Ok(accepted) => accepted,
        Err(end) => return Err(end),
    };
    let Made { end, lines, shown } = match made_lines(alloc, desk, &accepted, asked) {
        Ok(made) => made,
        Err(fault) => return Err(write_end(fault)),
    };
    match send_lines(out, &lines, asked.stuck, shown) {
        Ok(()) => Ok(end),
        Err(fault) => Err(write_end(fault)),
    }
}

// Sends the two lines of a run, and the third one if it is wanted. After an error some bytes from
// their front, perhaps none, are sent. It fails with `Failed` only if the sink counted a fault.
fn send_lines<O: Sink>(
    out: &mut O,
    lines: &[u8],
    stuck: bool,
    shown: Option<usize>,
) -> Result<(), DeskFault>
    ensures sent { OnOk result (Appends (O.state out.old).bytes (O.state out.new).bytes
        (lines.now ++ shown_line stuck shown)) }
    ensures prefix { OnErr result (AppendsFront (O.state out.old).bytes (O.state out.new).bytes
        (lines.now ++ shown_line stuck shown)) }
    ensures failed { IsErrOf result DeskFault.Failed
        → CountRose (O.state out.old).faults (O.state out.new).faults }
{
    match send_whole(out, lines) {
        Ok(()) => send_shown(out, stuck, shown),
        Err(fault) => Err(fault),
    }
}

// Sends the third line if it is wanted, with the same errors.
fn send_shown<O: Sink>(out: &mut O, stuck: bool, shown: Option<usize>) -> Result<(), DeskFault>
    ensures sent { OnOk result (Appends (O.state out.old).bytes (O.state out.new).bytes
        (shown_line stuck shown)) }
    ensures prefix { OnErr result (AppendsFront (O.state out.old).bytes (O.state out.new).bytes
        (shown_line stuck shown)) }
    ensures failed { IsErrOf result DeskFault.Failed
        → CountRose (O.state out.old).faults (O.state out.new).faults }
{
    if !stuck {
        return Ok(());
    }
    let mut numbers = Buffer::new();
    match shown {
        Some(rules) => send_pieces(out, &["shown ", numbers.format(rules), "\n"]),
        None => send_pieces(out, &["shown none\n"]),
    }
}
