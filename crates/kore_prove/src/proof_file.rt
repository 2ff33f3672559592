// The lines of a run and, if they are wanted, the files of its proof and of its hints.
ghost use Rattle.std.specs.Prelude.{◌≡◌, ◌≤◌, Some, IsFalse, IfOk, OnErr, IsErrOf};
ghost use Rattle.term_core.specs.RulePatterns.{plain_pattern};
ghost use Rattle.rule_core.specs.ProgramView.{theory_of};
ghost use Rattle.desk_io.specs.Counts.{CountRose};
ghost use Rattle.run_loop.specs.RunEnds.{plain_run};
ghost use Rattle.hint_file.specs.RunTexts.{AddsHintTextOf};
ghost use Rattle.kore_prove.specs.HintedRun.{HasWantedHints};
ghost use Rattle.kore_prove.specs.ProofFiles.{HasWantedFront, HasWantedHintFront, HoldsCounted};
ghost use Rattle.kore_prove.specs.ProofFiles.{MayHoldFront};
ghost use Rattle.kore_prove.specs.ProvedRun.{HasWantedProof};
ghost use Rattle.kore_prove.specs.ShownRun.{HasWantedShown};
ghost use Rattle.run_proof.specs.StuckRuns.{IsShown};
ghost use Rattle.desk_io.specs.KeptFiles.{KeepsOthers};
ghost use Rattle.kore_prove.specs.Requests.{request, bounds_of, HasGoodFiles, IsWanted};
ghost use Rattle.kore_prove.specs.Requests.{IsWrittenBy};
ghost use Rattle.kore_prove.specs.Runnable.{IsRunnable};
ghost use Rattle.kore_prove.specs.RunsDone.{HasLines};

use crate::files::Accepted;
use crate::hint_writing::{hints_for, write_hints};
use crate::running::{Bounds, Proved, lines_of_run, proved_lines_of_run};
use command_words::RunWords;
use desk_io::{Desk, DeskFault};
use fun_eval::Engine;
use hint_file::Hints;
use run_loop::RunEnd;
use std::alloc::Global;

/// A run that was made.
#[derive(Drop)]
pub struct Made {
    /// How it ends.
    pub end: RunEnd,
    /// Its two lines.
    pub lines: Vec<u8>,
    /// How many rules its proof shows unmet at its end, if that is wanted and can be shown.
    pub shown: Option<usize>,
}

/// How the requested run ends, its two lines, and how many rules its proof shows unmet. If a file
/// for the proof is named, it is created before the run, written during the run, and closed after
/// it. If a file for the hints is named, it is created, written and closed after that.
///
/// Errors: out of memory, or a fault that the desk counted. After an error the file of the proof is
/// as before, is empty, or holds the front of a proof of this run up to one of its configurations.
/// The file of the hints is as before, or holds the front of the hint text of this run.
pub fn made_lines<D: Desk>(
    alloc: Global,
    desk: &mut D,
    accepted: &Accepted,
    asked: &RunWords<'_>,
) -> Result<Made, DeskFault>
    requires none_created { IsFalse (D.created desk.old) }
    requires runnable { IsRunnable accepted.now }
    requires good_files { HasGoodFiles (request asked.now) }
    ensures run { IfOk result (λ r. HasLines (bounds_of (request asked.now))
        (theory_of accepted.now.program) (plain_pattern accepted.now.start) (plain_run r.end)
        r.lines.items) }
    ensures shown { IfOk result (λ r. IsShown asked.now.stuck
        (theory_of accepted.now.program) (plain_run r.end) r.shown) }
    ensures proof { IfOk result (λ r. HasWantedProof (request asked.now).proof
        (D.state desk.old).told (D.state desk.new).told
        (theory_of accepted.now.program) (plain_pattern accepted.now.start) (plain_run r.end)) }
    ensures shows { IfOk result (λ r. HasWantedShown (request asked.now).proof
        (D.state desk.old).told (D.state desk.new).told
        (theory_of accepted.now.program) (plain_run r.end) r.shown) }
    ensures hints { IfOk result (λ r. HasWantedHints (request asked.now).hints
        (D.state desk.old).told (D.state desk.new).told
        (theory_of accepted.now.program) asked.now.calls (plain_pattern accepted.now.start)
        (plain_run r.end)) }
    ensures front { OnErr result
        (HasWantedFront (request asked.now).proof (D.state desk.old).told (D.state desk.new).told
        (theory_of accepted.now.program) asked.now.limit asked.now.calls
        (plain_pattern accepted.now.start)) }
    ensures hint_front { OnErr result (HasWantedHintFront
        (request asked.now).hints (D.state desk.old).told (D.state desk.new).told
        (theory_of accepted.now.program) asked.now.limit asked.now.calls
        (plain_pattern accepted.now.start)) }
    ensures failed { IsErrOf result DeskFault.Failed
        → CountRose (D.state desk.old).write_faults (D.state desk.new).write_faults }
    ensures files { KeepsOthers (IsWrittenBy (request asked.now)) (D.state desk.old).told
        (D.state desk.new).told }
    ensures created { D.created desk.new ≡ D.created desk.old }
    ensures reads { (D.state desk.new).read_faults ≡ (D.state desk.old).read_faults }
{
    let mut hints = hints_for(alloc, asked.hints);
    let made = made_run(alloc, desk, accepted, asked, &mut hints)?;
    match write_hints(desk, asked.hints, &hints) {
        Ok(()) => Ok(made),
        Err(fault) => Err(fault),
    }
}

// The same, but for the file of the hints: they are held in memory.
fn made_run<D: Desk>(
    alloc: Global,
    desk: &mut D,
    accepted: &Accepted,
    asked: &RunWords<'_>,
    hints: &mut Hints,
) -> Result<Made, DeskFault>
    requires none_created { IsFalse (D.created desk.old) }
    requires runnable { IsRunnable accepted.now }
    requires good_files { HasGoodFiles (request asked.now) }
    ensures run { IfOk result (λ r. HasLines (bounds_of (request asked.now))
        (theory_of accepted.now.program) (plain_pattern accepted.now.start) (plain_run r.end)
        r.lines.items) }
    ensures shown { IfOk result (λ r. IsShown asked.now.stuck
        (theory_of accepted.now.program) (plain_run r.end) r.shown) }
    ensures hints { IfOk result (λ r. AddsHintTextOf
        (theory_of accepted.now.program) asked.now.calls (plain_pattern accepted.now.start)
        (plain_run r.end) hints.old hints.new) }
    ensures proof { IfOk result (λ r. HasWantedProof (request asked.now).proof
        (D.state desk.old).told (D.state desk.new).told
        (theory_of accepted.now.program) (plain_pattern accepted.now.start) (plain_run r.end)) }
    ensures shows { IfOk result (λ r. HasWantedShown (request asked.now).proof
        (D.state desk.old).told (D.state desk.new).told
        (theory_of accepted.now.program) (plain_run r.end) r.shown) }
    ensures front { OnErr result
        (HasWantedFront (request asked.now).proof (D.state desk.old).told (D.state desk.new).told
        (theory_of accepted.now.program) asked.now.limit asked.now.calls
        (plain_pattern accepted.now.start)) }
    ensures failed { IsErrOf result DeskFault.Failed
        → CountRose (D.state desk.old).write_faults (D.state desk.new).write_faults }
    ensures counts { (D.state desk.old).write_faults ≤ (D.state desk.new).write_faults }
    ensures files { KeepsOthers (IsWanted (request asked.now)) (D.state desk.old).told
        (D.state desk.new).told }
    ensures created { D.created desk.new ≡ D.created desk.old }
    ensures reads { (D.state desk.new).read_faults ≡ (D.state desk.old).read_faults }
{
    let bounds = Bounds {
        limit: asked.limit,
        calls: asked.calls,
    };
    match asked.proof {
        Some(file) => {
            let stuck = asked.stuck;
            let proved = proved_lines(alloc, desk, accepted, bounds, stuck, file, hints)?;
            Ok(Made {
                end: proved.end,
                lines: proved.lines,
                shown: proved.shown,
            })
        }
        None => {
            let (end, lines) = lines_of_run(alloc, accepted, bounds, hints)?;
            let shown = None;
            Ok(Made { end, lines, shown })
        }
    }
}

/// The run within these bounds, with its proof in the file of this name. The file is created before
/// the run, written during the run, and closed after it. If `stuck` is set and the run is stuck, the
/// proof shows that no rule applies. If hints are wanted, they get the hint text of the run. The
/// errors are the ones of `made_lines`.
pub fn proved_lines<D: Desk>(
    alloc: Global,
    desk: &mut D,
    accepted: &Accepted,
    bounds: Bounds,
    stuck: bool,
    file: &str,
    hints: &mut Hints,
) -> Result<Proved, DeskFault>
    requires none_created { IsFalse (D.created desk.old) }
    requires runnable { IsRunnable accepted.now }
    ensures run { IfOk result (λ r. HasLines bounds
        (theory_of accepted.now.program) (plain_pattern accepted.now.start) (plain_run r.end)
        r.lines.items) }
    ensures hints { IfOk result (λ r. AddsHintTextOf
        (theory_of accepted.now.program) bounds.calls (plain_pattern accepted.now.start)
        (plain_run r.end) hints.old hints.new) }
    ensures proof { IfOk result (λ r. HoldsCounted
        (D.state desk.old).told (D.state desk.new).told file.now
        (theory_of accepted.now.program) (plain_pattern accepted.now.start) (plain_run r.end)
        r.shown r.summary) }
    ensures shown { IfOk result (λ r. IsShown stuck
        (theory_of accepted.now.program) (plain_run r.end) r.shown) }
    ensures front { OnErr result (MayHoldFront
        (D.state desk.old).told (D.state desk.new).told file.now
        (theory_of accepted.now.program) bounds.limit bounds.calls
        (plain_pattern accepted.now.start)) }
    ensures failed { IsErrOf result DeskFault.Failed
        → CountRose (D.state desk.old).write_faults (D.state desk.new).write_faults }
    ensures counts { (D.state desk.old).write_faults ≤ (D.state desk.new).write_faults }
    ensures files { KeepsOthers (λ other. Some file.now ≡ Some other) (D.state desk.old).told
        (D.state desk.new).told }
    ensures created { D.created desk.new ≡ D.created desk.old }
    ensures reads { (D.state desk.new).read_faults ≡ (D.state desk.old).read_faults }
{
    let engine = Engine::new(alloc, &accepted.program)?;
    desk.create_file(file)?;
    proved_lines_of_run(alloc, desk, &engine, accepted, bounds, stuck, hints)
}
