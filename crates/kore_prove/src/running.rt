// The requested run, its lines, and its proof.
ghost use Rattle.std.specs.Prelude.{◌≡◌, ◌≤◌, IsTrue, IsFalse, IfOk, OnErr, IsErrOf};
ghost use Rattle.term_core.specs.RulePatterns.{plain_pattern};
ghost use Rattle.rule_core.specs.ProgramView.{theory_of};
ghost use Rattle.desk_io.specs.Counts.{CountRose};
ghost use Rattle.hint_file.specs.RunTexts.{AddsHintTextOf};
ghost use Rattle.run_loop.specs.RunEnds.{plain_run};
ghost use Rattle.run_proof.specs.ClosedProofs.{KeepsOthersNow, PutsFront, PutsProof};
ghost use Rattle.run_proof.specs.StuckRuns.{IsShown};
ghost use Rattle.kore_prove.specs.Runnable.{IsRunnable};
ghost use Rattle.kore_prove.specs.RunsDone.{HasLines};

use crate::files::Accepted;
use desk_io::{Desk, DeskFault};
use fun_eval::Engine;
use hint_file::Hints;
use kore_show::shown_laws;
use prove_run::Summary;
use run_lines::run_lines;
use run_loop::{RunEnd, run};
use run_proof::{ProvedEnd, proved_run};
use std::alloc::{AllocError, Global};

/// How far a run may go.
#[derive(Clone, Copy)]
pub struct Bounds {
    /// The greatest number of steps.
    pub limit: u32,
    /// The greatest number of calls of functions.
    pub calls: u32,
}

/// A proved run.
#[derive(Drop)]
pub struct Proved {
    /// How it ends.
    pub end: RunEnd,
    /// Its two lines.
    pub lines: Vec<u8>,
    /// How many rules its proof shows unmet at its end, if that is wanted and can be shown.
    pub shown: Option<usize>,
    /// The counts of the database that proves it.
    pub summary: Summary,
}

/// How the run within these bounds ends, and its two lines. If hints are wanted, they get the hint
/// text of the run. `AllocError`: out of memory.
pub fn lines_of_run(
    alloc: Global,
    accepted: &Accepted,
    bounds: Bounds,
    hints: &mut Hints,
) -> Result<(RunEnd, Vec<u8>), AllocError>
    requires { IsRunnable accepted.now }
    ensures lines { IfOk result (λ r. HasLines bounds
        (theory_of accepted.now.program) (plain_pattern accepted.now.start) (plain_run r.0)
        r.1.items) }
    ensures hints { IfOk result (λ r. AddsHintTextOf (theory_of accepted.now.program) bounds.calls
        (plain_pattern accepted.now.start) (plain_run r.0) hints.old hints.new) }
{
    shown_laws();
    let engine = Engine::new(alloc, &accepted.program)?;
    let start = &accepted.start;
    let end = run(alloc, &engine, start, bounds.limit, bounds.calls, hints)?;
    let lines = run_lines(alloc, &accepted.program.sig, start, &end)?;
    Ok((end, lines))
}

/// How the run within these bounds ends, its two lines, and the counts of its proof. The engine is
/// one of the accepted program. The proof is appended to the created file during the run, and the
/// file is closed, even after an error. If `stuck` is set and the run is stuck, the proof shows that
/// no rule applies. If hints are wanted, they get the hint text of the run.
///
/// Errors: out of memory, or a fault that the desk counted. After an error nothing was appended, or
/// the front of a proof of this run up to one of its configurations.
pub fn proved_lines_of_run<'p, D: Desk>(
    alloc: Global,
    desk: &mut D,
    engine: &Engine<'p>,
    accepted: &'p Accepted,
    bounds: Bounds,
    stuck: bool,
    hints: &mut Hints,
) -> Result<Proved, DeskFault>
    requires file { IsTrue (D.created desk.old) }
    requires runnable { IsRunnable accepted.now }
    requires program { engine.now ≡ accepted.now.program }
    ensures run { IfOk result (λ r. HasLines bounds
        (theory_of accepted.now.program) (plain_pattern accepted.now.start) (plain_run r.end)
        r.lines.items) }
    ensures hints { IfOk result (λ r. AddsHintTextOf (theory_of accepted.now.program) bounds.calls
        (plain_pattern accepted.now.start) (plain_run r.end) hints.old hints.new) }
    ensures proof { IfOk result (λ r. PutsProof
        (D.state desk.old).told (D.state desk.new).told
        (theory_of accepted.now.program) (plain_pattern accepted.now.start) (plain_run r.end)
        r.summary r.shown) }
    ensures shown { IfOk result (λ r. IsShown stuck
        (theory_of accepted.now.program) (plain_run r.end) r.shown) }
    ensures front { OnErr result (PutsFront (D.state desk.old).told (D.state desk.new).told
        (theory_of accepted.now.program) bounds.limit bounds.calls
        (plain_pattern accepted.now.start)) }
    ensures files { KeepsOthersNow (D.state desk.old).told (D.state desk.new).told }
    ensures created { IsFalse (D.created desk.new) }
    ensures failed { IsErrOf result DeskFault.Failed
        → CountRose (D.state desk.old).write_faults (D.state desk.new).write_faults }
    ensures counts { (D.state desk.old).write_faults ≤ (D.state desk.new).write_faults }
    ensures reads { (D.state desk.new).read_faults ≡ (D.state desk.old).read_faults }
{
    shown_laws();
    let start = &accepted.start;
    let Bounds { limit, calls } = bounds;
    let (proved, summary) = proved_run(alloc, desk, engine, start, limit, calls, stuck, hints)?;
    let ProvedEnd { end, shown } = proved;
    let lines = run_lines(alloc, &accepted.program.sig, start, &end)?;
    Ok(Proved {
        end,
        lines,
        shown,
        summary,
    })
}
