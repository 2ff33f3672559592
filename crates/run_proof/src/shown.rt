// The end of a run that is stuck: its proof shows that no rule applies.
ghost use Rattle.std.specs.Prelude.{◌≡◌, ◌≤◌, ◌↔◌, IsTrue, IfOk, OnOk, OnErr, IsErrOf};
ghost use Rattle.rule_core.specs.AcSymbols.{IsAcFree};
ghost use Rattle.rule_core.specs.BoundVariables.{HasBoundVariables};
ghost use Rattle.rule_core.specs.ProgramView.{theory_of};
ghost use Rattle.rule_core.specs.Runs.{Steps, stays};
ghost use Rattle.desk_io.specs.Counts.{CountRose};
ghost use Rattle.proof_writer.specs.PlainNames.{HasPlainNames};
ghost use Rattle.prove_run.specs.AddedLemmas.{EndsHere};
ghost use Rattle.prove_run.specs.WrittenProofs.{WritesFrontAfter};
ghost use Rattle.run_loop.specs.RunEnds.{plain_run};
ghost use Rattle.run_proof.specs.ProvedSteps.{IsProvedAt};
ghost use Rattle.run_proof.specs.ShownRules.{Shows, ShowsNoneMet};
ghost use Rattle.run_proof.specs.StuckEnds.{AddsSaying, IsStuckAt};
ghost use Rattle.run_proof.specs.StuckRuns.{CanShow, IsShown};

use crate::ends::ProvedEnd;
use desk_io::Desk;
use fun_eval::Engine;
use mm_justify::{image_laws, stating_laws};
use prove_run::{Proof, ProveEnd};
use rewriter::Run;
use rule_core::Program;
use run_loop::RunEnd;
use std::alloc::Global;

/// Shows in the proof of a run that no rule applies at its end, if that is wanted and can be shown.
/// Returns how the run ends, how many rules are shown unmet, and the proof.
///
/// Errors: out of memory, or a fault that the desk counted. Then the front of the text of the
/// theorems, or nothing, was appended.
pub(crate) fn shown_end<'p, D: Desk>(
    alloc: Global,
    desk: &mut D,
    engine: &Engine<'p>,
    stuck: bool,
    run: &Run,
    proof: Proof<'p>,
    end: RunEnd,
) -> Result<(ProvedEnd, Proof<'p>), ProveEnd>
    requires file { IsTrue (D.created desk.old) }
    requires bound { HasBoundVariables engine.now }
    requires names { HasPlainNames engine.now.sig }
    requires at { IsProvedAt engine.now run.now proof }
    requires stuck { IsStuckAt engine.now run.now (plain_run end) }
    ensures same { IfOk result (λ r. r.0.end ≡ end) }
    ensures shown { IfOk result
        (λ r. IsShown stuck (theory_of engine.now) (plain_run end) r.0.shown) }
    ensures adds { IfOk result (λ r. AddsSaying
        (λ text. Shows text (theory_of engine.now) (plain_run end) r.0.shown)
        (D.state desk.old).told (D.state desk.new).told proof.entry r.1) }
    ensures front { OnErr result (WritesFrontAfter
        (D.state desk.old).told (D.state desk.new).told proof.entry (EndsHere proof.entry)) }
    ensures created { IsTrue (D.created desk.new) }
    ensures failed { IsErrOf result ProveEnd.Failed
        → CountRose (D.state desk.old).write_faults (D.state desk.new).write_faults }
    ensures counts { (D.state desk.old).write_faults ≤ (D.state desk.new).write_faults }
    ensures no_fault { OnOk result
        ((D.state desk.new).write_faults ≡ (D.state desk.old).write_faults) }
    ensures reads { (D.state desk.new).read_faults ≡ (D.state desk.old).read_faults }
{
    if !stuck || !can_show(engine.program(), &end) {
        return Ok((ProvedEnd { end, shown: None }, proof));
    }
    let rules = engine.program().rules.len();
    match show_stuck(alloc, desk, engine, run, proof) {
        Ok(proof) => {
            let shown = Some(rules);
            Ok((ProvedEnd { end, shown }, proof))
        }
        Err(why) => Err(why),
    }
}

// Whether it can be shown that no rule applies at the end of a run.
fn can_show(program: &Program, end: &RunEnd) -> bool
    ensures { IsTrue result ↔ CanShow (theory_of program.now) (plain_run end.now) }
{
    match end {
        RunEnd::Stuck(..) => program.sig.ac_free(),
        RunEnd::Limit(..) | RunEnd::Blocked(..) | RunEnd::Unstarted(_) => false,
    }
}

// Adds to the proof a theorem for each rule, that the configuration of the stuck run does not meet
// it. The errors are the ones of `shown_end`.
fn show_stuck<'p, D: Desk>(
    alloc: Global,
    desk: &mut D,
    engine: &Engine<'p>,
    run: &Run,
    proof: Proof<'p>,
) -> Result<Proof<'p>, ProveEnd>
    requires file { IsTrue (D.created desk.old) }
    requires bound { HasBoundVariables engine.now }
    requires names { HasPlainNames engine.now.sig }
    requires no_ac { IsAcFree engine.now.sig }
    requires at { IsProvedAt engine.now run.now proof }
    requires stuck { Steps (theory_of engine.now) run.now.config run.now.calls stays }
    ensures adds { IfOk result (AddsSaying
        (λ text. ShowsNoneMet text (theory_of engine.now) run.now.config)
        (D.state desk.old).told (D.state desk.new).told proof.entry) }
    ensures front { OnErr result (WritesFrontAfter
        (D.state desk.old).told (D.state desk.new).told proof.entry (EndsHere proof.entry)) }
    ensures created { IsTrue (D.created desk.new) }
    ensures failed { IsErrOf result ProveEnd.Failed
        → CountRose (D.state desk.old).write_faults (D.state desk.new).write_faults }
    ensures counts { (D.state desk.old).write_faults ≤ (D.state desk.new).write_faults }
    ensures no_fault { OnOk result
        ((D.state desk.new).write_faults ≡ (D.state desk.old).write_faults) }
    ensures reads { (D.state desk.new).read_faults ≡ (D.state desk.old).read_faults }
{
    image_laws();
    stating_laws();
    let (mut prover, rest) = proof.part();
    let shown = prover.not_met(alloc, engine, run)?;
    let cx = prover.cx();
    cx.law();
    cx.names().tokens_differ();
    let mut proof = rest.join(prover);
    match proof.add_lemmas(alloc, desk, &shown) {
        Ok(()) => Ok(proof),
        Err(why) => Err(why),
    }
}
