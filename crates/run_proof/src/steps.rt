// The steps of a run, each with its proof.
ghost use Rattle.std.specs.Prelude.{◌≡◌, ◌≤◌, ℕ, IsTrue, IfOk, OnOk, OnErr, IsErrOf};
ghost use Rattle.term_core.specs.Patterns.{Pattern};
ghost use Rattle.term_core.specs.RulePatterns.{plain_pattern};
ghost use Rattle.rule_core.specs.ProgramView.{theory_of};
ghost use Rattle.rule_core.specs.Runs.{IsRunOf, Reaches, kept_by};
ghost use Rattle.rule_core.specs.RunCuts.{MayEndAt};
ghost use Rattle.run_proof.specs.ClosedProofs.{steps_of};
ghost use Rattle.match_tree.specs.Programs.{IsRuleTree};
ghost use Rattle.match_tree.specs.SlotView.{HasRoom};
ghost use Rattle.desk_io.specs.Counts.{CountRose};
ghost use Rattle.run_loop.specs.RunEnds.{plain_run, IsSortedEnd};
ghost use Rattle.prove_run.specs.RunProof.{reached};
ghost use Rattle.prove_run.specs.WrittenProofs.{WritesFrontAfter};
ghost use Rattle.run_proof.specs.ProvedSteps.{EndsNext, GoesOn, IsProvedAt, Progresses};
ghost use Rattle.run_proof.specs.RunHints.{AddsLineOf, AddsStepsOf};
ghost use Rattle.run_proof.specs.StuckEnds.{IsStuckAt};

use desk_io::Desk;
use fun_eval::Engine;
use hint_file::{Hints, hint_laws};
use kore_show::shown_laws;
use match_tree::{Slots, Tree};
use prove_run::{Proof, ProveEnd};
use rewriter::{Next, Run};
use rule_core::Blocked;
use run_loop::RunEnd;
use std::alloc::Global;
use term_core::Term;

/// What a step of a run comes to. If no step is made, the last configuration is returned.
#[derive(Drop)]
pub(crate) enum Progress {
    /// The step was made.
    Made,
    /// No rule applies.
    Stuck(Term),
    /// The next step is blocked.
    Blocked(Blocked, Term),
}

/// The steps of a run, at most `limit` of them, and their proof. If hints are wanted, they get the
/// lines of the steps. Returns how the run ends. The rules' tree is made once.
///
/// Errors: out of memory, or a fault that the desk counted.
pub(crate) fn proved_steps<'p, D: Desk>(
    alloc: Global,
    desk: &mut D,
    engine: &Engine<'p>,
    limit: u32,
    run: &mut Run,
    proof: &mut Proof<'p>,
    hints: &mut Hints,
) -> Result<RunEnd, ProveEnd>
    requires file { IsTrue (D.created desk.old) }
    requires at { IsProvedAt engine.now run.old proof.old }
    requires none_made { proof.old.steps ≡ 0 }
    ensures goes { OnOk result
        (GoesOn (D.state desk.old).told (D.state desk.new).told proof.old proof.new) }
    ensures reached { IfOk result (λ end.
        reached proof.new ≡ kept_by (plain_pattern proof.new.start) (plain_run end)) }
    ensures made { IfOk result (λ end. proof.new.steps ≡ steps_of (plain_run end)) }
    ensures at { OnOk result (IsProvedAt engine.now run.new proof.new) }
    ensures stuck { IfOk result (λ end. IsStuckAt engine.now run.new (plain_run end)) }
    ensures run { IfOk result (λ end. (start : Pattern) (calls : ℕ) →
        Reaches (theory_of engine.now) start calls 0 run.old.config run.old.calls →
        IsRunOf (theory_of engine.now) limit calls start (plain_run end)) }
    ensures sorted { IfOk result (λ end. IsSortedEnd (theory_of engine.now) (plain_run end)) }
    ensures hints { IfOk result (λ end. (start : Pattern) (calls : ℕ) →
        Reaches (theory_of engine.now) start calls 0 run.old.config run.old.calls →
        AddsStepsOf (theory_of engine.now) calls start (plain_run end) hints.old hints.new) }
    ensures front { OnErr result ((start : Pattern) (calls : ℕ) →
        Reaches (theory_of engine.now) start calls 0 run.old.config run.old.calls →
        WritesFrontAfter (D.state desk.old).told (D.state desk.new).told proof.old
        (MayEndAt (theory_of engine.now) limit calls start)) }
    ensures created { IsTrue (D.created desk.new) }
    ensures failed { IsErrOf result ProveEnd.Failed
        → CountRose (D.state desk.old).write_faults (D.state desk.new).write_faults }
    ensures counts { (D.state desk.old).write_faults ≤ (D.state desk.new).write_faults }
    ensures no_fault { OnOk result
        ((D.state desk.new).write_faults ≡ (D.state desk.old).write_faults) }
    ensures reads { (D.state desk.new).read_faults ≡ (D.state desk.old).read_faults }
{
    hint_laws();
    let tree = engine.rule_tree(alloc)?;
    let mut slots = Slots::for_tree(alloc, &tree)?;
    for made in 0..limit {
        match proved_step(alloc, desk, engine, &tree, &mut slots, run, proof, hints)? {
            Progress::Made => {}
            Progress::Stuck(last) => return Ok(RunEnd::Stuck(made, last)),
            Progress::Blocked(why, last) => return Ok(RunEnd::Blocked(made, why, last)),
        }
    }
    Ok(RunEnd::Limit(limit, run.config().share()?))
}

// The next step of a run, its proof and its line of the hints, if they are wanted. The errors are
// the ones of `proved_steps`.
fn proved_step<'p, D: Desk>(
    alloc: Global,
    desk: &mut D,
    engine: &Engine<'p>,
    tree: &Tree<'_>,
    slots: &mut Slots,
    run: &mut Run,
    proof: &mut Proof<'p>,
    hints: &mut Hints,
) -> Result<Progress, ProveEnd>
    requires file { IsTrue (D.created desk.old) }
    requires at { IsProvedAt engine.now run.old proof.old }
    requires tree { IsRuleTree (theory_of engine.now) tree.now }
    requires room { HasRoom tree.now slots.old }
    ensures goes { OnOk result
        (GoesOn (D.state desk.old).told (D.state desk.new).told proof.old proof.new) }
    ensures room { HasRoom tree.now slots.new }
    ensures at { OnOk result (IsProvedAt engine.now run.new proof.new) }
    ensures progress { IfOk result
        (Progresses engine.now run.old run.new proof.old proof.new) }
    ensures hints { IfOk result
        (AddsLineOf (theory_of engine.now) run.old run.new hints.old hints.new) }
    ensures front { OnErr result
        (WritesFrontAfter (D.state desk.old).told (D.state desk.new).told proof.old
        (EndsNext engine.now run.old)) }
    ensures created { IsTrue (D.created desk.new) }
    ensures failed { IsErrOf result ProveEnd.Failed
        → CountRose (D.state desk.old).write_faults (D.state desk.new).write_faults }
    ensures counts { (D.state desk.old).write_faults ≤ (D.state desk.new).write_faults }
    ensures no_fault { OnOk result
        ((D.state desk.new).write_faults ≡ (D.state desk.old).write_faults) }
    ensures reads { (D.state desk.new).read_faults ≡ (D.state desk.old).read_faults }
{
    shown_laws();
    let _high = run.config().height();
    match run.step(alloc, engine, tree, slots)? {
        Next::Made(step) => match proof.step(alloc, desk, &step) {
            Ok(()) => {
                hints.push(alloc, engine.program(), step.rule, run.config())?;
                Ok(Progress::Made)
            }
            Err(why) => Err(why),
        },
        Next::Stuck => Ok(Progress::Stuck(run.config().share()?)),
        Next::Blocked(why) => Ok(Progress::Blocked(why, run.config().share()?)),
    }
}
