// A run that is proved step by step.
ghost use Rattle.std.specs.Prelude.{◌≡◌, ◌≤◌, ℕ, [], IsTrue, IsFalse, IfOk, OnOk, OnErr};
ghost use Rattle.std.specs.Prelude.{IsErrOf, None};
ghost use Rattle.term_core.specs.RulePatterns.{plain_pattern};
ghost use Rattle.rule_core.specs.BoundVariables.{HasBoundVariables};
ghost use Rattle.rule_core.specs.ProgramView.{theory_of};
ghost use Rattle.rule_core.specs.Records.{Records, result_of};
ghost use Rattle.rule_core.specs.RecordView.{plain_record};
ghost use Rattle.rule_core.specs.Runs.{IsRunOf, Reaches};
ghost use Rattle.rule_core.specs.WellSorted.{IsStart};
ghost use Rattle.rewriter.specs.Configurations.{IsConfiguration};
ghost use Rattle.desk_io.specs.Counts.{CountRose};
ghost use Rattle.proof_writer.specs.PlainNames.{HasPlainNames};
ghost use Rattle.hint_file.specs.RunTexts.{AddsHintTextOf};
ghost use Rattle.run_loop.specs.RunEnds.{plain_run, IsSortedEnd};
ghost use Rattle.prove_run.specs.WrittenProofs.{WritesFrontOfProof};
ghost use Rattle.run_proof.specs.OpenProofs.{CanProveRun, WritesFrontOfRun, WritesProof};
ghost use Rattle.run_proof.specs.ClosedProofs.{KeepsOthersNow, PutsFront, PutsProof};
ghost use Rattle.run_proof.specs.RunHints.{AddsStepsOf};
ghost use Rattle.run_proof.specs.StuckRuns.{IsShown};

use crate::ends::ProvedEnd;
use crate::shown::shown_end;
use crate::steps::proved_steps;
use desk_io::{Desk, DeskFault};
use fun_eval::{Engine, EvalEnd};
use hint_file::Hints;
use kore_show::shown_laws;
use prove_run::{Proof, ProveEnd, Summary};
use rewriter::Run;
use rule_core::{Blocked, EvalRecord};
use run_loop::RunEnd;
use std::alloc::Global;
use term_core::RulePat;

/// The run of an initial term, with at most `limit` steps and `calls` calls of functions, and the
/// counts of its proof. The proof is a Metamath database that justifies the run, from the initial
/// term to what it keeps, by compressed proofs. It is appended to the desk's created file during
/// the run, step by step. If `stuck` is set, the run is stuck and no constructor is AC, the proof
/// also has a theorem for each rule: that its last configuration does not meet it. The file is
/// closed at the end, even after an error. If hints are wanted, they get the hint text of the run.
///
/// Errors: out of memory, or a fault that the desk counted. After an error nothing was appended, or
/// the front of a proof of this run up to one of its configurations.
///
/// The text of a step grows with the configurations that it names, at most with the square of their
/// sizes, and with the calls of functions that it makes. Memory holds the text of one step, and the
/// records of what the step evaluated. If hints are wanted, it holds their text too. If `stuck` is
/// set, it holds the text of the theorems on all rules.
pub fn proved_run<'p, D: Desk>(
    alloc: Global,
    desk: &mut D,
    engine: &Engine<'p>,
    start: &'p RulePat,
    limit: u32,
    calls: u32,
    stuck: bool,
    hints: &mut Hints,
) -> Result<(ProvedEnd, Summary), DeskFault>
    requires file { IsTrue (D.created desk.old) }
    requires start { IsStart (theory_of engine.now) (plain_pattern start.now) }
    requires bound { HasBoundVariables engine.now }
    requires names { HasPlainNames engine.now.sig }
    ensures run { IfOk result
        (λ r.
        IsRunOf (theory_of engine.now) limit calls (plain_pattern start.now) (plain_run r.0.end)) }
    ensures sorted { IfOk result (λ r. IsSortedEnd (theory_of engine.now) (plain_run r.0.end)) }
    ensures hints { IfOk result (λ r. AddsHintTextOf (theory_of engine.now) calls
        (plain_pattern start.now) (plain_run r.0.end) hints.old hints.new) }
    ensures justified { IfOk result (λ r. PutsProof
        (D.state desk.old).told (D.state desk.new).told
        (theory_of engine.now) (plain_pattern start.now) (plain_run r.0.end) r.1 r.0.shown) }
    ensures shown { IfOk result
        (λ r. IsShown stuck (theory_of engine.now) (plain_run r.0.end) r.0.shown) }
    ensures front { OnErr result (PutsFront (D.state desk.old).told (D.state desk.new).told
        (theory_of engine.now) limit calls (plain_pattern start.now)) }
    ensures files { KeepsOthersNow (D.state desk.old).told (D.state desk.new).told }
    ensures created { IsFalse (D.created desk.new) }
    ensures failed { IsErrOf result DeskFault.Failed
        → CountRose (D.state desk.old).write_faults (D.state desk.new).write_faults }
    ensures counts { (D.state desk.old).write_faults ≤ (D.state desk.new).write_faults }
    ensures no_fault { OnOk result
        ((D.state desk.new).write_faults ≡ (D.state desk.old).write_faults) }
    ensures reads { (D.state desk.new).read_faults ≡ (D.state desk.old).read_faults }
{
    match run_with_proof(alloc, desk, engine, start, limit, calls, stuck, hints) {
        Ok((end, proof)) => match proof.close(desk) {
            Ok(summary) => Ok((end, summary)),
            Err(why) => Err(DeskFault::from(why)),
        },
        Err(why) => {
            let _closed = desk.close_file();
            Err(DeskFault::from(why))
        }
    }
}

/// The run as in `proved_run`, and its proof, of which all is written. The file is not closed, so
/// that lemmas can be added.
///
/// Errors: out of memory, or a fault that the desk counted. Then nothing was appended, or the front
/// of a proof of this run up to one of its configurations.
pub fn run_with_proof<'p, D: Desk>(
    alloc: Global,
    desk: &mut D,
    engine: &Engine<'p>,
    start: &'p RulePat,
    limit: u32,
    calls: u32,
    stuck: bool,
    hints: &mut Hints,
) -> Result<(ProvedEnd, Proof<'p>), ProveEnd>
    requires file { IsTrue (D.created desk.old) }
    requires ready { CanProveRun engine.now (plain_pattern start.now) }
    ensures run { IfOk result
        (λ r.
        IsRunOf (theory_of engine.now) limit calls (plain_pattern start.now) (plain_run r.0.end)) }
    ensures sorted { IfOk result (λ r. IsSortedEnd (theory_of engine.now) (plain_run r.0.end)) }
    ensures hints { IfOk result (λ r. AddsHintTextOf (theory_of engine.now) calls
        (plain_pattern start.now) (plain_run r.0.end) hints.old hints.new) }
    ensures proved { IfOk result (λ r. WritesProof
        (D.state desk.old).told (D.state desk.new).told
        (theory_of engine.now) (plain_pattern start.now) (plain_run r.0.end) r.0.shown r.1) }
    ensures shown { IfOk result
        (λ r. IsShown stuck (theory_of engine.now) (plain_run r.0.end) r.0.shown) }
    ensures program { IfOk result (λ r. r.1.program ≡ engine.now) }
    ensures front { OnErr result (WritesFrontOfRun (D.state desk.old).told (D.state desk.new).told
        (theory_of engine.now) limit calls (plain_pattern start.now)) }
    ensures created { IsTrue (D.created desk.new) }
    ensures failed { IsErrOf result ProveEnd.Failed
        → CountRose (D.state desk.old).write_faults (D.state desk.new).write_faults }
    ensures counts { (D.state desk.old).write_faults ≤ (D.state desk.new).write_faults }
    ensures no_fault { OnOk result
        ((D.state desk.new).write_faults ≡ (D.state desk.old).write_faults) }
    ensures reads { (D.state desk.new).read_faults ≡ (D.state desk.old).read_faults }
{
    shown_laws();
    hints.start(alloc, engine.program(), start)?;
    match Run::new(alloc, engine, start, calls) {
        Ok((run, evaluation)) => {
            started(
                alloc,
                desk,
                engine,
                start,
                limit,
                stuck,
                run,
                &evaluation,
                hints,
            )
        }
        Err(EvalEnd::Blocked(why)) => unstarted(alloc, desk, engine, start, why),
        Err(EvalEnd::Memory) => Err(ProveEnd::Memory),
    }
}

// The run from the value of its initial term on, and its proof.
fn started<'p, D: Desk>(
    alloc: Global,
    desk: &mut D,
    engine: &Engine<'p>,
    start: &'p RulePat,
    limit: u32,
    stuck: bool,
    run: Run,
    evaluation: &EvalRecord,
    hints: &mut Hints,
) -> Result<(ProvedEnd, Proof<'p>), ProveEnd>
    requires file { IsTrue (D.created desk.old) }
    requires ready { CanProveRun engine.now (plain_pattern start.now) }
    requires recorded { Records (theory_of engine.now) [] (plain_pattern start.now)
        (plain_record evaluation.now) }
    requires value { result_of (plain_record evaluation.now) ≡ run.config }
    requires sorted { IsConfiguration (theory_of engine.now) run.config }
    ensures run { IfOk result (λ r. (calls : ℕ) →
        Reaches (theory_of engine.now) (plain_pattern start.now) calls 0 run.config run.calls →
        IsRunOf (theory_of engine.now) limit calls (plain_pattern start.now) (plain_run r.0.end)) }
    ensures sorted { IfOk result (λ r. IsSortedEnd (theory_of engine.now) (plain_run r.0.end)) }
    ensures hints { IfOk result (λ r. (calls : ℕ) →
        Reaches (theory_of engine.now) (plain_pattern start.now) calls 0 run.config run.calls →
        AddsStepsOf (theory_of engine.now) calls (plain_pattern start.now) (plain_run r.0.end)
        hints.old hints.new) }
    ensures proved { IfOk result (λ r. WritesProof
        (D.state desk.old).told (D.state desk.new).told
        (theory_of engine.now) (plain_pattern start.now) (plain_run r.0.end) r.0.shown r.1) }
    ensures shown { IfOk result
        (λ r. IsShown stuck (theory_of engine.now) (plain_run r.0.end) r.0.shown) }
    ensures program { IfOk result (λ r. r.1.program ≡ engine.now) }
    ensures front { OnErr result ((calls : ℕ) →
        Reaches (theory_of engine.now) (plain_pattern start.now) calls 0 run.config run.calls →
        WritesFrontOfRun (D.state desk.old).told (D.state desk.new).told
        (theory_of engine.now) limit calls (plain_pattern start.now)) }
    ensures created { IsTrue (D.created desk.new) }
    ensures failed { IsErrOf result ProveEnd.Failed
        → CountRose (D.state desk.old).write_faults (D.state desk.new).write_faults }
    ensures counts { (D.state desk.old).write_faults ≤ (D.state desk.new).write_faults }
    ensures no_fault { OnOk result
        ((D.state desk.new).write_faults ≡ (D.state desk.old).write_faults) }
    ensures reads { (D.state desk.new).read_faults ≡ (D.state desk.old).read_faults }
{
    let mut run = run;
    let mut proof = Proof::begin(alloc, engine.program(), start, Some(evaluation), desk)?;
    match proved_steps(alloc, desk, engine, limit, &mut run, &mut proof, hints) {
        Ok(end) => shown_end(alloc, desk, engine, stuck, &run, proof, end),
        Err(why) => Err(why),
    }
}

// The run of a term that has no value, and its proof.
fn unstarted<'p, D: Desk>(
    alloc: Global,
    desk: &mut D,
    engine: &Engine<'p>,
    start: &'p RulePat,
    why: Blocked,
) -> Result<(ProvedEnd, Proof<'p>), ProveEnd>
    requires file { IsTrue (D.created desk.old) }
    requires ready { CanProveRun engine.now (plain_pattern start.now) }
    ensures end { IfOk result (λ r. r.0.end ≡ RunEnd.Unstarted why) }
    ensures none { IfOk result (λ r. r.0.shown ≡ None) }
    ensures proved { IfOk result (λ r. WritesProof
        (D.state desk.old).told (D.state desk.new).told
        (theory_of engine.now) (plain_pattern start.now) (plain_run r.0.end) r.0.shown r.1) }
    ensures program { IfOk result (λ r. r.1.program ≡ engine.now) }
    ensures front { OnErr result (WritesFrontOfProof (D.state desk.old).told (D.state desk.new).told
        (theory_of engine.now) (plain_pattern start.now) (plain_pattern start.now)) }
    ensures created { IsTrue (D.created desk.new) }
    ensures failed { IsErrOf result ProveEnd.Failed
        → CountRose (D.state desk.old).write_faults (D.state desk.new).write_faults }
    ensures counts { (D.state desk.old).write_faults ≤ (D.state desk.new).write_faults }
    ensures no_fault { OnOk result
        ((D.state desk.new).write_faults ≡ (D.state desk.old).write_faults) }
    ensures reads { (D.state desk.new).read_faults ≡ (D.state desk.old).read_faults }
{
    match Proof::begin(alloc, engine.program(), start, None, desk) {
        Ok(proof) => {
            let end = RunEnd::Unstarted(why);
            Ok((ProvedEnd { end, shown: None }, proof))
        }
        Err(end) => Err(end),
    }
}
