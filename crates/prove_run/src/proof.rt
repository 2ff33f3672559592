// A proof of a run, step by step.
ghost use Rattle.std.specs.Prelude.{◌≡◌, ◌≤◌, ℕ, List, [], All, Contains, IfOk, IfSome};
ghost use Rattle.std.specs.Prelude.{IsErrOf, IsFalse, IsTrue, OnErr, OnOk, option_copied};
ghost use Rattle.desk_io.specs.Changes.{Closes};
ghost use Rattle.desk_io.specs.Counts.{CountRose};
ghost use Rattle.term_core.specs.RulePatterns.{plain_pattern};
ghost use Rattle.rule_core.specs.BoundVariables.{HasBoundVariables};
ghost use Rattle.rule_core.specs.ProgramView.{theory_of};
ghost use Rattle.rule_core.specs.Records.{Records, result_of};
ghost use Rattle.rule_core.specs.RecordView.{plain_record, plain_step};
ghost use Rattle.rule_core.specs.WellSorted.{IsStart, IsWellSorted};
ghost use Rattle.mm_claims.specs.Rendered.{all_stated};
ghost use Rattle.mm_claims.specs.Places.{IsStated};
ghost use Rattle.prove_term.specs.Contexts.{HasGrown, StaysIn};
ghost use Rattle.proof_writer.specs.PlainNames.{HasPlainNames};
ghost use Rattle.proof_writer.specs.Writing.{Adds, Concludes, HasWritten, HasWrittenAll, Keeps};
ghost use Rattle.proof_writer.specs.Writing.{MayFollow};
ghost use Rattle.proof_writer.specs.StatedTheorems.{StatesNewLemmas};
ghost use Rattle.prove_run.specs.AddedLemmas.{AddsLemmas, EndsHere, WritesLemmas, with_lemmas};
ghost use Rattle.prove_run.specs.Proving.{Begins, CanStep, FitsProof, StepsTo, value_told};
ghost use Rattle.prove_run.specs.ReachLemma.{IsReachLemma};
ghost use Rattle.prove_run.specs.RunProof.{configuration, proof_context, with_context};
ghost use Rattle.prove_run.specs.Summaries.{summary_of};
ghost use Rattle.prove_run.specs.WrittenProofs.{EndsStep, JustifiesFirst, JustifiesFurther};
ghost use Rattle.prove_run.specs.WrittenProofs.{WritesBeginning};
ghost use Rattle.prove_run.specs.WrittenProofs.{WritesFrontAfter, WritesFrontOfProof, WritesStep};

use crate::again::once_more;
use crate::ends::ProveEnd;
use crate::further::reach_lemma;
use crate::going::goes_further;
use crate::starting::start_reaches;
use crate::summaries::Summary;
use crate::writing::{close_text, write_text};
use desk_io::Desk;
use ml_kernel::{Lemma, Thm};
use mm_justify::image_laws;
use proof_writer::{ProofParts, Writer};
use prove_step::Prover;
use rule_core::{EvalRecord, Program, StepRecord};
use std::alloc::{AllocError, Global};
use std::marker::Model;
use std::snapshot::Snapshot;
use term_core::{RulePat, Term};

/// A proof that the start of a run reaches the present configuration. Contracts see the start, the
/// configuration, the program, the names, what is kept of the text, its counts, and whether a call
/// has answered an error.
pub struct Proof<'p> {
    prover: Prover<'p>,
    writer: Writer,
    start: &'p RulePat,
    // The present configuration, if the start has a value.
    reached: Option<Term>,
    // The theorem that the start reaches it.
    last: Lemma,
    // The lemma by which the run goes one step further.
    reach: Lemma,
    // How many steps were made, and how many bytes the text has, or 2^64 - 1 if there are more.
    steps: u64,
    bytes: u64,
    // Whether a call has answered an error.
    failed: bool,
}

// A proof is dropped by one call, and not field by field at each end of each call that owns one.
impl Drop for Proof<'_> {
    fn drop(self) {
        let Proof {
            prover: _,
            writer: _,
            start: _,
            reached: _,
            last: _,
            reach: _,
            steps: _,
            bytes: _,
            failed: _,
        } = self;
    }
}

impl<'p> Model for Proof<'p> {
    ghost use Rattle.std.specs.Coded.{codes};
    ghost use Rattle.prove_run.specs.RunProof.{RunProof};
    ghost use Rattle.term_core.specs.TermCode.{tree_code};
    ghost use Rattle.term_core.specs.contracts.rule_patterns.RulePat as rule_pattern;
    ghost use Rattle.ml_pat.specs.PatternCode.{pattern_code};
    ghost use Rattle.ml_kernel.specs.TheoremCode.{theorem_code};
    ghost use Rattle.mm_render.specs.KeptCode.{kept_code};

    ghost Value = { RunProof };

    ghost coded = { Prim.hlevel (
      codes,
      rule_pattern.the_row.coded,
      tree_code,
      pattern_code,
      theorem_code,
      kept_code,
    ) };

    ghost use Rattle.prove_run.specs.ProofView.{run_proof, IsProofOrFailed};

    ghost view = { run_proof };

    ghost invariant = { IsProofOrFailed };
}

impl<'p> Proof<'p> {
    /// Begins the proof of a run with no steps: the start reaches its value, by the record of its
    /// evaluation. If there is no record, the start reaches itself. The text of the proof is
    /// appended to the created file. If that file was empty, it now justifies the run up to there.
    ///
    /// Errors: out of memory, or a fault that the desk counted. Then the front of a proof of a run
    /// from the start to its value, or nothing, was appended.
    pub fn begin<D: Desk>(
        alloc: Global,
        program: &'p Program,
        start: &'p RulePat,
        value: Option<&EvalRecord>,
        desk: &mut D,
    ) -> Result<Proof<'p>, ProveEnd>
        requires file { IsTrue (D.created desk.old) }
        requires names { HasPlainNames program.now.sig }
        requires well_sorted { IsWellSorted (theory_of program.now) }
        requires bound { HasBoundVariables program.now }
        requires start { IsStart (theory_of program.now) (plain_pattern start.now) }
        requires value { IfSome value
            (λ r.
            Records (theory_of program.now) [] (plain_pattern start.now) (plain_record r.now)) }
        ensures begins { IfOk result
            (λ proof. WritesBeginning (D.state desk.old).told (D.state desk.new).told program.now
            start.now (value_told (option_copied value.entry)) proof) }
        ensures justifies { IfOk result
            (JustifiesFirst (D.state desk.old).told (D.state desk.new).told) }
        ensures front { OnErr result
            (WritesFrontOfProof (D.state desk.old).told (D.state desk.new).told
            (theory_of program.now) (plain_pattern start.now)
            (configuration (plain_pattern start.now) (value_told (option_copied value.entry)))) }
        ensures created { IsTrue (D.created desk.new) }
        ensures failed { IsErrOf result ProveEnd.Failed
            → CountRose (D.state desk.old).write_faults (D.state desk.new).write_faults }
        ensures counts { (D.state desk.old).write_faults ≤ (D.state desk.new).write_faults }
        ensures no_fault { OnOk result
            ((D.state desk.new).write_faults ≡ (D.state desk.old).write_faults) }
        ensures reads { (D.state desk.new).read_faults ≡ (D.state desk.old).read_faults }
    {
        let mut text = Vec::new(alloc);
        let proof = Proof::begun(alloc, program, start, value, &mut text)?;
        match write_text(desk, &text) {
            Ok(()) => Ok(proof),
            Err(end) => Err(end),
        }
    }

    // Begins the proof, and appends its text to the empty buffer. The error: out of memory.
    fn begun(
        alloc: Global,
        program: &'p Program,
        start: &'p RulePat,
        value: Option<&EvalRecord>,
        to: &mut Vec<u8>,
    ) -> Result<Proof<'p>, AllocError>
        requires none { to.old.items ≡ [] }
        requires names { HasPlainNames program.now.sig }
        requires well_sorted { IsWellSorted (theory_of program.now) }
        requires bound { HasBoundVariables program.now }
        requires start { IsStart (theory_of program.now) (plain_pattern start.now) }
        requires value { IfSome value
            (λ r.
            Records (theory_of program.now) [] (plain_pattern start.now) (plain_record r.now)) }
        ensures { IfOk result
            (λ proof. Begins program.now start.now (value_told (option_copied value.entry)) proof
            to.new.items) }
    {
        let mut prover = Prover::new(alloc, program)?;
        let mut writer = Writer::begin(alloc, program, to)?;
        let reach = keep_reach_lemma(alloc, &mut prover)?;
        let first = start_reaches(alloc, &mut prover, start, value)?;
        let last = state(&prover, &mut writer, first, to)?;
        let reached = value_of(value)?;
        Ok(Proof {
            prover,
            writer,
            start,
            reached,
            last,
            reach,
            steps: 0,
            bytes: to.len() as u64,
            failed: false,
        })
    }

    /// Adds one step, by the record of a step from the present configuration. The value of the
    /// rule's right side is the new present configuration. The text of the step is appended to the
    /// created file. If that file had a text that fitted the proof, it has one again: it justifies
    /// the run up to the new configuration, so at each moment between two steps it justifies the
    /// run so far.
    ///
    /// Errors: out of memory, or a fault that the desk counted. Then the front of the text of the
    /// step, or nothing, was appended, and the proof has failed: it takes no further call.
    pub fn step<D: Desk>(
        &mut self,
        alloc: Global,
        desk: &mut D,
        step: &StepRecord,
    ) -> Result<(), ProveEnd>
        requires file { IsTrue (D.created desk.old) }
        requires sound { IsFalse self.old.failed }
        requires applies { CanStep self.old (plain_step step.now) }
        ensures steps { OnOk result
            (WritesStep (D.state desk.old).told (D.state desk.new).told self.old self.new
            (result_of (plain_step step.now).right)) }
        ensures justifies { OnOk result (JustifiesFurther
            (D.state desk.old).told (D.state desk.new).told self.old self.new) }
        ensures front { OnErr result
            (WritesFrontAfter (D.state desk.old).told (D.state desk.new).told self.old
            (EndsStep self.old (result_of (plain_step step.now).right))) }
        ensures over { OnErr result (IsTrue self.new.failed) }
        ensures created { IsTrue (D.created desk.new) }
        ensures failed { IsErrOf result ProveEnd.Failed
            → CountRose (D.state desk.old).write_faults (D.state desk.new).write_faults }
        ensures counts { (D.state desk.old).write_faults ≤ (D.state desk.new).write_faults }
        ensures no_fault { OnOk result
            ((D.state desk.new).write_faults ≡ (D.state desk.old).write_faults) }
        ensures reads { (D.state desk.new).read_faults ≡ (D.state desk.old).read_faults }
    {
        let mut text = Vec::new(alloc);
        self.state_step(alloc, step, &mut text)?;
        match write_text(desk, &text) {
            Ok(()) => Ok(()),
            Err(end) => {
                self.failed = true;
                Err(end)
            }
        }
    }

    // Adds one step, and appends its text to the empty buffer. The error: out of memory.
    fn state_step(
        &mut self,
        alloc: Global,
        step: &StepRecord,
        to: &mut Vec<u8>,
    ) -> Result<(), AllocError>
        requires none { to.old.items ≡ [] }
        requires sound { IsFalse self.old.failed }
        requires applies { CanStep self.old (plain_step step.now) }
        ensures steps { OnOk result (StepsTo self.old self.new
            (result_of (plain_step step.now).right) to.new.items) }
        ensures over { OnErr result (IsTrue self.new.failed) }
    {
        self.failed = true;
        let further = goes_further(alloc, &mut self.prover, &self.last, &self.reach, step)?;
        let last = state(&self.prover, &mut self.writer, further, to)?;
        let made = step.right.result().share()?;
        self.reached = Some(made);
        self.last = last;
        self.steps = self.steps.saturating_add(1);
        self.bytes = self.bytes.saturating_add(to.len() as u64);
        self.failed = false;
        Ok(())
    }

    /// Ends the proof: closes the created file, which keeps its bytes, and returns the counts of
    /// the proof.
    ///
    /// Errors: a fault that the desk counted, or out of memory. No file is created afterwards, even
    /// after an error.
    pub fn close<D: Desk>(self, desk: &mut D) -> Result<Summary, ProveEnd>
        requires file { IsTrue (D.created desk.old) }
        requires sound { IsFalse self.failed }
        ensures summary { IfOk result (λ summary. summary ≡ summary_of self.entry) }
        ensures closes { Closes (D.state desk.old).told (D.state desk.new).told }
        ensures created { IsFalse (D.created desk.new) }
        ensures failed { IsErrOf result ProveEnd.Failed
            → CountRose (D.state desk.old).write_faults (D.state desk.new).write_faults }
        ensures counts { (D.state desk.old).write_faults ≤ (D.state desk.new).write_faults }
        ensures no_fault { OnOk result
            ((D.state desk.new).write_faults ≡ (D.state desk.old).write_faults) }
        ensures reads { (D.state desk.new).read_faults ≡ (D.state desk.old).read_faults }
    {
        let summary = self.summary();
        close_text(desk)?;
        Ok(summary)
    }

    /// Adds theorems as lemmas. They may use only what the context of the proof has, and assume
    /// nothing. To the created file are appended what the context has and the text has not, the
    /// theorems with their proofs, and the theorem of the run once more. If the file had a text that
    /// fitted the proof, it has one again: its last theorem is that of the run.
    ///
    /// Errors: out of memory, or a fault that the desk counted. Then the front of this text, or
    /// nothing, was appended, and the proof has failed: it takes no further call.
    pub fn add_lemmas<D: Desk>(
        &mut self,
        alloc: Global,
        desk: &mut D,
        thms: &[Thm],
    ) -> Result<(), ProveEnd>
        requires file { IsTrue (D.created desk.old) }
        requires sound { IsFalse self.old.failed }
        requires stays { All (StaysIn (proof_context self.old)) thms.now }
        ensures adds { OnOk result (WritesLemmas
            (D.state desk.old).told (D.state desk.new).told self.old self.new thms.now) }
        ensures justifies { OnOk result (JustifiesFurther
            (D.state desk.old).told (D.state desk.new).told self.old self.new) }
        ensures front { OnErr result (WritesFrontAfter
            (D.state desk.old).told (D.state desk.new).told self.old (EndsHere self.old)) }
        ensures over { OnErr result (IsTrue self.new.failed) }
        ensures created { IsTrue (D.created desk.new) }
        ensures failed { IsErrOf result ProveEnd.Failed
            → CountRose (D.state desk.old).write_faults (D.state desk.new).write_faults }
        ensures counts { (D.state desk.old).write_faults ≤ (D.state desk.new).write_faults }
        ensures no_fault { OnOk result
            ((D.state desk.new).write_faults ≡ (D.state desk.old).write_faults) }
        ensures reads { (D.state desk.new).read_faults ≡ (D.state desk.old).read_faults }
    {
        let mut text = Vec::new(alloc);
        self.state_lemmas(alloc, thms, &mut text)?;
        match write_text(desk, &text) {
            Ok(()) => Ok(()),
            Err(end) => {
                self.failed = true;
                Err(end)
            }
        }
    }

    // Adds theorems as lemmas, and appends their text to the empty buffer. The error: out of
    // memory.
    fn state_lemmas(
        &mut self,
        alloc: Global,
        thms: &[Thm],
        to: &mut Vec<u8>,
    ) -> Result<(), AllocError>
        requires none { to.old.items ≡ [] }
        requires sound { IsFalse self.old.failed }
        requires stays { All (StaysIn (proof_context self.old)) thms.now }
        ensures adds { OnOk result (AddsLemmas self.old self.new thms.now to.new.items) }
        ensures over { OnErr result (IsTrue self.new.failed) }
    {
        self.failed = true;
        keep_lemmas(alloc, &mut self.prover, thms)?;
        let again = once_more(alloc, &self.last)?;
        let last = state(&self.prover, &mut self.writer, again, to)?;
        self.last = last;
        self.bytes = self.bytes.saturating_add(to.len() as u64);
        self.failed = false;
        Ok(())
    }

    /// Takes the proof apart: returns its prover and the rest. The prover may be used for further
    /// theorems, and then be joined with the rest.
    pub fn part(self) -> (Prover<'p>, Rest<'p>)
        ensures prover { result.0 ≡ proof_context self.entry }
        ensures rest { result.1 ≡ self.entry }
    {
        let Proof {
            prover,
            writer,
            start,
            reached,
            last,
            reach,
            steps,
            bytes,
            failed,
        } = self;
        let was = Snapshot::of(&prover);
        let rest = Rest {
            was,
            writer,
            start,
            reached,
            last,
            reach,
            steps,
            bytes,
            failed,
        };
        (prover, rest)
    }

    // The counts of the proof so far.
    fn summary(&self) -> Summary
        ensures { result ≡ summary_of self.now }
    {
        Summary {
            steps: self.steps,
            facts: self.writer.facts,
            statements: self.writer.statements,
            bytes: self.bytes,
        }
    }
}

/// A proof without its prover. Contracts see it as the proof that was taken apart.
pub struct Rest<'p> {
    // The prover when the proof was taken apart, for contracts alone.
    was: Snapshot<Prover<'p>>,
    writer: Writer,
    start: &'p RulePat,
    reached: Option<Term>,
    last: Lemma,
    reach: Lemma,
    steps: u64,
    bytes: u64,
    failed: bool,
}

// As that of a proof, its drop is one call.
impl Drop for Rest<'_> {
    fn drop(self) {
        let Rest {
            was: _,
            writer: _,
            start: _,
            reached: _,
            last: _,
            reach: _,
            steps: _,
            bytes: _,
            failed: _,
        } = self;
    }
}

impl<'p> Model for Rest<'p> {
    ghost use Rattle.std.specs.Coded.{codes};
    ghost use Rattle.prove_run.specs.RunProof.{RunProof};
    ghost use Rattle.term_core.specs.TermCode.{tree_code};
    ghost use Rattle.term_core.specs.contracts.rule_patterns.RulePat as rule_pattern;
    ghost use Rattle.ml_pat.specs.PatternCode.{pattern_code};
    ghost use Rattle.ml_kernel.specs.TheoremCode.{theorem_code};
    ghost use Rattle.mm_render.specs.KeptCode.{kept_code};

    ghost Value = { RunProof };

    ghost coded = { Prim.hlevel (
      codes,
      rule_pattern.the_row.coded,
      tree_code,
      pattern_code,
      theorem_code,
      kept_code,
    ) };

    ghost use Rattle.prove_run.specs.RestView.{proof_of_rest, IsRestOrFailed};

    ghost view = { proof_of_rest };

    ghost invariant = { IsRestOrFailed };
}

impl<'p> Rest<'p> {
    /// Puts the proof together again, with a prover that has only grown since. It is the proof that
    /// was taken apart, with the context of this prover. A text that fitted it fits it still.
    pub fn join(self, prover: Prover<'p>) -> Proof<'p>
        requires { HasGrown (proof_context self) prover }
        ensures same { result ≡ with_context self.entry prover.entry }
        ensures fits { IsFalse self.entry.failed → (text : List ℕ) → FitsProof self.entry text →
            FitsProof result text }
    {
        let Rest {
            was: _,
            writer,
            start,
            reached,
            last,
            reach,
            steps,
            bytes,
            failed,
        } = self;
        Proof {
            prover,
            writer,
            start,
            reached,
            last,
            reach,
            steps,
            bytes,
            failed,
        }
    }
}

// Returns the value in a record, if there is a record.
fn value_of(value: Option<&EvalRecord>) -> Result<Option<Term>, AllocError>
    ensures { IfOk result (λ told. told ≡ value_told (option_copied value.entry)) }
{
    match value {
        Some(evaluation) => Ok(Some(evaluation.result().share()?)),
        None => Ok(None),
    }
}

// Makes the lemma by which a run goes further, and keeps it in the context.
fn keep_reach_lemma(alloc: Global, prover: &mut Prover<'_>) -> Result<Lemma, AllocError>
    ensures says { IfOk result IsReachLemma }
    ensures there { IfOk result (Contains prover.new.lemmas) }
    ensures grown { HasGrown prover.old prover.new }
{
    let place = prover.cx().lemmas().len();
    let thm = reach_lemma(alloc)?;
    prover.add_lemma(alloc, thm)?;
    prover.cx().lemmas()[place].share(alloc)
}

// Keeps theorems in the context as its last lemmas.
fn keep_lemmas(alloc: Global, prover: &mut Prover<'_>, thms: &[Thm]) -> Result<(), AllocError>
    requires { All (StaysIn prover.old) thms.now }
    ensures { OnOk result (prover.new ≡ with_lemmas prover.old thms.now) }
{
    for thm in thms {
        let lemma = thm.share(alloc)?;
        prover.add_lemma(alloc, lemma)?;
    }
    Ok(())
}

// Writes what was made, and then a theorem that follows from it.
fn state(
    prover: &Prover<'_>,
    writer: &mut Writer,
    thm: Thm,
    to: &mut Vec<u8>,
) -> Result<Lemma, AllocError>
    requires names { HasPlainNames prover.now.program.sig }
    requires written { HasWritten writer.old prover.now }
    requires follows { MayFollow prover.now writer.old.renderer thm }
    ensures lemma { IfOk result (λ lemma. lemma ≡ thm) }
    ensures no_hypotheses { OnOk result (thm.hypotheses ≡ []) }
    ensures all { OnOk result (HasWrittenAll writer.new prover.now) }
    ensures stated { OnOk result
        (IsStated (all_stated writer.new.renderer) thm.hypotheses thm.conclusion) }
    ensures concludes { OnOk result
        (Concludes prover.now writer.old thm to.old.items to.new.items) }
    ensures text { OnOk result (Adds prover.now writer.old writer.new to.old.items to.new.items) }
    ensures theorems { OnOk result
        (StatesNewLemmas prover.now writer.old to.old.items to.new.items) }
{
    image_laws();
    let cx = prover.cx();
    cx.law();
    let made = ProofParts {
        program: cx.program(),
        names: cx.names(),
        theory: cx.theory(),
        lemmas: cx.theorems(),
    };
    writer.write(&made, to)?;
    writer.theorem(&made, &thm, to)?;
    Lemma::close(thm)
}
