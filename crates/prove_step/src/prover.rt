// Steps of a program's runs as theorems.
ghost use Rattle.std.specs.Prelude.{◌≡◌, ◌<◌, ◌∷◌, ◌++◌, ◌^◌, ℕ, List, [], length, replicate};
ghost use Rattle.std.specs.Prelude.{IfOk, IfSome, OnOk, OnErr, Some, None};
ghost use Rattle.term_core.specs.Terms.{Tree};
ghost use Rattle.term_core.specs.RulePatterns.{plain_pattern};
ghost use Rattle.rule_core.specs.BoundVariables.{HasBoundVariables};
ghost use Rattle.rule_core.specs.ProgramView.{theory_of};
ghost use Rattle.rule_core.specs.Records.{Records, result_of};
ghost use Rattle.rule_core.specs.RecordView.{plain_record, plain_step};
ghost use Rattle.rule_core.specs.Sorting.{HasSort};
ghost use Rattle.rule_core.specs.WellSorted.{IsWellSorted, BindsVariablesOf};
ghost use Rattle.rule_core.specs.AcSymbols.{IsAcFree};
ghost use Rattle.rule_core.specs.Runs.{Steps, stays};
ghost use Rattle.rewriter.specs.Configurations.{IsConfiguration};
ghost use Rattle.stuck_prove.specs.RefutedRules.{SayNoneMet};
ghost use Rattle.ml_image.specs.Images.{image_of};
ghost use Rattle.ml_image.specs.HasImages.{HasImage};
ghost use Rattle.prove_term.specs.Contexts.{HasGrown, IsLemmaIn, StaysIn, new_context};
ghost use Rattle.prove_term.specs.RuleAxioms.{HasImageAt};
ghost use Rattle.prove_fun.specs.Valuing.{EqualsValue};
ghost use Rattle.prove_step.specs.Steps.{IsStepFrom, SaysStep};
ghost use Rattle.prove_step.specs.RuleLemmas.{IsLemmaOf, IsRuleLemma};

use crate::applying::applied;
use crate::conditions::condition_held;
use crate::normalizing::normalized;
use crate::schemas::rule_schema;
use crate::side_lemmas::SideLemmas;
use fun_eval::Engine;
use ml_kernel::{Lemma, Thm};
use ml_pat::MPat;
use prove_fun::{LemmaPlaces, eval_eq};
use prove_term::Cx;
use rewriter::Run;
use rule_core::{EvalRecord, Program, StepRecord};
use std::alloc::{AllocError, Global};
use std::marker::Model;
use stuck_prove::not_met;
use term_core::{RulePat, Subst};

/// Proves the steps of a program's runs. It holds a context, in which each used rule and equation
/// is a lemma. Contracts see it as its context.
pub struct Prover<'p> {
    cx: Cx<'p>,
    // The place of the lemma of each rule that was used.
    rules: Vec<Option<usize>>,
    // The places of the lemmas of the equations that were used.
    kept: LemmaPlaces,
    // The lemmas that replace a side of a step by what it equals.
    sides: SideLemmas,
}

impl<'p> Model for Prover<'p> {
    ghost use Rattle.std.specs.Coded.{codes};
    ghost use Rattle.term_core.specs.contracts.rule_patterns.RulePat as rule_pattern;
    ghost use Rattle.ml_pat.specs.PatternCode.{pattern_code};
    ghost use Rattle.ml_kernel.specs.TheoremCode.{theorem_code};
    ghost use Rattle.prove_term.specs.Contexts.{Context};

    ghost Value = { Context };

    ghost coded = { Prim.hlevel (codes, rule_pattern.the_row.coded, pattern_code, theorem_code) };

    ghost use Rattle.prove_step.specs.ProverView.{context_of, HasLemmas};

    ghost view = { context_of };

    ghost invariant = { HasLemmas };
}

// A prover is dropped by one call, and not field by field at each end of each call that owns one.
impl Drop for Prover<'_> {
    fn drop(self) {
        let Prover {
            cx: _,
            rules: _,
            kept: _,
            sides: _,
        } = self;
    }
}

impl<'p> Prover<'p> {
    /// Makes a prover with the context at the start, without names, axioms and lemmas.
    /// `AllocError`: out of memory.
    pub fn new(alloc: Global, program: &'p Program) -> Result<Prover<'p>, AllocError>
        ensures { IfOk result (λ prover. prover ≡ new_context program.now) }
    {
        Ok(Prover {
            cx: Cx::new(alloc, program),
            rules: no_lemmas(alloc, program.rules.len())?,
            kept: LemmaPlaces::new(alloc),
            sides: SideLemmas::none(),
        })
    }

    /// Returns the context: names, axioms and lemmas.
    pub fn cx(&self) -> &Cx<'p>
        ensures { result.now ≡ self.now }
    {
        &self.cx
    }

    /// Returns the image of a pattern whose sorts and symbols are the program's. `AllocError`: out
    /// of memory. After an error the names may have grown.
    pub fn image(&mut self, alloc: Global, pat: &RulePat) -> Result<MPat, AllocError>
        requires { HasImage self.old.program.sig (2 ^ 32) (plain_pattern pat.now) }
        ensures image { IfOk result
            (λ p. image_of self.new.program.sig self.new.names (plain_pattern pat.now) ≡ Some p) }
        ensures grown { HasGrown self.old self.new }
    {
        self.cx.image(alloc, pat)
    }

    /// Proves that the image of a pattern, with its variables replaced by the images of a
    /// substitution's terms, equals the image of its value, by the record of its evaluation. If
    /// both are literally the same, there is no theorem. `AllocError`: out of memory. After an
    /// error the context may have grown.
    pub fn eval_eq(
        &mut self,
        alloc: Global,
        pat: &RulePat,
        subst: &Subst,
        evaluation: &EvalRecord,
    ) -> Result<Option<Thm>, AllocError>
        requires well_sorted { IsWellSorted (theory_of self.old.program) }
        requires bound { HasBoundVariables self.old.program }
        requires sorted { (variables : List ℕ) × (sort : ℕ)
            × HasSort self.old.program.sig variables (plain_pattern pat.now) sort
            × BindsVariablesOf self.old.program.sig variables subst.now (plain_pattern pat.now) }
        requires recorded { Records (theory_of self.old.program) subst.now (plain_pattern pat.now)
            (plain_record evaluation.now) }
        ensures says { IfOk result
            (EqualsValue self.new subst.now (plain_pattern pat.now)
            (result_of (plain_record evaluation.now))) }
        ensures stays { IfOk result (λ o. IfSome o (StaysIn self.new)) }
        ensures grown { HasGrown self.old self.new }
    {
        eval_eq(alloc, &mut self.cx, &mut self.kept, pat, subst, evaluation)
    }

    /// Proves of each rewrite rule, in the order of trial, that the configuration of a stuck run does
    /// not meet it. No constructor of the program is AC. The errors are those of
    /// `stuck_prove::not_met`. After an error the context may have grown.
    pub fn not_met(
        &mut self,
        alloc: Global,
        engine: &Engine<'_>,
        run: &Run,
    ) -> Result<Vec<Thm>, AllocError>
        requires program { self.old.program ≡ engine.now }
        requires bound { HasBoundVariables self.old.program }
        requires no_ac { IsAcFree self.old.program.sig }
        requires config { IsConfiguration (theory_of engine.now) run.now.config }
        requires stuck { Steps (theory_of engine.now) run.now.config run.now.calls stays }
        ensures shown { IfOk result (λ v. SayNoneMet self.new run.now.config
            (theory_of self.new.program).rules v.items) }
        ensures grown { HasGrown self.old self.new }
    {
        not_met(alloc, &mut self.cx, &mut self.kept, engine, run)
    }

    /// Keeps a theorem as a lemma. The theorem may use only what the context has, and may assume
    /// its own hypotheses. `AllocError`: out of memory. Then nothing changes.
    pub fn add_lemma(&mut self, alloc: Global, thm: Thm) -> Result<(), AllocError>
        requires { IsLemmaIn self.old thm }
        ensures ok { OnOk result
            (self.new ≡ record self.old { lemmas = self.old.lemmas ++ thm ∷ [] }) }
        ensures err { OnErr result (self.new ≡ self.old) }
    {
        self.cx.add_lemma(alloc, thm)
    }

    /// Proves a step from its record: the term that the rule matches steps to the value of the
    /// rule's right side. `AllocError`: out of memory. After an error the context may have grown.
    pub fn step(&mut self, alloc: Global, step: &StepRecord) -> Result<Thm, AllocError>
        requires well_sorted { IsWellSorted (theory_of self.old.program) }
        requires bound { HasBoundVariables self.old.program }
        requires follows { (t : Tree)
            × IsStepFrom (theory_of self.old.program) t (plain_step step.now) }
        ensures says { IfOk result (λ thm. (t : Tree) →
            IsStepFrom (theory_of self.new.program) t (plain_step step.now) →
            SaysStep self.new t (result_of (plain_step step.now).right) thm.conclusion) }
        ensures no_hypotheses { IfOk result (λ thm. thm.hypotheses ≡ []) }
        ensures stays { IfOk result (StaysIn self.new) }
        ensures grown { HasGrown self.old self.new }
    {
        let lemma = self.rule_lemma(alloc, step.rule)?;
        let condition = condition_held(alloc, &mut self.cx, &mut self.kept, step)?;
        let written = applied(alloc, &mut self.cx, &lemma, &step.subst, &condition)?;
        normalized(
            alloc,
            &mut self.cx,
            &mut self.kept,
            &mut self.sides,
            step,
            written,
        )
    }

    // Returns the lemma of a rule. It is made by the first call for the rule.
    fn rule_lemma(&mut self, alloc: Global, rule: u32) -> Result<Lemma, AllocError>
        requires { HasImageAt self.old.program rule }
        ensures lemma { IfOk result (IsRuleLemma self.new rule) }
        ensures grown { HasGrown self.old self.new }
    {
        let place = self.rule_place(alloc, rule)?;
        self.cx.lemmas()[place].share(alloc)
    }

    // Returns the place of the lemma of a rule.
    fn rule_place(&mut self, alloc: Global, rule: u32) -> Result<usize, AllocError>
        requires { HasImageAt self.old.program rule }
        ensures place { IfOk result (IsLemmaOf self.new rule) }
        ensures grown { HasGrown self.old self.new }
    {
        if let Some(place) = self.rules[rule as usize] {
            return Ok(place);
        }
        let place = self.new_lemma(alloc, rule)?;
        self.keep_rule(rule, place);
        Ok(place)
    }

    // Makes the lemma of a rule, and returns its place.
    fn new_lemma(&mut self, alloc: Global, rule: u32) -> Result<usize, AllocError>
        requires { HasImageAt self.old.program rule }
        ensures place { IfOk result (IsLemmaOf self.new rule) }
        ensures grown { HasGrown self.old self.new }
    {
        let schema = rule_schema(alloc, &mut self.cx, rule)?;
        let place = self.cx.lemmas().len();
        self.cx.add_lemma(alloc, schema)?;
        Ok(place)
    }

    // Keeps the place of a rule's lemma.
    fn keep_rule(&mut self, rule: u32, place: usize)
        requires there { rule < length self.old.program.rules.items }
        requires lemma { IsLemmaOf self.old rule place }
        ensures { self.new ≡ self.old }
    {
        self.rules[rule as usize] = Some(place);
    }
}

// Returns a list of n empty places, one for each rule.
fn no_lemmas(alloc: Global, rules: usize) -> Result<Vec<Option<usize>>, AllocError>
    ensures { IfOk result (λ v. v.items ≡ replicate rules None) }
{
    let mut places = Vec::with_capacity(alloc, rules)?;
    for _ in 0..rules {
        places.push(None)?;
    }
    Ok(places)
}
