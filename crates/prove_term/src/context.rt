// The context of the proofs about a program.
ghost use Rattle.std.specs.Prelude.{◌≡◌, ◌^◌, ◌<◌, ◌∷◌, ◌++◌, [], IfOk, OnOk, OnErr, Some, length};
ghost use Rattle.std.specs.Prelude.{slice_get};
ghost use Rattle.ml_pat.specs.Patterns.{Pattern};
ghost use Rattle.ml_kernel.specs.RenamedAxioms.{MayRename};
ghost use Rattle.ml_kernel.specs.Renamings.{by_place, renamed};
ghost use Rattle.ml_kernel.specs.StepView.{numbers_of};
ghost use Rattle.term_core.specs.RulePatterns.{plain_pattern};
ghost use Rattle.rule_core.specs.ProgramView.{rewrite_rule, theory_of};
ghost use Rattle.rule_core.specs.declared.rules.Rule.{Rule};
ghost use Rattle.ml_image.specs.Images.{image_of};
ghost use Rattle.ml_image.specs.HasImages.{HasImage};
ghost use Rattle.ml_image.specs.Sentences.{IsImageOf};
ghost use Rattle.prove_term.specs.Contexts.{HasGrown, IsContext, IsLemmaIn, StaysIn, new_context};
ghost use Rattle.ml_image.specs.Assumed.{IsAssumed};
ghost use Rattle.prove_term.specs.RuleAxioms.{HasImageAt, SaysRuleAt};
ghost use Rattle.prove_term.specs.Stated.{IsRuleAxiom};

use ml_image::{rule_image, term_image};
use ml_kernel::{AxiomNo, Lemma, Theory, Thm};
use ml_pat::{MPat, MSort, Names, VarNo};
use rule_core::Program;
use std::alloc::{AllocError, Global};
use std::collections::BTreeMap;
use std::marker::Model;
use term_core::RulePat;

/// What the proofs about a program use: the names of its sorts, symbols and values, the axioms, and
/// the lemmas. Contracts see it as a plain `Context`.
pub struct Cx<'p> {
    pub(crate) program: &'p Program,
    pub(crate) names: Names,
    theory: Theory,
    lemmas: Vec<Lemma>,
    // The number of an axiom with this fingerprint, for axioms that are stated once.
    pub(crate) stated: BTreeMap<u64, AxiomNo>,
    // The theorems of the lemmas, with their derivations.
    theorems: Vec<Thm>,
    // The axiom of each rule that was used.
    rules: BTreeMap<u32, AxiomNo>,
    // The axiom of each value that was used, by the value's constant.
    pub(crate) values: BTreeMap<u64, ValueAxiom>,
    // The axiom of each hook call that was used, by the function and its arguments.
    pub(crate) hooks: BTreeMap<(u32, i128, i128), AxiomNo>,
    // The place of the lemma of each constructor that was used.
    pub(crate) constructors: BTreeMap<u32, usize>,
    // The place of the lemma of each injection that was used, by its two sorts.
    pub(crate) injections: BTreeMap<(u32, u32), usize>,
    // The place of the lemma that makes two injections one, by the three sorts.
    pub(crate) collapses: BTreeMap<(u32, u32, u32), usize>,
    // The place of each lemma on equalities that was used, by the lemma's number.
    pub(crate) equalities: BTreeMap<u32, usize>,
}

/// The axiom of a value, and the sort in it.
#[derive(Clone, Copy)]
pub(crate) struct ValueAxiom {
    pub(crate) sort: MSort,
    pub(crate) no: AxiomNo,
}

impl<'p> Model for Cx<'p> {
    ghost use Rattle.std.specs.Coded.{codes};
    ghost use Rattle.term_core.specs.contracts.rule_patterns.RulePat as rule_pattern;
    ghost use Rattle.ml_pat.specs.PatternCode.{pattern_code};
    ghost use Rattle.ml_kernel.specs.TheoremCode.{theorem_code};
    ghost use Rattle.prove_term.specs.Contexts.{Context};

    ghost Value = { Context };

    ghost coded = { Prim.hlevel (codes, rule_pattern.the_row.coded, pattern_code, theorem_code) };

    ghost use Rattle.prove_term.specs.ContextView.{context_of, IsKept};

    ghost view = { context_of };

    ghost invariant = { IsKept };
}

// A context is dropped by one call, and not field by field at each end of each call that owns one.
impl Drop for Cx<'_> {
    fn drop(self) {
        let Cx {
            program: _,
            names: _,
            theory: _,
            lemmas: _,
            stated: _,
            theorems: _,
            rules: _,
            values: _,
            hooks: _,
            constructors: _,
            injections: _,
            collapses: _,
            equalities: _,
        } = self;
    }
}

impl<'p> Cx<'p> {
    /// Makes a context without names, axioms and lemmas. Its names are hashed as those of the
    /// program's symbols.
    pub fn new(alloc: Global, program: &'p Program) -> Cx<'p>
        ensures { result ≡ new_context program.now }
    {
        Cx {
            program,
            names: Names::hashed_by(alloc, program.sig.symbols.hasher().start),
            theory: Theory::new(alloc),
            lemmas: Vec::new(alloc),
            stated: BTreeMap::new(alloc),
            theorems: Vec::new(alloc),
            rules: BTreeMap::new(alloc),
            values: BTreeMap::new(alloc),
            hooks: BTreeMap::new(alloc),
            constructors: BTreeMap::new(alloc),
            injections: BTreeMap::new(alloc),
            collapses: BTreeMap::new(alloc),
            equalities: BTreeMap::new(alloc),
        }
    }

    /// Returns the program.
    pub fn program(&self) -> &'p Program
        ensures { result.now ≡ self.now.program }
    {
        self.program
    }

    /// Returns the names of the program's sorts, symbols and values that proofs have used.
    pub fn names(&self) -> &Names
        ensures { result.now ≡ self.now.names }
    {
        &self.names
    }

    /// Returns the axioms.
    pub fn theory(&self) -> &Theory
        ensures { result.now ≡ self.now.axioms }
    {
        &self.theory
    }

    /// Returns the lemmas, in the order in which they were added.
    pub fn lemmas(&self) -> &[Lemma]
        ensures { result.now ≡ self.now.lemmas }
    {
        &self.lemmas
    }

    /// Returns the lemmas with their derivations, for writing.
    pub fn theorems(&self) -> &[Thm]
        ensures { result.now ≡ self.now.lemmas }
    {
        &self.theorems
    }

    /// Law: the names and axioms are the program's own, and each lemma stays in what came before
    /// it.
    pub fn law(&self)
        ensures { IsContext self.now }
    {
        let _names = &self.names;
    }

    /// Returns the image of a pattern whose sorts and symbols are the program's. `AllocError`: out
    /// of memory. After an error the names may have grown.
    pub fn image(&mut self, alloc: Global, pat: &RulePat) -> Result<MPat, AllocError>
        requires { HasImage self.old.program.sig (2 ^ 32) (plain_pattern pat.now) }
        ensures image { IfOk result
            (λ p. image_of self.new.program.sig self.new.names (plain_pattern pat.now) ≡ Some p) }
        ensures grown { HasGrown self.old self.new }
    {
        term_image(alloc, &self.program.sig, &mut self.names, pat)
    }

    /// Returns the image of the rule at a place as a theorem. The first call for a rule states it
    /// as an axiom. `AllocError`: out of memory. After an error the context may have grown.
    pub fn rule_axiom(&mut self, alloc: Global, rule: u32) -> Result<Thm, AllocError>
        requires { HasImageAt self.old.program rule }
        ensures says { IfOk result (λ t. SaysRuleAt self.new rule t.conclusion) }
        ensures no_hypotheses { IfOk result (λ t. t.hypotheses ≡ []) }
        ensures stays { IfOk result (StaysIn self.new) }
        ensures grown { HasGrown self.old self.new }
    {
        let no = self.rule_number(alloc, rule)?;
        self.axiom(alloc, no)
    }

    // Returns the number of the axiom of a rule.
    fn rule_number(&mut self, alloc: Global, rule: u32) -> Result<AxiomNo, AllocError>
        requires { HasImageAt self.old.program rule }
        ensures says { IfOk result (λ no. IsRuleAxiom self.new rule no.0) }
        ensures grown { HasGrown self.old self.new }
    {
        if let Some(no) = self.rules.get(&rule) {
            return Ok(*no);
        }
        let image = self.rule_image(alloc, rule)?;
        let no = self.state(image)?;
        self.keep_rule(rule, no)?;
        Ok(no)
    }

    // Returns the image of the rule at a place.
    fn rule_image(&mut self, alloc: Global, rule: u32) -> Result<MPat, AllocError>
        requires { HasImageAt self.old.program rule }
        ensures image { IfOk result (SaysRuleAt self.new rule) }
        ensures grown { HasGrown self.old self.new }
    {
        let stated = &self.program.rules[rule as usize];
        rule_image(alloc, &self.program.sig, &mut self.names, stated)
    }

    // Keeps the number of a rule's axiom.
    fn keep_rule(&mut self, rule: u32, no: AxiomNo) -> Result<(), AllocError>
        requires { IsRuleAxiom self.old rule no.0 }
        ensures { self.new ≡ self.old }
    {
        self.rules.insert(rule, no)?;
        Ok(())
    }

    /// States the image of an assumed sentence as an axiom. `AllocError`: out of memory.
    pub fn state(&mut self, image: MPat) -> Result<AxiomNo, AllocError>
        requires { IsImageOf self.old.program.sig self.old.names
            (IsAssumed (theory_of self.old.program)) image }
        ensures there { IfOk result (λ no. slice_get self.new.axioms no.0 ≡ Some image) }
        ensures grown { HasGrown self.old self.new }
        ensures names { self.new.names ≡ self.old.names }
    {
        self.theory.add(image)
    }

    /// Returns an axiom as a theorem. `AllocError`: out of memory.
    pub fn axiom(&self, alloc: Global, no: AxiomNo) -> Result<Thm, AllocError>
        requires { no.0 < length self.now.axioms }
        ensures conclusion { IfOk result (λ t. slice_get self.now.axioms no.0 ≡ Some t.conclusion) }
        ensures no_hypotheses { IfOk result (λ t. t.hypotheses ≡ []) }
        ensures stays { IfOk result (StaysIn self.now) }
    {
        self.theory.axiom(alloc, no)
    }

    // Returns an axiom as a theorem, with new numbers for its variables.
    pub(crate) fn axiom_as(
        &self,
        alloc: Global,
        no: AxiomNo,
        new: &[VarNo],
    ) -> Result<Thm, AllocError>
        requires number { no.0 < length self.now.axioms }
        requires renames { MayRename self.now.axioms no.0 (numbers_of new.now) }
        ensures says { IfOk result (λ t. (p : Pattern) → slice_get self.now.axioms no.0 ≡ Some p →
            t.conclusion ≡ renamed (by_place (numbers_of new.now)) p) }
        ensures no_hypotheses { IfOk result (λ t. t.hypotheses ≡ []) }
        ensures stays { IfOk result (StaysIn self.now) }
    {
        self.theory.axiom_as(alloc, no, new)
    }

    /// Keeps a theorem as a lemma. The theorem may use only what the context has, and may assume
    /// its own hypotheses. `AllocError`: out of memory. Then nothing changes.
    pub fn add_lemma(&mut self, alloc: Global, thm: Thm) -> Result<(), AllocError>
        requires { IsLemmaIn self.old thm }
        ensures ok { OnOk result
            (self.new ≡ record self.old { lemmas = self.old.lemmas ++ thm ∷ [] }) }
        ensures err { OnErr result (self.new ≡ self.old) }
    {
        let lemma = Lemma::close(thm.share(alloc)?)?;
        self.lemmas.reserve(1)?;
        self.theorems.push(thm)?;
        self.lemmas.push(lemma).unwrap();
        Ok(())
    }
}
