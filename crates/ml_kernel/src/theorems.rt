// Theorems, and the private function with which each rule makes one.
ghost use Rattle.std.specs.Prelude.{◌≡◌, ◌↔◌, [], ◌∷◌, length, IfOk, OnOk, IsTrue, Contains};
ghost use Rattle.ml_kernel.specs.Rules.{Infers};
ghost use Rattle.ml_kernel.specs.Theorems.{Theorem, hypothesis, own_axiom, cited, AddsNew};
ghost use Rattle.ml_kernel.specs.Theorems.{all_hypotheses, conclusions, all_derivations};
ghost use Rattle.ml_kernel.specs.Theorems.{derivations, IsByRule, IsByLemma, IsDerived};
ghost use Rattle.ml_kernel.specs.Lemmas.{instance, instances, IsMetaBelow, AreMetasBelow};
ghost use Rattle.ml_kernel.specs.Lemmas.{HasNoMeta, HaveNoVariables};
ghost use Rattle.ml_kernel.specs.Concluding.{IsKept};
ghost use Rattle.ml_kernel.specs.Renamings.{Renames, by_place};
ghost use Rattle.ml_kernel.specs.StepView.{instance_of, instances_of, numbers_of};
ghost use Rattle.ml_kernel.specs.Premises.{part_of, parts_of, theorems_of, AreKept};

use crate::derivations::{AxiomNo, Deriv, DerivStep, Inst, Lemma, all_shared};
use crate::erased::ErasedDerivation;
use crate::instances::instance;
use crate::rules::Rule;
use ml_pat::{MPat, MSort, VarNo};
use std::alloc::{AllocError, Global};
use std::marker::Model;

/// A theorem: a conclusion, the hypotheses that it depends on, each once, and a derivation.
/// Contracts see it as a plain `Theorem`.
pub struct Thm {
    hypotheses: Vec<MPat>,
    conclusion: MPat,
    derivation: Deriv,
}

// A theorem is dropped by one call, and not field by field at each end of each call that owns one.
impl Drop for Thm {
    fn drop(self) {
        let Thm {
            hypotheses: _,
            conclusion: _,
            derivation: _,
        } = self;
    }
}

/// What a call passes for a variable of its rule.
#[derive(Clone, Copy)]
pub(crate) enum Part<'a> {
    Pat(&'a MPat),
    Var(VarNo),
    Sort(MSort),
}

impl Model for Thm {
    ghost use Rattle.ml_kernel.specs.Theorems.{Theorem};
    ghost use Rattle.ml_kernel.specs.TheoremCode.{theorem_code};

    ghost Value = { Theorem };

    ghost coded = { theorem_code };

    ghost use Rattle.ml_kernel.specs.Lemmas.{instance, instances, IsMetaBelow, AreMetasBelow};
    ghost use Rattle.ml_kernel.specs.Lemmas.{HasNoMeta, HaveNoVariables};
    ghost use Rattle.ml_kernel.specs.Concluding.{IsKept};
    ghost use Rattle.ml_kernel.specs.TheoremView.{theorem_of};

    ghost view = { theorem_of };

    ghost invariant = { λ a. IsKept (theorem_of a) };
}

impl Thm {
    /// A pattern follows from itself: the only hypothesis of the theorem is its conclusion, and it
    /// keeps no axiom. An error: out of memory.
    pub fn assume(alloc: Global, hyp: MPat) -> Result<Thm, AllocError>
        ensures hypotheses { IfOk result (λ t. t.hypotheses ≡ hyp ∷ []) }
        ensures conclusion { IfOk result (λ t. t.conclusion ≡ hyp) }
        ensures derivation { IfOk result (λ t. t.derivation ≡ hypothesis hyp) }
    {
        let mut hypotheses = Vec::new(alloc);
        hypotheses.push(hyp.share()?)?;
        let derivation = Deriv::of(alloc, DerivStep::Hyp(hyp.share()?))?;
        Ok(Thm {
            hypotheses,
            conclusion: hyp,
            derivation,
        })
    }

    /// Has no effect at run time. It states that the conclusion has a derivation in matching logic
    /// from the hypotheses and from the axioms that the derivation keeps.
    pub fn law(&self)
        ensures { IsDerived self.now }
    {
        let _conclusion = &self.conclusion;
    }

    /// The same theorem, with its patterns and its derivation shared. An error: out of memory.
    pub fn share(&self, alloc: Global) -> Result<Thm, AllocError>
        ensures { IfOk result (λ shared. shared ≡ self.now) }
    {
        Ok(Thm {
            hypotheses: all_shared(alloc, &self.hypotheses)?,
            conclusion: self.conclusion.share()?,
            derivation: self.derivation.share()?,
        })
    }

    /// The hypotheses that it depends on.
    pub fn hypotheses(&self) -> &[MPat]
        ensures value { result.now ≡ self.now.hypotheses }
        ensures kept { IsKept self.now }
    {
        &self.hypotheses
    }

    /// The conclusion.
    pub fn conclusion(&self) -> &MPat
        ensures { result.now ≡ self.now.conclusion }
    {
        &self.conclusion
    }

    /// The derivation of the conclusion.
    pub fn derivation(&self) -> &Deriv
        ensures { result.now ≡ self.now.derivation }
    {
        &self.derivation
    }

    /// The conclusion of a lemma with these patterns substituted for its pattern variables, from
    /// proofs of its hypotheses with the same patterns substituted. It keeps the axioms of the
    /// lemma and of the proofs. An error: out of memory.
    pub fn use_lemma(
        alloc: Global,
        lemma: &Lemma,
        metas: &[MPat],
        proofs: &[Thm],
    ) -> Result<Thm, AllocError>
        requires hypotheses_metas { AreMetasBelow (length metas.now) lemma.now.hypotheses }
        requires conclusion_metas { IsMetaBelow (length metas.now) lemma.now.conclusion }
        requires no_variables { HaveNoVariables metas.now }
        requires proofs { conclusions proofs.now ≡ instances metas.now lemma.now.hypotheses }
        ensures conclusion { IfOk result
            (λ t. t.conclusion ≡ instance metas.now lemma.now.conclusion) }
        ensures lemma { IfOk result (λ t. IsByLemma lemma.now metas.now proofs.now t) }
    {
        let premises = references(alloc, proofs)?;
        let hypotheses = merged(alloc, &premises)?;
        let below = kept_derivations(alloc, &premises)?;
        let conclusion = instance(alloc, metas, lemma.conclusion())?;
        let derivation = citation(alloc, lemma, metas, below)?;
        Ok(Thm {
            hypotheses,
            conclusion,
            derivation,
        })
    }

    // The theorem as a lemma. Its derivation is dropped.
    fn into_lemma(self) -> Lemma
        ensures { result ≡ self }
    {
        let Thm {
            hypotheses,
            conclusion,
            derivation,
        } = self;
        Lemma {
            hypotheses,
            conclusion,
            erased: ErasedDerivation::of(&derivation),
        }
    }

    // The theorem of an axiom, with new numbers of its bound variables by place.
    pub(crate) fn of_axiom(
        alloc: Global,
        no: AxiomNo,
        pattern: &MPat,
        new: Vec<VarNo>,
        conclusion: MPat,
    ) -> Result<Thm, AllocError>
        requires no_meta { HasNoMeta pattern.now }
        requires renames { Renames (by_place (numbers_of new.items)) pattern.now conclusion }
        ensures hypotheses { IfOk result (λ t. t.hypotheses ≡ []) }
        ensures conclusion { IfOk result (λ t. t.conclusion ≡ conclusion) }
        ensures derivation { IfOk result
            (λ t. t.derivation ≡ own_axiom no.0 pattern.now (numbers_of new.items)) }
    {
        let derivation = Deriv::of(alloc, DerivStep::Axiom(no, pattern.share()?, new))?;
        Ok(Thm {
            hypotheses: Vec::new(alloc),
            conclusion,
            derivation,
        })
    }

    // The theorem that a rule concludes from its premises.
    pub(crate) fn by_rule(
        alloc: Global,
        rule: Rule,
        parts: &[Part<'_>],
        premises: &[&Thm],
        conclusion: &MPat,
    ) -> Result<Thm, AllocError>
        requires { Infers rule (parts_of parts.now) (conclusions (theorems_of premises.now))
            conclusion.now }
        ensures { IfOk result
            (IsByRule rule (parts_of parts.now) (theorems_of premises.now) conclusion.now) }
    {
        let instances = kept_parts(alloc, parts)?;
        let hypotheses = merged(alloc, premises)?;
        let below = kept_derivations(alloc, premises)?;
        let derivation = Deriv::of(alloc, DerivStep::ByRule(rule, instances, below))?;
        Ok(Thm {
            hypotheses,
            conclusion: conclusion.share()?,
            derivation,
        })
    }
}

impl Lemma {
    /// The theorem as a lemma, which may be cited with other patterns for its pattern variables. An
    /// error: out of memory.
    pub fn close(thm: Thm) -> Result<Lemma, AllocError>
        ensures { IfOk result (λ lemma. lemma ≡ thm) }
    {
        Ok(thm.into_lemma())
    }
}

// The step that cites a lemma.
fn citation(
    alloc: Global,
    lemma: &Lemma,
    metas: &[MPat],
    below: Vec<Deriv>,
) -> Result<Deriv, AllocError>
    ensures citation { IfOk result (λ d. d
        ≡ cited lemma.now.hypotheses lemma.now.conclusion lemma.now.derivation metas.now
        (derivations below.items)) }
    ensures kept { OnOk result (IsKept lemma.now) }
{
    let _hypotheses = lemma.hypotheses();
    let lemma = lemma.share(alloc)?;
    let metas = all_shared(alloc, metas)?;
    Deriv::of(alloc, DerivStep::Cited(lemma, metas, below))
}

// References to the theorems of a list.
fn references(alloc: Global, proofs: &[Thm]) -> Result<Vec<&Thm>, AllocError>
    ensures { IfOk result (λ v. theorems_of v.items ≡ proofs.now) }
{
    let mut all = Vec::with_capacity(alloc, proofs.len())?;
    for thm in proofs {
        all.push(thm)?;
    }
    Ok(all)
}

// The instances of a rule's variables, for storage.
fn kept_parts(alloc: Global, parts: &[Part<'_>]) -> Result<Vec<Inst>, AllocError>
    ensures { IfOk result (λ v. instances_of v.items ≡ parts_of parts.now) }
{
    let mut kept = Vec::with_capacity(alloc, parts.len())?;
    for part in parts {
        kept.push(kept_part(part)?)?;
    }
    Ok(kept)
}

fn kept_part(part: &Part<'_>) -> Result<Inst, AllocError>
    ensures { IfOk result (λ kept. instance_of kept ≡ part_of part.now) }
{
    match part {
        Part::Pat(p) => Ok(Inst::Pat(p.share()?)),
        Part::Var(x) => Ok(Inst::Var(*x)),
        Part::Sort(s) => Ok(Inst::Sort(*s)),
    }
}

// Whether the pattern is in the list.
fn contains(items: &[MPat], p: &MPat) -> bool
    ensures { IsTrue result ↔ Contains items.now p.now }
{
    items.iter().any(|item| item.same(p))
}

// Adds each of the patterns that is not in the list yet.
fn add_new(old: &mut Vec<MPat>, from: &[MPat]) -> Result<(), AllocError>
    ensures { OnOk result (AddsNew old.old.items from.now old.new.items) }
{
    for p in from {
        if !contains(old, p) {
            old.push(p.share()?)?;
        }
    }
    Ok(())
}

// The hypotheses of the premises, in order, each once.
fn merged(alloc: Global, premises: &[&Thm]) -> Result<Vec<MPat>, AllocError>
    ensures merged { IfOk result
        (λ v. AddsNew [] (all_hypotheses (theorems_of premises.now)) v.items) }
    ensures kept { OnOk result (AreKept (theorems_of premises.now)) }
{
    let mut all = Vec::new(alloc);
    for thm in premises {
        add_new(&mut all, thm.hypotheses())?;
    }
    Ok(all)
}

// The derivations of the premises, in order.
fn kept_derivations(alloc: Global, premises: &[&Thm]) -> Result<Vec<Deriv>, AllocError>
    ensures { IfOk result (λ v. derivations v.items ≡ all_derivations (theorems_of premises.now)) }
{
    let mut below = Vec::with_capacity(alloc, premises.len())?;
    for thm in premises {
        below.push(thm.derivation().share()?)?;
    }
    Ok(below)
}
