// The lemmas on injections, from axioms.
ghost use Rattle.std.specs.Prelude.{◌≡◌, ◌∷◌, ℕ, [], IfOk};
ghost use Rattle.ml_pat.specs.Patterns.{Pattern, equal, fun, imp, var};
ghost use Rattle.ml_derived.specs.Scopes.{StaysWithin};
ghost use Rattle.prove_term.specs.Assuming.{StaysFrom};
ghost use Rattle.prove_term.specs.Injections.{injecting, collapsing, InjectedFrom, CollapsedFrom};
ghost use Rattle.prove_term.specs.Injections.{Joins, JoinedFrom, StaysJoined};
ghost use Rattle.prove_term.specs.Carrying.{Twice, TwiceFrom, StaysTwice, Cites, CitedFrom};
ghost use Rattle.prove_term.specs.Carrying.{CitedBy};
ghost use Rattle.prove_term.specs.Carrying.{Carries, CarriedFrom, Collapses, CollapsesTo};
ghost use Rattle.prove_term.specs.Carrying.{CollapsesBy};

use crate::elements::subject;
use crate::schemas::{at_meta, detach, one_element};
use ml_derived::{assume, eq_el};
use ml_kernel::{Lemma, Thm};
use ml_pat::{MForm, MPat, VarNo};
use std::alloc::{AllocError, Global};

// The lemma that a pattern variable, one element of a sort, is one element of the sort directly
// above when injected. It follows from the same for all elements.
pub(crate) fn injected(alloc: Global, total: &Thm) -> Result<Thm, AllocError>
    requires total { (c s t : ℕ) × (total.now.conclusion ≡ injecting c s t) }
    requires no_hypotheses { total.now.hypotheses ≡ [] }
    ensures says { IfOk result (InjectedFrom total.now) }
    ensures stays { IfOk result (StaysFrom total.now) }
{
    let instance = at_meta(alloc, total, 0)?;
    one_element(alloc, &instance)
}

// The lemma that a pattern variable, injected through a sort between, is the same as injected
// directly. It assumes that the variable is one element of its sort. It follows from the same for
// all elements.
pub(crate) fn collapsed(alloc: Global, collapse: &Thm) -> Result<Thm, AllocError>
    requires collapse { (c s t u : ℕ) × (collapse.now.conclusion ≡ collapsing c s t u) }
    requires no_hypotheses { collapse.now.hypotheses ≡ [] }
    ensures says { IfOk result (CollapsedFrom collapse.now) }
    ensures stays { IfOk result (StaysFrom collapse.now) }
{
    at_meta(alloc, collapse, 0)
}

// The lemma of an injection from three lemmas: that of the injection into a sort between, that of
// the injection from there, and the lemma that both together are the direct injection.
pub(crate) fn joined(
    alloc: Global,
    collapse: &Lemma,
    lower: &Lemma,
    upper: &Lemma,
) -> Result<Thm, AllocError>
    requires { (c s t u : ℕ) × Joins c s t u collapse.now lower.now upper.now }
    ensures says { IfOk result (JoinedFrom collapse.now lower.now upper.now) }
    ensures stays { IfOk result (StaysJoined collapse.now lower.now upper.now) }
{
    let base = assume(alloc, collapse.hypotheses()[0].share()?)?;
    let equality = at_once(alloc, collapse, &base)?;
    let twice = injected_twice(alloc, &equality, lower, upper)?;
    carried(alloc, &equality, &twice)
}

// The lemma that two injections are one, cited for one element.
pub(crate) fn at_once(alloc: Global, lemma: &Lemma, proof: &Thm) -> Result<Thm, AllocError>
    requires { (c s t u : ℕ) × (p : Pattern) × Collapses c s t u p lemma.now proof.now }
    ensures conclusion { IfOk result (CollapsesTo lemma.now proof.now) }
    ensures by { IfOk result (CollapsesBy lemma.now proof.now) }
{
    let images = vec![in alloc; subject(proof)?]?;
    let proofs = vec![in alloc; proof.share(alloc)?]?;
    Thm::use_lemma(alloc, lemma, &images, &proofs)
}

// Proves that the pattern variable, injected by both, is one element of the greatest sort. It
// assumes what the equality assumes.
fn injected_twice(
    alloc: Global,
    equality: &Thm,
    lower: &Lemma,
    upper: &Lemma,
) -> Result<Thm, AllocError>
    requires { (c s t u : ℕ) × Twice c s t u equality.now lower.now upper.now }
    ensures says { IfOk result (TwiceFrom equality.now lower.now upper.now) }
    ensures stays { IfOk result (StaysTwice equality.now lower.now upper.now) }
{
    let base = assume(alloc, equality.hypotheses()[0].share()?)?;
    let once = cited(alloc, lower, base)?;
    cited(alloc, upper, once)
}

// The lemma of an injection, cited for one element.
pub(crate) fn cited(alloc: Global, lemma: &Lemma, proof: Thm) -> Result<Thm, AllocError>
    requires { (c s t : ℕ) × (p : Pattern) × Cites c s t p lemma.now proof }
    ensures conclusion { IfOk result (CitedFrom lemma.now proof) }
    ensures by { IfOk result (CitedBy lemma.now proof) }
{
    let images = vec![in alloc; subject(&proof)?]?;
    let proofs = vec![in alloc; proof]?;
    Thm::use_lemma(alloc, lemma, &images, &proofs)
}

// Proves that the right side of an equality is one element of a sort, because the left side is.
fn carried(alloc: Global, equality: &Thm, made: &Thm) -> Result<Thm, AllocError>
    requires { (p q : Pattern) × (s : ℕ) × (h : Pattern) × Carries p q s h equality.now made.now }
    ensures says { IfOk result (CarriedFrom equality.now made.now) }
    ensures stays { IfOk result (StaysWithin (var 0 ∷ []) (equality.now ∷ made.now ∷ [])) }
{
    let MForm::Equal(_, right) = equality.conclusion().form() else {
        unreachable!()
    };
    let MForm::Fun(_, sort) = made.conclusion().form() else {
        unreachable!()
    };
    let fact = MPat::fun(alloc, right, *sort)?;
    let under = exchanged(alloc, equality, made.conclusion(), &fact)?;
    detach(alloc, made, &under, made.conclusion(), &fact)
}

// Proves from an equality: if its left side is one element of a sort, so is its right side.
fn exchanged(alloc: Global, equality: &Thm, old: &MPat, new: &MPat) -> Result<Thm, AllocError>
    requires { (p q : Pattern) × (s : ℕ) ×
        (equality.now.conclusion ≡ equal p q) × (old.now ≡ fun p s) × (new.now ≡ fun q s) }
    ensures conclusion { IfOk result (λ t. t.conclusion ≡ imp old.now new.now) }
    ensures hypotheses { IfOk result
        (λ t. (h : Pattern) → equality.now.hypotheses ≡ h ∷ [] → t.hypotheses ≡ h ∷ []) }
    ensures stays { IfOk result (StaysWithin (var 0 ∷ old.now ∷ []) (equality.now ∷ [])) }
{
    let MForm::Equal(left, right) = equality.conclusion().form() else {
        unreachable!()
    };
    let MForm::Fun(_, sort) = old.form() else {
        unreachable!()
    };
    let x = VarNo(0);
    let context = MPat::fun(alloc, &MPat::var(alloc, x)?, *sort)?;
    let rule = eq_el(alloc, left, right, &context, old, new, x)?;
    let rest = MPat::imp(alloc, old, new)?;
    detach(alloc, equality, &rule, equality.conclusion(), &rest)
}
