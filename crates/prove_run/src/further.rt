// A run goes one step further, by a lemma that is made once for all runs.
ghost use Rattle.std.specs.Prelude.{◌≡◌, ◌∷◌, [], IfOk, All};
ghost use Rattle.std.specs.List.{AllZip};
ghost use Rattle.ml_pat.specs.Patterns.{Pattern, imp, next, ev};
ghost use Rattle.ml_kernel.specs.Lemmas.{HasNoVariable};
ghost use Rattle.ml_derived.specs.Implications.{IsOneStepOn, ReachesOneFurther};
ghost use Rattle.prove_term.specs.Contexts.{Context, IsLemmaIn};
ghost use Rattle.prove_run.specs.ReachLemma.{IsReachHypothesis, IsReachLemma, ProvesHypothesis};
ghost use Rattle.prove_run.specs.ReachLemma.{CitesReachLemma};

use ml_derived::{assume, reach_step, use_lemma};
use ml_kernel::{Lemma, Thm};
use ml_pat::{MForm, MPat};
use std::alloc::{AllocError, Global};

// Proves `m:0 -> ev m:2` from `m:0 -> ev m:1` and `m:1 -> next m:2`.
pub(crate) fn reach_lemma(alloc: Global) -> Result<Thm, AllocError>
    ensures says { IfOk result IsReachLemma }
    ensures stays { IfOk result (λ t. (cx : Context) → IsLemmaIn cx t) }
{
    let from = MPat::meta(alloc, 0)?;
    let here = MPat::meta(alloc, 1)?;
    let there = MPat::meta(alloc, 2)?;
    let end = MPat::ev(alloc, &here)?;
    let next = MPat::next(alloc, &there)?;
    let reached = MPat::imp(alloc, &from, &end)?;
    let moved = MPat::imp(alloc, &here, &next)?;
    let sofar = assume(alloc, reached)?;
    let step = assume(alloc, moved)?;
    reach_step(alloc, &sofar, &step)
}

// Proves `a -> ev c` from `a -> ev b` and `b -> next c`, by the lemma.
pub(crate) fn reach_further(
    alloc: Global,
    lemma: &Lemma,
    sofar: &Thm,
    step: &Thm,
) -> Result<Thm, AllocError>
    requires lemma { IsReachLemma lemma.now }
    requires linked { IsOneStepOn sofar.now.conclusion step.now.conclusion }
    requires closed { HasNoVariable sofar.now.conclusion × HasNoVariable step.now.conclusion }
    ensures conclusion { IfOk result
        (λ t. ReachesOneFurther sofar.now.conclusion step.now.conclusion t.conclusion) }
    ensures stays { IfOk result (CitesReachLemma lemma.now sofar.now step.now) }
{
    let reached = sofar.conclusion();
    let moved = step.conclusion();
    let images = images(alloc, reached, moved)?;
    let proofs = proofs(alloc, lemma.hypotheses(), sofar, step)?;
    use_lemma(alloc, lemma, &images, &proofs)
}

// Returns a, b and c of `a -> ev b` and `b -> next c`.
fn images(alloc: Global, sofar: &MPat, step: &MPat) -> Result<Vec<MPat>, AllocError>
    requires { IsOneStepOn sofar.now step.now }
    ensures { IfOk result
        (λ v. (a b c : Pattern) → sofar.now ≡ imp a (ev b) → step.now ≡ imp b (next c) →
        v.items ≡ a ∷ b ∷ c ∷ []) }
{
    let (a, b) = reached(sofar);
    let c = made(step);
    Ok(vec![in alloc; a.share()?, b.share()?, c.share()?]?)
}

// Returns a and b of `a -> ev b`.
fn reached(sofar: &MPat) -> (&MPat, &MPat)
    requires { (a b : Pattern) × (sofar.now ≡ imp a (ev b)) }
    ensures { sofar.now ≡ imp result.0.now (ev result.1.now) }
{
    if let MForm::Imp(a, after) = sofar.form() {
        if let MForm::Ev(b) = after.form() {
            return (a, b);
        }
    }
    unreachable!()
}

// Returns c of `b -> next c`.
fn made(step: &MPat) -> &MPat
    requires { (b c : Pattern) × (step.now ≡ imp b (next c)) }
    ensures { (b : Pattern) × (step.now ≡ imp b (next result.now)) }
{
    if let MForm::Imp(_, after) = step.form() {
        if let MForm::Next(c) = after.form() {
            return c;
        }
    }
    unreachable!()
}

// Returns the proof of each hypothesis of the lemma: `sofar` or `step`.
fn proofs(
    alloc: Global,
    hypotheses: &[MPat],
    sofar: &Thm,
    step: &Thm,
) -> Result<Vec<Thm>, AllocError>
    requires { All IsReachHypothesis hypotheses.now }
    ensures { IfOk result
        (λ v. AllZip (ProvesHypothesis sofar.now step.now) hypotheses.now v.items) }
{
    let mut proofs = Vec::with_capacity(alloc, hypotheses.len())?;
    for hypothesis in hypotheses {
        let proof = proof_of(hypothesis, sofar, step);
        proofs.push(proof.share(alloc)?)?;
    }
    Ok(proofs)
}

// Returns the theorem that proves a hypothesis of the lemma.
fn proof_of<'a>(hypothesis: &MPat, sofar: &'a Thm, step: &'a Thm) -> &'a Thm
    requires { IsReachHypothesis hypothesis.now }
    ensures { ProvesHypothesis sofar.now step.now hypothesis.now result.now }
{
    if let MForm::Imp(_, after) = hypothesis.form() {
        if let MForm::Ev(_) = after.form() {
            return sofar;
        }
    }
    step
}
