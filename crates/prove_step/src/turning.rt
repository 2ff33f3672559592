// A side of a step is replaced by what it equals, by the lemma for that side.
ghost use Rattle.std.specs.Prelude.{◌≡◌, ◌∷◌, [], IfOk, Some};
ghost use Rattle.std.specs.List.{AllZip};
ghost use Rattle.ml_pat.specs.Patterns.{Pattern, equal};
ghost use Rattle.prove_term.specs.Contexts.{HasGrown};
ghost use Rattle.prove_step.specs.SideLemmas.{IsSideLemma, step_of};
ghost use Rattle.prove_step.specs.KeptSides.{AreSideLemmas};
ghost use Rattle.prove_step.specs.Turning.{CanTurn, IsProofFor, IsTurned, StaysCiting, StaysTurned};

use crate::side_lemmas::{Side, SideLemmas, side_lemma};
use ml_derived::use_lemma;
use ml_kernel::{Lemma, Thm};
use ml_pat::{MForm, MPat};
use prove_term::Cx;
use std::alloc::{AllocError, Global};

// Proves the step with a side replaced by what it equals. If there is no equality, the result is
// the given step.
pub(crate) fn turned(
    alloc: Global,
    cx: &mut Cx<'_>,
    lemmas: &mut SideLemmas,
    side: Side,
    equality: &Option<Thm>,
    step: Thm,
) -> Result<Thm, AllocError>
    requires can { CanTurn side equality.now step }
    requires lemmas { AreSideLemmas cx.old lemmas.old }
    ensures conclusion { IfOk result (IsTurned side equality.now step) }
    ensures stays { IfOk result (StaysTurned cx.new equality.now step) }
    ensures lemmas { AreSideLemmas cx.new lemmas.new }
    ensures grown { HasGrown cx.old cx.new }
{
    match equality {
        Some(e) => {
            let lemma = side_lemma(alloc, cx, lemmas, side)?;
            turned_by(alloc, &lemma, side, e, &step)
        }
        None => Ok(step),
    }
}

// Proves the step with q at a side, from `p = q` and the step with p there.
fn turned_by(
    alloc: Global,
    lemma: &Lemma,
    side: Side,
    e: &Thm,
    step: &Thm,
) -> Result<Thm, AllocError>
    requires lemma { IsSideLemma side lemma.now }
    requires can { CanTurn side (Some e.now) step.now }
    ensures conclusion { IfOk result (IsTurned side (Some e.now) step.now) }
    ensures stays { IfOk result (StaysCiting lemma.now e.now step.now) }
{
    let equality = e.conclusion();
    let moved = step.conclusion();
    let images = images(alloc, side, equality, moved)?;
    let proofs = proofs(alloc, lemma.hypotheses(), e, step)?;
    use_lemma(alloc, lemma, &images, &proofs)
}

// Returns p, q and the other side of the step.
fn images(alloc: Global, side: Side, e: &MPat, step: &MPat) -> Result<Vec<MPat>, AllocError>
    requires { (p q r : Pattern) × (e.now ≡ equal p q) × (step.now ≡ step_of side p r) }
    ensures { IfOk result
        (λ v. (p q r : Pattern) → e.now ≡ equal p q → step.now ≡ step_of side p r →
        v.items ≡ p ∷ q ∷ r ∷ []) }
{
    let (p, q) = equated(e);
    let r = other(side, step);
    Ok(vec![in alloc; p.share()?, q.share()?, r.share()?]?)
}

// Returns the sides of an equality.
fn equated(e: &MPat) -> (&MPat, &MPat)
    requires { (p q : Pattern) × (e.now ≡ equal p q) }
    ensures { e.now ≡ equal result.0.now result.1.now }
{
    let MForm::Equal(p, q) = e.form() else {
        unreachable!()
    };
    (p, q)
}

// Returns the other side of a step.
fn other(side: Side, step: &MPat) -> &MPat
    requires { (p r : Pattern) × (step.now ≡ step_of side p r) }
    ensures { (p : Pattern) × (step.now ≡ step_of side p result.now) }
{
    if let MForm::Imp(from, after) = step.form() {
        if let MForm::Next(to) = after.form() {
            return match side {
                Side::Left => to,
                Side::Right => from,
            };
        }
    }
    unreachable!()
}

// Returns a proof of each hypothesis: the equality if the hypothesis is one, else the step.
fn proofs(alloc: Global, hypotheses: &[MPat], e: &Thm, step: &Thm) -> Result<Vec<Thm>, AllocError>
    ensures { IfOk result (λ v. AllZip (IsProofFor e.now step.now) hypotheses.now v.items) }
{
    let mut proofs = Vec::with_capacity(alloc, hypotheses.len())?;
    for hypothesis in hypotheses {
        let proof = proof_for(hypothesis, e, step);
        proofs.push(proof.share(alloc)?)?;
    }
    Ok(proofs)
}

// Returns the equality if the hypothesis is one, else the step.
fn proof_for<'a>(hypothesis: &MPat, e: &'a Thm, step: &'a Thm) -> &'a Thm
    ensures { IsProofFor e.now step.now hypothesis.now result.now }
{
    match hypothesis.form() {
        MForm::Equal(..) => e,
        _ => step,
    }
}
