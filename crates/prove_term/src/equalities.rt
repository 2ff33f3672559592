// Equalities of closed patterns, by the lemmas on equalities of pattern variables.
ghost use Rattle.std.specs.Prelude.{◌≡◌, ◌⊎◌, ◌∷◌, [], IfOk, All, length};
ghost use Rattle.std.specs.List.{AllZip};
ghost use Rattle.ml_pat.specs.Patterns.{Pattern, equal};
ghost use Rattle.ml_kernel.specs.Lemmas.{HasNoVariable, HaveNoVariables, instance};
ghost use Rattle.ml_derived.specs.Equalities.{AreJoinable, IsFlip, IsJoin};
ghost use Rattle.ml_derived.specs.Equalities.{IsApplied, IsAppliedTo, IsArgument};
ghost use Rattle.prove_term.specs.Applications.{HasClosedSides};
ghost use Rattle.prove_term.specs.Contexts.{HasGrown, StaysInWith};
ghost use Rattle.prove_term.specs.EqualityLemmas.{IsEqualityHypothesis, IsEqualityLemma, IsFirst};
ghost use Rattle.prove_term.specs.EqualityLemmas.{IsLater, ProvesEither};
ghost use Rattle.prove_term.specs.EqualityLemmas.{ProveHypotheses};
ghost use Rattle.prove_term.specs.EqualityLemmas.{conclusion_of, metas_of, CitesEquality};
ghost use Rattle.prove_term.specs.EqualityLemmas.{IsNamedFirst, IsNamedLast};

use crate::context::Cx;
use crate::equality_lemmas::EqualityLemma;
use ml_derived::use_lemma;
use ml_kernel::{Lemma, Thm};
use ml_pat::{MForm, MPat};
use std::alloc::{AllocError, Global};

/// `q = p`, from `p = q`. `AllocError`: out of memory. After an error the context may have grown.
pub fn flip(alloc: Global, cx: &mut Cx<'_>, ab: &Thm) -> Result<Thm, AllocError>
    requires { HasClosedSides ab.now.conclusion }
    ensures conclusion { IfOk result (λ t. IsFlip ab.now.conclusion t.conclusion) }
    ensures stays { IfOk result (StaysInWith cx.new [] (ab.now ∷ [])) }
    ensures grown { HasGrown cx.old cx.new }
{
    let (p, q) = sides(ab.conclusion());
    let images = two(alloc, p, q)?;
    by_lemma(alloc, cx, EqualityLemma::Flip, &images, ab, ab)
}

/// `p = r`, from `p = q` and `q = r`. `AllocError`: out of memory. After an error the context may
/// have grown.
pub fn join(alloc: Global, cx: &mut Cx<'_>, ab: &Thm, bc: &Thm) -> Result<Thm, AllocError>
    requires joinable { AreJoinable ab.now.conclusion bc.now.conclusion }
    requires closed { HasClosedSides bc.now.conclusion }
    ensures conclusion { IfOk result
        (λ t. IsJoin ab.now.conclusion bc.now.conclusion t.conclusion) }
    ensures stays { IfOk result (StaysInWith cx.new [] (ab.now ∷ bc.now ∷ [])) }
    ensures grown { HasGrown cx.old cx.new }
{
    let (p, _) = sides(ab.conclusion());
    let (q, r) = sides(bc.conclusion());
    let images = three(alloc, p, q, r)?;
    by_lemma(alloc, cx, EqualityLemma::Join, &images, ab, bc)
}

// `p r = q r`, from `p = q`.
pub(crate) fn cong_fun(alloc: Global, cx: &mut Cx<'_>, f: &Thm, r: &MPat) -> Result<Thm, AllocError>
    requires equality { HasClosedSides f.now.conclusion }
    requires closed { HasNoVariable r.now }
    ensures conclusion { IfOk result (λ t. IsAppliedTo f.now.conclusion r.now t.conclusion) }
    ensures stays { IfOk result (StaysInWith cx.new (r.now ∷ []) (f.now ∷ [])) }
    ensures grown { HasGrown cx.old cx.new }
{
    let (p, q) = sides(f.conclusion());
    let images = three(alloc, p, q, r)?;
    by_lemma(alloc, cx, EqualityLemma::CongFun, &images, f, f)
}

// `p r = p t`, from `r = t`.
pub(crate) fn cong_arg(alloc: Global, cx: &mut Cx<'_>, p: &MPat, a: &Thm) -> Result<Thm, AllocError>
    requires closed { HasNoVariable p.now }
    requires equality { HasClosedSides a.now.conclusion }
    ensures conclusion { IfOk result (λ t. IsArgument p.now a.now.conclusion t.conclusion) }
    ensures stays { IfOk result (StaysInWith cx.new (p.now ∷ []) (a.now ∷ [])) }
    ensures grown { HasGrown cx.old cx.new }
{
    let (r, t) = sides(a.conclusion());
    let images = three(alloc, p, r, t)?;
    by_lemma(alloc, cx, EqualityLemma::CongArg, &images, a, a)
}

// `p r = q t`, from `p = q` and `r = t`.
pub(crate) fn cong_app(alloc: Global, cx: &mut Cx<'_>, f: &Thm, a: &Thm) -> Result<Thm, AllocError>
    requires function { HasClosedSides f.now.conclusion }
    requires argument { HasClosedSides a.now.conclusion }
    ensures conclusion { IfOk result
        (λ t. IsApplied f.now.conclusion a.now.conclusion t.conclusion) }
    ensures stays { IfOk result (StaysInWith cx.new [] (f.now ∷ a.now ∷ [])) }
    ensures grown { HasGrown cx.old cx.new }
{
    let (p, q) = sides(f.conclusion());
    let (r, t) = sides(a.conclusion());
    let images = four(alloc, p, q, r, t)?;
    by_lemma(alloc, cx, EqualityLemma::CongApp, &images, f, a)
}

// `q & p = q`, from `p = q`.
pub(crate) fn name_first(alloc: Global, cx: &mut Cx<'_>, ab: &Thm) -> Result<Thm, AllocError>
    requires { HasClosedSides ab.now.conclusion }
    ensures conclusion { IfOk result (λ t. IsNamedFirst ab.now.conclusion t.conclusion) }
    ensures stays { IfOk result (StaysInWith cx.new [] (ab.now ∷ [])) }
    ensures grown { HasGrown cx.old cx.new }
{
    let (p, q) = sides(ab.conclusion());
    let images = two(alloc, p, q)?;
    by_lemma(alloc, cx, EqualityLemma::NameFirst, &images, ab, ab)
}

// `p & q = q`, from `p = q`.
pub(crate) fn name_last(alloc: Global, cx: &mut Cx<'_>, ab: &Thm) -> Result<Thm, AllocError>
    requires { HasClosedSides ab.now.conclusion }
    ensures conclusion { IfOk result (λ t. IsNamedLast ab.now.conclusion t.conclusion) }
    ensures stays { IfOk result (StaysInWith cx.new [] (ab.now ∷ [])) }
    ensures grown { HasGrown cx.old cx.new }
{
    let (p, q) = sides(ab.conclusion());
    let images = two(alloc, p, q)?;
    by_lemma(alloc, cx, EqualityLemma::NameLast, &images, ab, ab)
}

// The conclusion of a lemma with these patterns for its pattern variables, from both hypotheses.
// The lemma is stated if it was not yet.
fn by_lemma(
    alloc: Global,
    cx: &mut Cx<'_>,
    which: EqualityLemma,
    images: &[MPat],
    first: &Thm,
    second: &Thm,
) -> Result<Thm, AllocError>
    requires enough { length images.now ≡ metas_of which }
    requires closed { HaveNoVariables images.now }
    requires proved { ProveHypotheses which images.now first.now second.now }
    ensures conclusion { IfOk result
        (λ t. t.conclusion ≡ instance images.now (conclusion_of which)) }
    ensures stays { IfOk result
        (StaysInWith cx.new images.now (first.now ∷ second.now ∷ [])) }
    ensures grown { HasGrown cx.old cx.new }
{
    let place = cx.equality(alloc, which)?;
    cited(alloc, &cx.lemmas()[place], which, images, first, second)
}

// The same by the lemma at hand.
fn cited(
    alloc: Global,
    lemma: &Lemma,
    which: EqualityLemma,
    images: &[MPat],
    first: &Thm,
    second: &Thm,
) -> Result<Thm, AllocError>
    requires lemma { IsEqualityLemma which lemma.now }
    requires enough { length images.now ≡ metas_of which }
    requires closed { HaveNoVariables images.now }
    requires proved { ProveHypotheses which images.now first.now second.now }
    ensures conclusion { IfOk result
        (λ t. t.conclusion ≡ instance images.now (conclusion_of which)) }
    ensures stays { IfOk result (CitesEquality lemma.now images.now first.now second.now) }
{
    let proofs = proofs(alloc, which, lemma.hypotheses(), first, second)?;
    use_lemma(alloc, lemma, images, &proofs)
}

// Returns the proof of each hypothesis of a lemma.
fn proofs(
    alloc: Global,
    which: EqualityLemma,
    hypotheses: &[MPat],
    first: &Thm,
    second: &Thm,
) -> Result<Vec<Thm>, AllocError>
    requires { All (IsEqualityHypothesis which) hypotheses.now }
    ensures { IfOk result (λ v. AllZip (ProvesEither first.now second.now) hypotheses.now v.items) }
{
    let mut proofs = Vec::with_capacity(alloc, hypotheses.len())?;
    for hypothesis in hypotheses {
        let proof = proof_of(hypothesis, first, second);
        proofs.push(proof.share(alloc)?)?;
    }
    Ok(proofs)
}

// Returns the theorem that proves a hypothesis of a lemma.
fn proof_of<'a>(hypothesis: &MPat, first: &'a Thm, second: &'a Thm) -> &'a Thm
    requires { IsFirst hypothesis.now ⊎ IsLater hypothesis.now }
    ensures { ProvesEither first.now second.now hypothesis.now result.now }
{
    if let MForm::Equal(left, _) = hypothesis.form() {
        if let MForm::Meta(0) = left.form() {
            return first;
        }
    }
    second
}

// Returns a list of two patterns.
fn two(alloc: Global, p: &MPat, q: &MPat) -> Result<Vec<MPat>, AllocError>
    ensures { IfOk result (λ v. v.items ≡ p.now ∷ q.now ∷ []) }
{
    Ok(vec![in alloc; p.share()?, q.share()?]?)
}

// Returns a list of three patterns.
fn three(alloc: Global, p: &MPat, q: &MPat, r: &MPat) -> Result<Vec<MPat>, AllocError>
    ensures { IfOk result (λ v. v.items ≡ p.now ∷ q.now ∷ r.now ∷ []) }
{
    Ok(vec![in alloc; p.share()?, q.share()?, r.share()?]?)
}

// Returns a list of four patterns.
fn four(alloc: Global, p: &MPat, q: &MPat, r: &MPat, t: &MPat) -> Result<Vec<MPat>, AllocError>
    ensures { IfOk result (λ v. v.items ≡ p.now ∷ q.now ∷ r.now ∷ t.now ∷ []) }
{
    Ok(vec![in alloc; p.share()?, q.share()?, r.share()?, t.share()?]?)
}

// Returns the two sides of an equality.
fn sides(equality: &MPat) -> (&MPat, &MPat)
    requires { (a b : Pattern) × (equality.now ≡ equal a b) }
    ensures { equality.now ≡ equal result.0.now result.1.now }
{
    match equality.form() {
        MForm::Equal(left, right) => (left, right),
        _ => unreachable!(),
    }
}
