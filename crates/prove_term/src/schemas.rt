// A sentence on all arguments of a constructor, turned into a lemma on pattern variables.
ghost use Rattle.std.specs.Prelude.{◌≡◌, ◌∷◌, ℕ, List, [], IfOk, Some};
ghost use Rattle.ml_pat.specs.Patterns.{all, fun, imp, meta};
ghost use Rattle.ml_pat.specs.Judgements.{substituted};
ghost use Rattle.ml_kernel.specs.Theorems.{AddsNew, all_hypotheses};
ghost use Rattle.ml_derived.specs.Scopes.{StaysWithin};
ghost use Rattle.prove_term.specs.Falling.{Falls};
ghost use Rattle.prove_term.specs.Assuming.{IsTotality, TotalFrom, PartlyFrom, StaysFrom, Opens};
ghost use Rattle.prove_term.specs.Assuming.{OpenedFrom, IsSome};
ghost use Rattle.prove_term.specs.Assuming.{OneElementFrom};

use ml_derived::{assume, fun_ex, inst};
use ml_kernel::Thm;
use ml_pat::{MForm, MPat, MSort, VarNo, subst};
use std::alloc::{AllocError, Global};

// The lemma that a constructor of `count` pattern variables makes one element, if each variable is
// one element of its sort. It follows from the same for all arguments.
pub(crate) fn total_lemma(alloc: Global, totality: Thm, count: u32) -> Result<Thm, AllocError>
    requires { (head : ℕ) × (numbers : List ℕ) × (number : ℕ)
        × IsTotality count head numbers number totality }
    ensures says { IfOk result (TotalFrom count totality) }
    ensures stays { IfOk result (StaysFrom totality) }
{
    let instance = at_metas(alloc, totality, count)?;
    one_element(alloc, &instance)
}

// The sentence with its variables replaced by pattern variables.
fn at_metas(alloc: Global, totality: Thm, count: u32) -> Result<Thm, AllocError>
    requires { (head : ℕ) × (numbers : List ℕ) × (number : ℕ)
        × IsTotality count head numbers number totality }
    ensures says { IfOk result (PartlyFrom count count totality) }
    ensures falls { IfOk result (λ t. Falls count t.hypotheses) }
    ensures stays { IfOk result (StaysFrom totality) }
{
    let mut made = totality;
    for i in 0..count {
        made = at_meta(alloc, &made, i)?;
    }
    Ok(made)
}

// Turns a theorem for all elements of a sort into one for a pattern variable that is assumed to be
// one element.
pub(crate) fn at_meta(alloc: Global, made: &Thm, i: u32) -> Result<Thm, AllocError>
    requires opens { Opens i made.now.conclusion }
    requires falls { Falls i made.now.hypotheses }
    ensures opened { IfOk result (OpenedFrom i made.now) }
    ensures stays { IfOk result (StaysFrom made.now) }
{
    let MForm::All(x, sort, body) = made.conclusion().form() else {
        unreachable!()
    };
    let by = MPat::meta(alloc, i)?;
    match subst(alloc, body, *x, &by)? {
        Some(opened) => assumed(alloc, made, body, &opened, *x, *sort, i),
        None => unreachable!(),
    }
}

// `at_meta` of a theorem whose body becomes `opened`.
fn assumed(
    alloc: Global,
    made: &Thm,
    body: &MPat,
    opened: &MPat,
    x: VarNo,
    sort: MSort,
    i: u32,
) -> Result<Thm, AllocError>
    requires made { made.now.conclusion ≡ all x.0 sort.0 body.now }
    requires opened { substituted body.now x.0 (meta i) ≡ Some opened.now }
    requires falls { Falls i made.now.hypotheses }
    ensures conclusion { IfOk result (λ t. t.conclusion ≡ opened.now) }
    ensures hypotheses { IfOk result
        (λ t. t.hypotheses ≡ fun (meta i) sort.0 ∷ made.now.hypotheses) }
    ensures stays { IfOk result (StaysFrom made.now) }
{
    let by = MPat::meta(alloc, i)?;
    let fact = MPat::fun(alloc, &by, sort)?;
    let rule = inst(alloc, body, &by, opened, x, sort)?;
    let rest = MPat::imp(alloc, &fact, opened)?;
    let under = detach(alloc, made, &rule, made.conclusion(), &rest)?;
    let known = assume(alloc, fact.share()?)?;
    detach(alloc, &known, &under, &fact, opened)
}

// If some element of a sort equals a pattern, the pattern is one element of the sort.
pub(crate) fn one_element(alloc: Global, some: &Thm) -> Result<Thm, AllocError>
    requires some { IsSome some.now.conclusion }
    requires falls { (b : ℕ) × Falls b some.now.hypotheses }
    ensures one { IfOk result (OneElementFrom some.now) }
    ensures stays { IfOk result (StaysWithin [] (some.now ∷ [])) }
{
    let MForm::Ex(x, sort, body) = some.conclusion().form() else {
        unreachable!()
    };
    let MForm::Equal(_, made) = body.form() else {
        unreachable!()
    };
    let rule = fun_ex(alloc, made, *x, *sort)?;
    let fact = MPat::fun(alloc, made, *sort)?;
    detach(alloc, some, &rule, some.conclusion(), &fact)
}

// q, from p and `p -> q`, with the hypotheses of both.
pub(crate) fn detach(alloc: Global, a: &Thm, b: &Thm, p: &MPat, q: &MPat) -> Result<Thm, AllocError>
    requires a { a.now.conclusion ≡ p.now }
    requires b { b.now.conclusion ≡ imp p.now q.now }
    ensures conclusion { IfOk result (λ t. t.conclusion ≡ q.now) }
    ensures hypotheses { IfOk result
        (λ t. AddsNew [] (all_hypotheses (a.now ∷ b.now ∷ [])) t.hypotheses) }
    ensures stays { IfOk result (StaysWithin [] (a.now ∷ b.now ∷ [])) }
{
    Thm::mp(alloc, a, b, p, q)
}
