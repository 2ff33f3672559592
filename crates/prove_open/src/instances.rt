// Sentences for all of numbered variables, at patterns that may have variables of smaller numbers.
ghost use Rattle.std.specs.Prelude.{◌≡◌, [], ◌∷◌, IfOk};
ghost use Rattle.ml_pat.specs.Patterns.{imp, var};
ghost use Rattle.ml_kernel.specs.Theorems.{conclusions};
ghost use Rattle.ml_derived.specs.Scopes.{StaysWithin};
ghost use Rattle.prove_open.specs.Instances.{IsForPatterns, HoldsOfPatterns, IsSomeUnder};
ghost use Rattle.prove_open.specs.Instances.{IsOneUnder, AreCarried, IsCarriedUnder};
ghost use Rattle.prove_open.specs.Instances.{IsImplication};

use ml_derived::{chain, eq_el, fun_ex, instance_open, under};
use ml_kernel::Thm;
use ml_pat::{MForm, MPat, VarNo};
use std::alloc::{AllocError, Global};

// The sentence at the patterns of the facts, under the hypothesis.
pub(crate) fn at_patterns(
    alloc: Global,
    sentence: &Thm,
    h: &MPat,
    facts: &[Thm],
) -> Result<Thm, AllocError>
    requires { IsForPatterns h.now sentence.now.conclusion (conclusions facts.now) }
    ensures conclusion { IfOk result (λ t. HoldsOfPatterns h.now sentence.now.conclusion
        (conclusions facts.now) t.conclusion) }
    ensures stays { IfOk result (StaysWithin (h.now ∷ []) (sentence.now ∷ facts.now)) }
{
    instance_open(alloc, sentence, h, facts)
}

// If under a hypothesis some element of a sort equals a pattern, the pattern is one element of the
// sort under it.
pub(crate) fn one_under(alloc: Global, some: &Thm) -> Result<Thm, AllocError>
    requires { IsSomeUnder some.now.conclusion }
    ensures conclusion { IfOk result (λ t. IsOneUnder some.now.conclusion t.conclusion) }
    ensures stays { IfOk result (StaysWithin [] (some.now ∷ [])) }
{
    let (_, exists) = sides(some.conclusion());
    let MForm::Ex(x, sort, body) = exists.form() else {
        unreachable!()
    };
    let MForm::Equal(_, made) = body.form() else {
        unreachable!()
    };
    let rule = fun_ex(alloc, made, *x, *sort)?;
    chain(alloc, some, &rule)
}

// If under the hypothesis two patterns are equal and the first is one element of a sort, so is the
// second. The variable y is absent from both.
pub(crate) fn carried_under(
    alloc: Global,
    h: &MPat,
    equality: &Thm,
    fact: &Thm,
    y: VarNo,
) -> Result<Thm, AllocError>
    requires { AreCarried h.now equality.now.conclusion fact.now.conclusion }
    ensures conclusion { IfOk result (λ t. IsCarriedUnder h.now equality.now.conclusion
        fact.now.conclusion t.conclusion) }
    ensures stays { IfOk result (StaysWithin (var y.0 ∷ []) (equality.now ∷ fact.now ∷ [])) }
{
    let (_, same) = sides(equality.conclusion());
    let (_, said) = sides(fact.conclusion());
    let MForm::Equal(left, right) = same.form() else {
        unreachable!()
    };
    let MForm::Fun(_, sort) = said.form() else {
        unreachable!()
    };
    let context = MPat::fun(alloc, &MPat::var(alloc, y)?, *sort)?;
    let moved = MPat::fun(alloc, right, *sort)?;
    let rule = eq_el(alloc, left, right, &context, said, &moved, y)?;
    let open = chain(alloc, equality, &rule)?;
    under(alloc, fact, &open, h, said, &moved)
}

// The two sides of an implication.
pub(crate) fn sides(p: &MPat) -> (&MPat, &MPat)
    requires { IsImplication p.now }
    ensures { p.now ≡ imp result.0.now result.1.now }
{
    match p.form() {
        MForm::Imp(left, right) => (left, right),
        _ => unreachable!(),
    }
}
