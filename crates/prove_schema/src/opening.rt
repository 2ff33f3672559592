// Sentences with their variables replaced by pattern variables.
ghost use Rattle.std.specs.Prelude.{◌≡◌, IfOk};
ghost use Rattle.ml_pat.specs.Patterns.{imp};
ghost use Rattle.ml_kernel.specs.Theorems.{conclusions};
ghost use Rattle.prove_schema.specs.Assumptions.{AreAssumptions, HoldsByParts, facts_of};
ghost use Rattle.prove_schema.specs.Opening.{IsConditional, IsFollowing, IsForAll, IsSchemaOf};
ghost use Rattle.prove_schema.specs.Opening.{StaysFollowing, StaysOpen};

use ml_derived::{assume, both, instance, mp, top};
use ml_kernel::Thm;
use ml_pat::{MForm, MPat};
use std::alloc::{AllocError, Global};

/// Turns a sentence for all elements of zero or more sorts into the same for pattern variables with
/// the numbers of its variables. The result assumes that each pattern variable is one element of
/// its sort. `AllocError`: out of memory. The cost grows with the number of variables times the
/// size of the sentence.
pub fn schema(alloc: Global, sentence: Thm) -> Result<Thm, AllocError>
    requires { IsForAll sentence.conclusion }
    ensures says { IfOk result (λ t. IsSchemaOf sentence.conclusion t.conclusion) }
    ensures stays { IfOk result (StaysOpen sentence) }
{
    let facts = assumed_facts(alloc, sentence.conclusion())?;
    instance(alloc, sentence, &facts)
}

// For each leading quantifier of a sentence, assumes that the pattern variable of its number is one
// element of its sort.
fn assumed_facts(alloc: Global, sentence: &MPat) -> Result<Vec<Thm>, AllocError>
    ensures facts { IfOk result (λ v. conclusions v.items ≡ facts_of sentence.now) }
    ensures assumed { IfOk result (λ v. AreAssumptions v.items) }
{
    let mut facts = Vec::new(alloc);
    let mut rest = sentence;
    while let MForm::All(x, sort, body) = rest.form() {
        let element = MPat::meta(alloc, x.0)?;
        facts.push(assume(alloc, MPat::fun(alloc, &element, *sort)?)?)?;
        rest = body;
    }
    Ok(facts)
}

/// Proves q from `p -> q`. The result assumes p, each part of a conjunction on its own, without
/// `top`. `AllocError`: out of memory.
pub fn without_condition(alloc: Global, conditional: &Thm) -> Result<Thm, AllocError>
    requires { IsConditional conditional.now.conclusion }
    ensures says { IfOk result (λ t. IsFollowing conditional.now.conclusion t.conclusion) }
    ensures stays { IfOk result (StaysFollowing conditional.now) }
{
    let (condition, rest) = sides(conditional.conclusion());
    let held = held(alloc, condition)?;
    mp(alloc, &held, conditional, condition, rest)
}

// Proves a pattern from its parts.
fn held(alloc: Global, pattern: &MPat) -> Result<Thm, AllocError>
    ensures conclusion { IfOk result (λ t. t.conclusion ≡ pattern.now) }
    ensures stays { IfOk result (HoldsByParts pattern.now) }
{
    match pattern.form() {
        MForm::Top => top(alloc),
        MForm::And(left, right) => {
            let first = held(alloc, left)?;
            let second = held(alloc, right)?;
            both(alloc, &first, &second)
        }
        _ => assume(alloc, pattern.share()?),
    }
}

// Returns the sides of an implication.
fn sides(p: &MPat) -> (&MPat, &MPat)
    requires { IsConditional p.now }
    ensures { p.now ≡ imp result.0.now result.1.now }
{
    match p.form() {
        MForm::Imp(left, right) => (left, right),
        _ => unreachable!(),
    }
}
