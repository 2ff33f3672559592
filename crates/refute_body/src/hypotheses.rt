// The hypothesis that variables are elements of their sorts, from a stronger one.
ghost use Rattle.std.specs.Prelude.{◌≡◌, ◌<◌, ℕ, List, IfOk, Some, Contains, slice_get};
ghost use Rattle.ml_pat.specs.Patterns.{imp, fun, var};
ghost use Rattle.term_core.specs.RulePatterns.{sort_numbers};
ghost use Rattle.ml_image.specs.Sentences.{sentence_image};
ghost use Rattle.prove_term.specs.Contexts.{StaysIn};
ghost use Rattle.prove_open.specs.Givens.{IsGiven, HasFact, all_sorted};

use crate::parts::{conjuncts, element, is_conjunction};
use ml_derived::{both_under, lift, top};
use ml_kernel::Thm;
use ml_pat::{MForm, MPat};
use prove_open::Given;
use prove_term::Cx;
use std::alloc::{AllocError, Global};
use term_core::SortId;

/// Proves a hypothesis on variables from a given one that has a fact on each of them. `AllocError`:
/// out of memory. The recursion is as deep as the hypothesis has variables.
#[cycle(weaker)]
pub fn weaker(
    alloc: Global,
    cx: &Cx<'_>,
    sorts: &[SortId],
    given: &Given,
    h: &MPat,
) -> Result<Thm, AllocError>
    requires given { IsGiven cx.now (sort_numbers sorts.now) given.now }
    requires hypothesis { (xs : List ℕ)
        × (sentence_image cx.now.program.sig cx.now.names
        (all_sorted (sort_numbers sorts.now) xs) ≡ Some h.now)
        × ((x : ℕ) → Contains xs x → HasFact given.now x) }
    ensures says { IfOk result (λ t. t.conclusion ≡ imp given.now.hypothesis h.now) }
    ensures stays { IfOk result (StaysIn cx.now) }
{
    if !is_conjunction(h) {
        return lift(alloc, &given.hypothesis, &top(alloc)?);
    }
    let (first, rest) = conjuncts(h);
    let others = weaker(alloc, cx, sorts, given, rest)?;
    let fact = fact_on(given, first);
    both_under(alloc, fact, &others, &given.hypothesis, first, rest)
}

// The fact on a variable that is an element of a sort.
fn fact_on<'a>(given: &'a Given, one: &MPat) -> &'a Thm
    requires { (x s : ℕ) × (one.now ≡ fun (var x) s) × HasFact given.now x }
    ensures { (x s : ℕ) → one.now ≡ fun (var x) s
        → slice_get given.now.facts.items x ≡ Some (Some result.now) }
{
    let (below, _) = element(one);
    let MForm::Var(x) = below.form() else {
        unreachable!()
    };
    match &given.facts[x.0 as usize] {
        Some(fact) => fact,
        None => unreachable!(),
    }
}
