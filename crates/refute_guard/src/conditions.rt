// A guard whose condition is not true at the terms.
ghost use Rattle.std.specs.Prelude.{◌≡◌, ◌∷◌, IfOk, []};
ghost use Rattle.ml_pat.specs.Patterns.{Pattern, and};
ghost use Rattle.ml_derived.specs.Scopes.{StaysWithin};
ghost use Rattle.term_core.specs.RulePatterns.{sort_numbers};
ghost use Rattle.ml_image.specs.Sentences.{Sentence, bottom};
ghost use Rattle.prove_term.specs.Contexts.{HasGrown};
ghost use Rattle.guard_body.specs.Arguments.{MatchTogether};
ghost use Rattle.refute_body.specs.Implications.{IsUnderTwo};
ghost use Rattle.refute_guard.specs.Repeated.{FailsTogether, IsOfBody};
ghost use Rattle.guard_body.specs.Guarded.{IsGuarded};

use crate::bindings::inverted;
use guard_body::Guarded;
use ml_derived::{and_1, lift};
use ml_kernel::Thm;
use prove_term::Cx;
use refute_body::{concerns, conclusion, conjuncts, denied_by, filled};
use std::alloc::{AllocError, Global};
use term_core::Subst;

// Proves that the body of the guard does not hold, as its condition is not true. The theorem says
// this of the condition with terms in place of its variables. The substitutions match the
// arguments.
pub(crate) fn by_condition(
    alloc: Global,
    cx: &mut Cx<'_>,
    guard: &Guarded<'_>,
    found: &[Subst],
    denial: &Thm,
) -> Result<Thm, AllocError>
    requires guard { (c : Sentence) × IsGuarded cx.old c guard.now
        × FailsTogether cx.old (sort_numbers guard.now.sorts.items) guard.now.arguments.items c
        denial.now }
    requires together { MatchTogether cx.old.program.sig (sort_numbers guard.now.sorts.items)
        guard.now.arguments.items found.now }
    ensures says { IfOk result (IsOfBody cx.new guard.now bottom) }
    ensures grown { HasGrown cx.old cx.new }
{
    let mut present = condition_of(alloc, guard)?;
    for place in 0..found.len() {
        if concerns(conclusion(&present), &found[place]) {
            let equations = inverted(alloc, cx, guard, place, &found[place])?;
            present = filled(alloc, equations, present)?;
        }
    }
    denied_by(alloc, &present, denial)
}

// `g -> b -> c`, where b is the body of the guard, and c is its condition.
fn condition_of(alloc: Global, guard: &Guarded<'_>) -> Result<Thm, AllocError>
    requires { (c m : Pattern) × (guard.now.body ≡ and c m) }
    ensures conclusion { IfOk result (λ t. (c m : Pattern) → guard.now.body ≡ and c m
        → IsUnderTwo guard.now.given.hypothesis guard.now.body c t.conclusion) }
    ensures stays { IfOk result
        (StaysWithin (guard.now.given.hypothesis ∷ guard.now.body ∷ []) []) }
{
    let (condition, members) = conjuncts(&guard.body);
    let first = and_1(alloc, condition, members)?;
    lift(alloc, &guard.given.hypothesis, &first)
}
