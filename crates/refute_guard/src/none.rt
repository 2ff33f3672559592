// None of several guards holds.
ghost use Rattle.std.specs.Prelude.{◌≡◌, ◌∷◌, ℕ, List, IfOk, []};
ghost use Rattle.ml_pat.specs.Patterns.{Pattern, bot, imp, or};
ghost use Rattle.ml_derived.specs.Scopes.{StaysWithin};
ghost use Rattle.term_core.specs.Terms.{Forest};
ghost use Rattle.rule_core.specs.Rules.{Equation, Guard};
ghost use Rattle.prove_term.specs.Contexts.{Context};
ghost use Rattle.refute_guard.specs.Guards.{DenyGuards, SaysNoGuard};
ghost use Rattle.refute_guard.specs.Implications.{IsDenial};

use ml_derived::{itself, mp, or_3, to_not};
use ml_kernel::Thm;
use ml_pat::MPat;
use refute_body::sides;
use std::alloc::{AllocError, Global};

/// Proves that none of some guards holds, from theorems that each of them does not hold, in order.
/// `AllocError`: out of memory.
pub fn no_guard(alloc: Global, denied: &[Thm]) -> Result<Thm, AllocError>
    requires { (cx : Context) × (equations : List Equation) × (k : ℕ) × (guards : List Guard)
        × (ts : Forest) × DenyGuards cx equations k guards ts denied.now }
    ensures { IfOk result (λ t. (cx : Context) (equations : List Equation) (k : ℕ)
        (guards : List Guard) (ts : Forest) → DenyGuards cx equations k guards ts denied.now
        → SaysNoGuard cx equations k guards ts t) }
{
    let mut present = itself(alloc, &MPat::bot(alloc)?)?;
    for i in (0..denied.len()).rev() {
        present = one_more(alloc, &denied[i], &present)?;
    }
    let (some, _) = sides(present.conclusion());
    to_not(alloc, &present, some)
}

// `e | n -> bot`, from `e -> bot` and `n -> bot`.
fn one_more(alloc: Global, one: &Thm, others: &Thm) -> Result<Thm, AllocError>
    requires one { IsDenial one.now }
    requires others { IsDenial others.now }
    ensures conclusion { IfOk result (λ t. (e n : Pattern) → one.now.conclusion ≡ imp e bot
        → others.now.conclusion ≡ imp n bot → t.conclusion ≡ imp (or e n) bot) }
    ensures stays { IfOk result (StaysWithin [] (one.now ∷ others.now ∷ [])) }
{
    let (e, nothing) = sides(one.conclusion());
    let (n, _) = sides(others.conclusion());
    let rule = or_3(alloc, e, n, nothing)?;
    let (_, rest) = sides(rule.conclusion());
    let half = mp(alloc, one, &rule, one.conclusion(), rest)?;
    let (_, whole) = sides(rest);
    mp(alloc, others, &half, others.conclusion(), whole)
}
