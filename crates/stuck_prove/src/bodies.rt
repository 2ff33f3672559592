// What says that a configuration meets a rule, and what follows from it under the rule's hypothesis.
ghost use Rattle.std.specs.Prelude.{◌≡◌, ◌∷◌, IfOk, []};
ghost use Rattle.ml_pat.specs.Patterns.{Pattern, and, bot, imp, not};
ghost use Rattle.ml_derived.specs.Scopes.{StaysWithin};
ghost use Rattle.stuck_prove.specs.Settings.{AreApart, AreInverted};

use ml_derived::{and_1, and_2, both_under, chain, chain_under, lift, not_to_bot, unpack};
use ml_kernel::Thm;
use ml_pat::MPat;
use refute_body::{conjuncts, denied, sides};
use std::alloc::{AllocError, Global};

// `(t & q) & c -> q & t`. `both` is `q & t`.
fn inside(alloc: Global, both: &MPat, c: &MPat) -> Result<Thm, AllocError>
    requires { (q t : Pattern) × (both.now ≡ and q t) }
    ensures conclusion { IfOk result (λ r. (q t : Pattern) → both.now ≡ and q t
        → r.conclusion ≡ imp (and (and t q) c.now) (and q t)) }
    ensures stays { IfOk result (StaysWithin (both.now ∷ c.now ∷ []) []) }
{
    let (q, t) = conjuncts(both);
    let turned = MPat::and(alloc, t, q)?;
    let body = MPat::and(alloc, &turned, c)?;
    let first = and_1(alloc, &turned, c)?;
    let left = chain(alloc, &first, &and_2(alloc, t, q)?)?;
    let right = chain(alloc, &first, &and_1(alloc, t, q)?)?;
    both_under(alloc, &left, &right, &body, q, t)
}

// `g -> (t & q) & c -> bot`, from `h -> ~(q & t)` and `g -> h`.
pub(crate) fn none_in(
    alloc: Global,
    g: &MPat,
    c: &MPat,
    none: &Thm,
    weaker: &Thm,
) -> Result<Thm, AllocError>
    requires { AreApart g.now none.now.conclusion weaker.now.conclusion }
    ensures conclusion { IfOk result (λ r. (h q t : Pattern)
        → none.now.conclusion ≡ imp h (not (and q t))
        → r.conclusion ≡ imp g.now (imp (and (and t q) c.now) bot)) }
    ensures stays { IfOk result
        (StaysWithin (g.now ∷ c.now ∷ []) (none.now ∷ weaker.now ∷ [])) }
{
    let apart = chain(alloc, weaker, none)?;
    let (_, rest) = sides(apart.conclusion());
    let both = denied(rest);
    let nothing = not_to_bot(alloc, &apart, g, both)?;
    from_both(alloc, g, c, both, &nothing)
}

// `g -> (t & q) & c -> e`, from `h & (q & t) -> e` and `g -> h`.
pub(crate) fn equations_in(
    alloc: Global,
    g: &MPat,
    c: &MPat,
    rule: &Thm,
    weaker: &Thm,
) -> Result<Thm, AllocError>
    requires { AreInverted g.now rule.now.conclusion weaker.now.conclusion }
    ensures conclusion { IfOk result (λ r. (h q t e : Pattern)
        → rule.now.conclusion ≡ imp (and h (and q t)) e
        → r.conclusion ≡ imp g.now (imp (and (and t q) c.now) e)) }
    ensures stays { IfOk result
        (StaysWithin (g.now ∷ c.now ∷ []) (rule.now ∷ weaker.now ∷ [])) }
{
    let (premise, e) = sides(rule.conclusion());
    let (h, both) = conjuncts(premise);
    let open = unpack(alloc, rule, h, both, e)?;
    let under = chain(alloc, weaker, &open)?;
    from_both(alloc, g, c, both, &under)
}

// `g -> (t & q) & c -> e`, from `g -> q & t -> e`. `both` is `q & t`.
fn from_both(alloc: Global, g: &MPat, c: &MPat, both: &MPat, rule: &Thm) -> Result<Thm, AllocError>
    requires both { (q t : Pattern) × (both.now ≡ and q t) }
    requires rule { (e : Pattern) × (rule.now.conclusion ≡ imp g.now (imp both.now e)) }
    ensures conclusion { IfOk result (λ r. (q t e : Pattern) → both.now ≡ and q t
        → rule.now.conclusion ≡ imp g.now (imp both.now e)
        → r.conclusion ≡ imp g.now (imp (and (and t q) c.now) e)) }
    ensures stays { IfOk result (StaysWithin (g.now ∷ c.now ∷ []) (rule.now ∷ [])) }
{
    let (_, rest) = sides(rule.conclusion());
    let (_, e) = sides(rest);
    let inside = inside(alloc, both, c)?;
    let (body, _) = sides(inside.conclusion());
    chain_under(alloc, &lift(alloc, g, &inside)?, rule, g, body, both, e)
}

// `g -> (t & q) & c -> c`. `both` is `q & t`.
pub(crate) fn condition_in(
    alloc: Global,
    g: &MPat,
    both: &MPat,
    c: &MPat,
) -> Result<Thm, AllocError>
    requires { (q t : Pattern) × (both.now ≡ and q t) }
    ensures conclusion { IfOk result (λ r. (q t : Pattern) → both.now ≡ and q t
        → r.conclusion ≡ imp g.now (imp (and (and t q) c.now) c.now)) }
    ensures stays { IfOk result (StaysWithin (g.now ∷ both.now ∷ c.now ∷ []) []) }
{
    let (q, t) = conjuncts(both);
    let turned = MPat::and(alloc, t, q)?;
    lift(alloc, g, &and_2(alloc, &turned, c)?)
}
