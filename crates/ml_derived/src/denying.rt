// Rules that carry a refutation under a hypothesis r further: up through an injection, over to an
// equal pattern, and to two equations that deny each other.
ghost use Rattle.std.specs.Prelude.{◌≡◌, [], ◌∷◌, IfOk, Some};
ghost use Rattle.ml_pat.specs.Patterns.{bot, imp, not, equal, var};
ghost use Rattle.ml_pat.specs.Judgements.{substituted};
ghost use Rattle.ml_derived.specs.Scopes.{StaysWithin};

use crate::hypothetical::{bot_to_not, chain_under, from_not, not_to_bot, then, under_two};
use crate::implications::chained;
use crate::rules::{eq_el, mp};
use ml_kernel::Thm;
use ml_pat::{MPat, VarNo};
use std::alloc::{AllocError, Global};

/// `r -> ~p`, from `r -> p -> q` and `r -> ~q`. An error: out of memory.
pub fn denied_by(
    alloc: Global,
    a: &Thm,
    b: &Thm,
    r: &MPat,
    p: &MPat,
    q: &MPat,
) -> Result<Thm, AllocError>
    requires a { a.now.conclusion ≡ imp r.now (imp p.now q.now) }
    requires b { b.now.conclusion ≡ imp r.now (not q.now) }
    ensures conclusion { IfOk result (λ t. t.conclusion ≡ imp r.now (not p.now)) }
    ensures stays { IfOk result (StaysWithin [] (a.now ∷ b.now ∷ [])) }
{
    let nothing = MPat::bot(alloc)?;
    let denied = not_to_bot(alloc, b, r, q)?;
    let none = chain_under(alloc, a, &denied, r, p, q, &nothing)?;
    bot_to_not(alloc, &none, r, p)
}

/// `r -> ~(p = t)`, from `r -> ~(p = q)` and `q = t`. The variable y is free in none of them. An
/// error: out of memory.
pub fn unequal_to(
    alloc: Global,
    a: &Thm,
    eq: &Thm,
    r: &MPat,
    p: &MPat,
    q: &MPat,
    t: &MPat,
    y: VarNo,
) -> Result<Thm, AllocError>
    requires a { a.now.conclusion ≡ imp r.now (not (equal p.now q.now)) }
    requires eq { eq.now.conclusion ≡ equal q.now t.now }
    requires from { substituted (not (equal p.now (var y.0))) y.0 q.now
        ≡ Some (not (equal p.now q.now)) }
    requires to { substituted (not (equal p.now (var y.0))) y.0 t.now
        ≡ Some (not (equal p.now t.now)) }
    ensures conclusion { IfOk result (λ u. u.conclusion ≡ imp r.now (not (equal p.now t.now))) }
    ensures stays { IfOk result (StaysWithin (var y.0 ∷ []) (a.now ∷ eq.now ∷ [])) }
{
    let mark = MPat::var(alloc, y)?;
    let place = MPat::equal(alloc, p, &mark)?;
    let context = MPat::not(alloc, &place)?;
    let first = MPat::equal(alloc, p, q)?;
    let second = MPat::equal(alloc, p, t)?;
    let from = MPat::not(alloc, &first)?;
    let to = MPat::not(alloc, &second)?;
    let rule = eq_el(alloc, q, t, &context, &from, &to, y)?;
    let moved = mp(
        alloc,
        eq,
        &rule,
        eq.conclusion(),
        &MPat::imp(alloc, &from, &to)?,
    )?;
    chained(alloc, a, &moved, r, &from, &to)
}

/// `r -> ~w`, from `r -> w -> x = p`, `r -> w -> x = q` and `x = p -> x = q -> bot`. An error: out
/// of memory.
pub fn denied_by_two(
    alloc: Global,
    one: &Thm,
    other: &Thm,
    clash: &Thm,
    r: &MPat,
    w: &MPat,
    first: &MPat,
    second: &MPat,
) -> Result<Thm, AllocError>
    requires one { one.now.conclusion ≡ imp r.now (imp w.now first.now) }
    requires other { other.now.conclusion ≡ imp r.now (imp w.now second.now) }
    requires clash { clash.now.conclusion ≡ imp first.now (imp second.now bot) }
    ensures conclusion { IfOk result (λ t. t.conclusion ≡ imp r.now (not w.now)) }
    ensures stays { IfOk result
        (StaysWithin [] (one.now ∷ other.now ∷ clash.now ∷ [])) }
{
    let nothing = MPat::bot(alloc)?;
    let without = MPat::imp(alloc, second, &nothing)?;
    let denied = then(alloc, one, clash, r, w, first, &without)?;
    let none = under_two(alloc, other, &denied, r, w, second, &nothing)?;
    bot_to_not(alloc, &none, r, w)
}

/// `x = p -> x = q -> bot`, from `~(p = q)`. The variable y is free in none of them. An error: out
/// of memory.
pub fn not_both(
    alloc: Global,
    differ: &Thm,
    x: &MPat,
    p: &MPat,
    q: &MPat,
    y: VarNo,
) -> Result<Thm, AllocError>
    requires differ { differ.now.conclusion ≡ not (equal p.now q.now) }
    requires from { substituted (equal (var y.0) q.now) y.0 x.now ≡ Some (equal x.now q.now) }
    requires to { substituted (equal (var y.0) q.now) y.0 p.now ≡ Some (equal p.now q.now) }
    ensures conclusion { IfOk result
        (λ t. t.conclusion ≡ imp (equal x.now p.now) (imp (equal x.now q.now) bot)) }
    ensures stays { IfOk result (StaysWithin (x.now ∷ var y.0 ∷ []) (differ.now ∷ [])) }
{
    let nothing = MPat::bot(alloc)?;
    let first = MPat::equal(alloc, x, p)?;
    let second = MPat::equal(alloc, x, q)?;
    let same = MPat::equal(alloc, p, q)?;
    let mark = MPat::var(alloc, y)?;
    let context = MPat::equal(alloc, &mark, q)?;
    let rule = eq_el(alloc, x, p, &context, &second, &same, y)?;
    let denied = from_not(alloc, differ, &same)?;
    then(alloc, &rule, &denied, &first, &second, &same, &nothing)
}
