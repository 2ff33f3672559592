// Small rules of implication under hypotheses. In the comments h, k and r are what a rule reasons
// under. An error is: out of memory.
ghost use Rattle.std.specs.Prelude.{◌≡◌, [], ◌∷◌, IfOk};
ghost use Rattle.ml_pat.specs.Patterns.{bot, imp, not, and};
ghost use Rattle.ml_derived.specs.Scopes.{StaysWithin};

use crate::implications::{chained, distributed, lift, under};
use crate::rules::{and_1, and_2, and_3, mp, not_1, not_2, p_1, p_2, p_3};
use ml_kernel::Thm;
use ml_pat::MPat;
use std::alloc::{AllocError, Global};

/// `p -> p`.
pub fn itself(alloc: Global, p: &MPat) -> Result<Thm, AllocError>
    ensures conclusion { IfOk result (λ t. t.conclusion ≡ imp p.now p.now) }
    ensures stays { IfOk result (StaysWithin (p.now ∷ []) []) }
{
    let same = MPat::imp(alloc, p, p)?;
    let first = p_1(alloc, p, p)?;
    let second = p_1(alloc, p, &same)?;
    under(alloc, &first, &second, p, &same, p)
}

/// `h -> p & q`, from `h -> p` and `h -> q`.
pub fn both_under(
    alloc: Global,
    a: &Thm,
    b: &Thm,
    h: &MPat,
    p: &MPat,
    q: &MPat,
) -> Result<Thm, AllocError>
    requires a { a.now.conclusion ≡ imp h.now p.now }
    requires b { b.now.conclusion ≡ imp h.now q.now }
    ensures conclusion { IfOk result (λ t. t.conclusion ≡ imp h.now (and p.now q.now)) }
    ensures stays { IfOk result (StaysWithin [] (a.now ∷ b.now ∷ [])) }
{
    let joined = MPat::and(alloc, p, q)?;
    let wanting = MPat::imp(alloc, q, &joined)?;
    let joining = and_3(alloc, p, q)?;
    let open = chained(alloc, a, &joining, h, p, &wanting)?;
    under(alloc, b, &open, h, q, &joined)
}

/// `p -> h -> q`, from `h -> p -> q`.
pub fn swap(alloc: Global, a: &Thm, h: &MPat, p: &MPat, q: &MPat) -> Result<Thm, AllocError>
    requires { a.now.conclusion ≡ imp h.now (imp p.now q.now) }
    ensures conclusion { IfOk result (λ t. t.conclusion ≡ imp p.now (imp h.now q.now)) }
    ensures stays { IfOk result (StaysWithin [] (a.now ∷ [])) }
{
    let left = MPat::imp(alloc, h, p)?;
    let right = MPat::imp(alloc, h, q)?;
    let sides = distributed(alloc, a, h, p, q, &left, &right)?;
    let weaker = p_1(alloc, p, h)?;
    chained(alloc, &weaker, &sides, p, &left, &right)
}

/// `h -> p -> r`, from `h -> p -> q` and `q -> r`.
pub fn then(
    alloc: Global,
    a: &Thm,
    b: &Thm,
    h: &MPat,
    p: &MPat,
    q: &MPat,
    r: &MPat,
) -> Result<Thm, AllocError>
    requires a { a.now.conclusion ≡ imp h.now (imp p.now q.now) }
    requires b { b.now.conclusion ≡ imp q.now r.now }
    ensures conclusion { IfOk result (λ t. t.conclusion ≡ imp h.now (imp p.now r.now)) }
    ensures stays { IfOk result
        (StaysWithin [] (a.now ∷ b.now ∷ [])) }
{
    let left = MPat::imp(alloc, p, q)?;
    let right = MPat::imp(alloc, p, r)?;
    let lifted = lift(alloc, p, b)?;
    let sides = distributed(alloc, &lifted, p, q, r, &left, &right)?;
    chained(alloc, a, &sides, h, &left, &right)
}

/// `h -> k -> q`, from `h -> k -> p` and `h -> k -> p -> q`.
pub fn under_two(
    alloc: Global,
    a: &Thm,
    b: &Thm,
    h: &MPat,
    k: &MPat,
    p: &MPat,
    q: &MPat,
) -> Result<Thm, AllocError>
    requires a { a.now.conclusion ≡ imp h.now (imp k.now p.now) }
    requires b { b.now.conclusion ≡ imp h.now (imp k.now (imp p.now q.now)) }
    ensures conclusion { IfOk result (λ t. t.conclusion ≡ imp h.now (imp k.now q.now)) }
    ensures stays { IfOk result
        (StaysWithin [] (a.now ∷ b.now ∷ [])) }
{
    let left = MPat::imp(alloc, k, p)?;
    let right = MPat::imp(alloc, k, q)?;
    let rule = p_2(alloc, k, p, q)?;
    let inner = MPat::imp(alloc, k, &MPat::imp(alloc, p, q)?)?;
    let sides = MPat::imp(alloc, &left, &right)?;
    let open = chained(alloc, b, &rule, h, &inner, &sides)?;
    under(alloc, a, &open, h, &left, &right)
}

/// `h -> p -> r`, from `h -> p -> q` and `h -> q -> r`.
pub fn chain_under(
    alloc: Global,
    a: &Thm,
    b: &Thm,
    h: &MPat,
    p: &MPat,
    q: &MPat,
    r: &MPat,
) -> Result<Thm, AllocError>
    requires a { a.now.conclusion ≡ imp h.now (imp p.now q.now) }
    requires b { b.now.conclusion ≡ imp h.now (imp q.now r.now) }
    ensures conclusion { IfOk result (λ t. t.conclusion ≡ imp h.now (imp p.now r.now)) }
    ensures stays { IfOk result
        (StaysWithin [] (a.now ∷ b.now ∷ [])) }
{
    let next = MPat::imp(alloc, q, r)?;
    let weaker = p_1(alloc, &next, p)?;
    let below = MPat::imp(alloc, p, &next)?;
    let open = chained(alloc, b, &weaker, h, &next, &below)?;
    under_two(alloc, a, &open, h, p, q, r)
}

/// `h & p -> q`, from `h -> p -> q`.
pub fn pack(alloc: Global, a: &Thm, h: &MPat, p: &MPat, q: &MPat) -> Result<Thm, AllocError>
    requires { a.now.conclusion ≡ imp h.now (imp p.now q.now) }
    ensures conclusion { IfOk result (λ t. t.conclusion ≡ imp (and h.now p.now) q.now) }
    ensures stays { IfOk result (StaysWithin [] (a.now ∷ [])) }
{
    let both = MPat::and(alloc, h, p)?;
    let rest = MPat::imp(alloc, p, q)?;
    let first = and_1(alloc, h, p)?;
    let open = chained(alloc, &first, a, &both, h, &rest)?;
    let second = and_2(alloc, h, p)?;
    under(alloc, &second, &open, &both, p, q)
}

/// `h -> p -> q`, from `h & p -> q`.
pub fn unpack(alloc: Global, a: &Thm, h: &MPat, p: &MPat, q: &MPat) -> Result<Thm, AllocError>
    requires { a.now.conclusion ≡ imp (and h.now p.now) q.now }
    ensures conclusion { IfOk result (λ t. t.conclusion ≡ imp h.now (imp p.now q.now)) }
    ensures stays { IfOk result (StaysWithin [] (a.now ∷ [])) }
{
    let both = MPat::and(alloc, h, p)?;
    let joining = and_3(alloc, h, p)?;
    then(alloc, &joining, a, h, p, &both, q)
}

/// `(q -> r) -> p -> r`, from `p -> q`.
pub fn before(alloc: Global, a: &Thm, p: &MPat, q: &MPat, r: &MPat) -> Result<Thm, AllocError>
    requires { a.now.conclusion ≡ imp p.now q.now }
    ensures conclusion { IfOk result
        (λ t. t.conclusion ≡ imp (imp q.now r.now) (imp p.now r.now)) }
    ensures stays { IfOk result (StaysWithin (r.now ∷ []) (a.now ∷ [])) }
{
    let after = MPat::imp(alloc, q, r)?;
    let whole = MPat::imp(alloc, p, r)?;
    let first = MPat::imp(alloc, p, q)?;
    let below = MPat::imp(alloc, p, &after)?;
    let sides = MPat::imp(alloc, &first, &whole)?;
    let weaker = p_1(alloc, &after, p)?;
    let rule = p_2(alloc, p, q, r)?;
    let open = chained(alloc, &weaker, &rule, &after, &below, &sides)?;
    let lifted = lift(alloc, &after, a)?;
    under(alloc, &lifted, &open, &after, &first, &whole)
}

/// `h -> q -> p -> r`, from `h -> p -> q -> r`.
pub fn swap_under(
    alloc: Global,
    a: &Thm,
    h: &MPat,
    p: &MPat,
    q: &MPat,
    r: &MPat,
) -> Result<Thm, AllocError>
    requires { a.now.conclusion ≡ imp h.now (imp p.now (imp q.now r.now)) }
    ensures conclusion { IfOk result
        (λ t. t.conclusion ≡ imp h.now (imp q.now (imp p.now r.now))) }
    ensures stays { IfOk result
        (StaysWithin [] (a.now ∷ [])) }
{
    let first = MPat::imp(alloc, p, &MPat::imp(alloc, q, r)?)?;
    let second = MPat::imp(alloc, q, &MPat::imp(alloc, p, r)?)?;
    let rule = swapping(alloc, p, q, r)?;
    chained(alloc, a, &rule, h, &first, &second)
}

// `(p -> q -> r) -> q -> p -> r`.
fn swapping(alloc: Global, p: &MPat, q: &MPat, r: &MPat) -> Result<Thm, AllocError>
    ensures conclusion { IfOk result (λ t. t.conclusion
        ≡ imp (imp p.now (imp q.now r.now)) (imp q.now (imp p.now r.now))) }
    ensures stays { IfOk result (StaysWithin (p.now ∷ q.now ∷ r.now ∷ []) []) }
{
    let first = MPat::imp(alloc, p, &MPat::imp(alloc, q, r)?)?;
    let whole = MPat::imp(alloc, p, r)?;
    let step = MPat::imp(alloc, p, q)?;
    let sides = MPat::imp(alloc, &step, &whole)?;
    let second = MPat::imp(alloc, q, &whole)?;
    let rule = p_2(alloc, p, q, r)?;
    let weaker = p_1(alloc, q, p)?;
    let into = before(alloc, &weaker, q, &step, &whole)?;
    chained(alloc, &rule, &into, &first, &sides, &second)
}

/// `h -> a -> e`, from `h -> (e -> bot) -> a -> bot`.
pub fn back(alloc: Global, thm: &Thm, h: &MPat, e: &MPat, a: &MPat) -> Result<Thm, AllocError>
    requires { thm.now.conclusion ≡ imp h.now (imp (imp e.now bot) (imp a.now bot)) }
    ensures conclusion { IfOk result (λ t. t.conclusion ≡ imp h.now (imp a.now e.now)) }
    ensures stays { IfOk result (StaysWithin [] (thm.now ∷ [])) }
{
    let nothing = MPat::bot(alloc)?;
    let denied = MPat::imp(alloc, e, &nothing)?;
    let swapped = swap_under(alloc, thm, h, &denied, a, &nothing)?;
    let doubled = MPat::imp(alloc, &denied, &nothing)?;
    let rule = p_3(alloc, e)?;
    then(alloc, &swapped, &rule, h, a, &doubled, e)
}

/// `~p`, from `p -> bot`.
pub fn to_not(alloc: Global, a: &Thm, p: &MPat) -> Result<Thm, AllocError>
    requires { a.now.conclusion ≡ imp p.now bot }
    ensures conclusion { IfOk result (λ t. t.conclusion ≡ not p.now) }
    ensures stays { IfOk result (StaysWithin [] (a.now ∷ [])) }
{
    let rule = not_2(alloc, p)?;
    mp(alloc, a, &rule, a.conclusion(), &MPat::not(alloc, p)?)
}

/// `p -> bot`, from `~p`.
pub fn from_not(alloc: Global, a: &Thm, p: &MPat) -> Result<Thm, AllocError>
    requires { a.now.conclusion ≡ not p.now }
    ensures conclusion { IfOk result (λ t. t.conclusion ≡ imp p.now bot) }
    ensures stays { IfOk result (StaysWithin [] (a.now ∷ [])) }
{
    let rule = not_1(alloc, p)?;
    let denied = MPat::imp(alloc, p, &MPat::bot(alloc)?)?;
    mp(alloc, a, &rule, a.conclusion(), &denied)
}

/// `r -> p -> bot`, from `r -> ~p`.
pub fn not_to_bot(alloc: Global, a: &Thm, r: &MPat, p: &MPat) -> Result<Thm, AllocError>
    requires { a.now.conclusion ≡ imp r.now (not p.now) }
    ensures conclusion { IfOk result (λ t. t.conclusion ≡ imp r.now (imp p.now bot)) }
    ensures stays { IfOk result (StaysWithin [] (a.now ∷ [])) }
{
    let rule = not_1(alloc, p)?;
    let denied = MPat::imp(alloc, p, &MPat::bot(alloc)?)?;
    chained(alloc, a, &rule, r, &MPat::not(alloc, p)?, &denied)
}

/// `r -> ~p`, from `r -> p -> bot`.
pub fn bot_to_not(alloc: Global, a: &Thm, r: &MPat, p: &MPat) -> Result<Thm, AllocError>
    requires { a.now.conclusion ≡ imp r.now (imp p.now bot) }
    ensures conclusion { IfOk result (λ t. t.conclusion ≡ imp r.now (not p.now)) }
    ensures stays { IfOk result (StaysWithin [] (a.now ∷ [])) }
{
    let rule = not_2(alloc, p)?;
    let denied = MPat::imp(alloc, p, &MPat::bot(alloc)?)?;
    chained(alloc, a, &rule, r, &denied, &MPat::not(alloc, p)?)
}

/// `r -> q & p -> bot`, from `r -> p & q -> bot`.
pub fn turn(alloc: Global, a: &Thm, r: &MPat, p: &MPat, q: &MPat) -> Result<Thm, AllocError>
    requires { a.now.conclusion ≡ imp r.now (imp (and p.now q.now) bot) }
    ensures conclusion { IfOk result
        (λ t. t.conclusion ≡ imp r.now (imp (and q.now p.now) bot)) }
    ensures stays { IfOk result (StaysWithin [] (a.now ∷ [])) }
{
    let nothing = MPat::bot(alloc)?;
    let given = MPat::and(alloc, p, q)?;
    let turned = MPat::and(alloc, q, p)?;
    let second = and_2(alloc, q, p)?;
    let first = and_1(alloc, q, p)?;
    let into = both_under(alloc, &second, &first, &turned, p, q)?;
    let rule = before(alloc, &into, &turned, &given, &nothing)?;
    let from = MPat::imp(alloc, &given, &nothing)?;
    let to = MPat::imp(alloc, &turned, &nothing)?;
    chained(alloc, a, &rule, r, &from, &to)
}

/// `p & t -> q & t`, from `p -> q`.
pub fn wider(alloc: Global, a: &Thm, p: &MPat, q: &MPat, t: &MPat) -> Result<Thm, AllocError>
    requires { a.now.conclusion ≡ imp p.now q.now }
    ensures conclusion { IfOk result
        (λ u. u.conclusion ≡ imp (and p.now t.now) (and q.now t.now)) }
    ensures stays { IfOk result (StaysWithin (t.now ∷ []) (a.now ∷ [])) }
{
    let both = MPat::and(alloc, p, t)?;
    let first = and_1(alloc, p, t)?;
    let into = chained(alloc, &first, a, &both, p, q)?;
    let second = and_2(alloc, p, t)?;
    both_under(alloc, &into, &second, &both, q, t)
}
