// What follows from a member of a guard's body: from the statement that a term is in an argument.
ghost use Rattle.std.specs.Prelude.{◌≡◌, ◌<◌, ◌∷◌, List, IfOk, [], Some, length, slice_get};
ghost use Rattle.ml_pat.specs.Patterns.{Pattern, bot, imp, and, member};
ghost use Rattle.ml_pat.specs.Judgements.{IsPredicate};
ghost use Rattle.ml_derived.specs.Scopes.{StaysWithin};
ghost use Rattle.refute_guard.specs.Implications.{all_of, AreDisjointAt, IsNoneAt, AreInvertedAt};
ghost use Rattle.refute_guard.specs.Implications.{IsInvertedAt};

use ml_derived::{
    and_1, and_2, back, bot_to_not, chain, chain_under, lift, mem_no, not_to_bot, turn, unpack,
};
use ml_kernel::Thm;
use ml_pat::MPat;
use refute_body::{conjuncts, denied, sides};
use std::alloc::{AllocError, Global};

// `b -> m`, where b is a conjunction of a condition and of members, and m is the member at a place.
pub(crate) fn member_at(alloc: Global, b: &MPat, place: usize) -> Result<Thm, AllocError>
    requires { (c : Pattern) × (ms : List Pattern) × (b.now ≡ and c (all_of ms))
        × (place < length ms) }
    ensures conclusion { IfOk result (λ t. (c m : Pattern) (ms : List Pattern)
        → b.now ≡ and c (all_of ms) → slice_get ms place ≡ Some m → t.conclusion ≡ imp b.now m) }
    ensures stays { IfOk result (StaysWithin (b.now ∷ []) []) }
{
    let (c, all) = conjuncts(b);
    let mut present = and_2(alloc, c, all)?;
    for _ in 0..place {
        present = without_first(alloc, &present)?;
    }
    let (_, rest) = sides(present.conclusion());
    let (first, others) = conjuncts(rest);
    chain(alloc, &present, &and_1(alloc, first, others)?)
}

// `b -> r`, from `b -> m & r`.
fn without_first(alloc: Global, present: &Thm) -> Result<Thm, AllocError>
    requires { (b m r : Pattern) × (present.now.conclusion ≡ imp b (and m r)) }
    ensures conclusion { IfOk result (λ t. (b m r : Pattern)
        → present.now.conclusion ≡ imp b (and m r) → t.conclusion ≡ imp b r) }
    ensures stays { IfOk result (StaysWithin [] (present.now ∷ [])) }
{
    let (_, rest) = sides(present.conclusion());
    let (first, others) = conjuncts(rest);
    chain(alloc, present, &and_2(alloc, first, others)?)
}

// `g -> b -> bot`, from `h -> ~(q & t)`, `g -> h` and `b -> t in q`, where g is everything or
// nothing.
pub(crate) fn none_at(
    alloc: Global,
    g: &MPat,
    none: &Thm,
    weaker: &Thm,
    inside: &Thm,
) -> Result<Thm, AllocError>
    requires { AreDisjointAt g.now none.now.conclusion weaker.now.conclusion
        inside.now.conclusion }
    ensures conclusion { IfOk result
        (λ t. IsNoneAt g.now inside.now.conclusion t.conclusion) }
    ensures stays { IfOk result
        (StaysWithin (g.now ∷ []) (none.now ∷ weaker.now ∷ inside.now ∷ [])) }
{
    let apart = chain(alloc, weaker, none)?;
    let (_, rest) = sides(apart.conclusion());
    let both = denied(rest);
    let nothing = not_to_bot(alloc, &apart, g, both)?;
    let outside = outside(alloc, g, &nothing, both)?;
    after_member(alloc, g, inside, &outside)
}

// `r -> t in q -> bot`, from `r -> q & t -> bot`, where r is everything or nothing. `both` is
// `q & t`.
fn outside(alloc: Global, r: &MPat, none: &Thm, both: &MPat) -> Result<Thm, AllocError>
    requires none { none.now.conclusion ≡ imp r.now (imp both.now bot) }
    requires both { (q t : Pattern) × (both.now ≡ and q t) }
    requires predicate { IsPredicate r.now }
    ensures conclusion { IfOk result (λ u. (q t : Pattern) → both.now ≡ and q t
        → u.conclusion ≡ imp r.now (imp (member t q) bot)) }
    ensures stays { IfOk result (StaysWithin [] (none.now ∷ [])) }
{
    let (q, t) = conjuncts(both);
    let turned = turn(alloc, none, r, q, t)?;
    let denial = bot_to_not(alloc, &turned, r, &MPat::and(alloc, t, q)?)?;
    let outside = mem_no(alloc, &denial, t, q, r)?;
    not_to_bot(alloc, &outside, r, &MPat::member(alloc, t, q)?)
}

// `g -> b -> e`, from `b -> m` and `g -> m -> e`.
fn after_member(alloc: Global, g: &MPat, inside: &Thm, rule: &Thm) -> Result<Thm, AllocError>
    requires { (b m e : Pattern) × (inside.now.conclusion ≡ imp b m)
        × (rule.now.conclusion ≡ imp g.now (imp m e)) }
    ensures conclusion { IfOk result (λ t. (b m e : Pattern) → inside.now.conclusion ≡ imp b m
        → rule.now.conclusion ≡ imp g.now (imp m e) → t.conclusion ≡ imp g.now (imp b e)) }
    ensures stays { IfOk result (StaysWithin (g.now ∷ []) (inside.now ∷ rule.now ∷ [])) }
{
    let (b, m) = sides(inside.conclusion());
    let (_, rest) = sides(rule.conclusion());
    let (_, e) = sides(rest);
    chain_under(alloc, &lift(alloc, g, inside)?, rule, g, b, m, e)
}

// `g -> b -> e`, from `h & (q & t) -> e`, `g -> h` and `b -> t in q`, where g and e are everything or
// nothing.
pub(crate) fn inverted_at(
    alloc: Global,
    g: &MPat,
    rule: &Thm,
    weaker: &Thm,
    inside: &Thm,
) -> Result<Thm, AllocError>
    requires { AreInvertedAt g.now rule.now.conclusion weaker.now.conclusion
        inside.now.conclusion }
    ensures conclusion { IfOk result (λ t. IsInvertedAt g.now rule.now.conclusion
        inside.now.conclusion t.conclusion) }
    ensures stays { IfOk result
        (StaysWithin (g.now ∷ []) (rule.now ∷ weaker.now ∷ inside.now ∷ [])) }
{
    let (premise, e) = sides(rule.conclusion());
    let (h, both) = conjuncts(premise);
    let open = unpack(alloc, rule, h, both, e)?;
    let under = chain(alloc, weaker, &open)?;
    let member = of_member(alloc, g, &under, both, e)?;
    after_member(alloc, g, inside, &member)
}

// `g -> t in q -> e`, from `g -> q & t -> e`, where g and e are everything or nothing. `both` is
// `q & t`.
fn of_member(alloc: Global, g: &MPat, rule: &Thm, both: &MPat, e: &MPat) -> Result<Thm, AllocError>
    requires rule { rule.now.conclusion ≡ imp g.now (imp both.now e.now) }
    requires both { (q t : Pattern) × (both.now ≡ and q t) }
    requires predicate { IsPredicate g.now }
    requires equations { IsPredicate e.now }
    ensures conclusion { IfOk result (λ u. (q t : Pattern) → both.now ≡ and q t
        → u.conclusion ≡ imp g.now (imp (member t q) e.now)) }
    ensures stays { IfOk result (StaysWithin [] (rule.now ∷ [])) }
{
    let nothing = MPat::bot(alloc)?;
    let denial = MPat::imp(alloc, e, &nothing)?;
    let r = MPat::and(alloc, g, &denial)?;
    let weaker = chain(alloc, &and_1(alloc, g, &denial)?, rule)?;
    let against = and_2(alloc, g, &denial)?;
    let none = chain_under(alloc, &weaker, &against, &r, both, e, &nothing)?;
    let outside = outside(alloc, &r, &none, both)?;
    let (_, rest) = sides(outside.conclusion());
    let (inside, _) = sides(rest);
    back(
        alloc,
        &unpack(alloc, &outside, g, &denial, rest)?,
        g,
        e,
        inside,
    )
}
