// Rules that refute: what two patterns have in common is nothing, or they are not equal, under a
// hypothesis r. Between elements of sorts these two say the same. In `disjoint` and `unequal` r has
// to be everything or nothing.
ghost use Rattle.std.specs.Prelude.{◌≡◌, [], ◌∷◌, IfOk, Some};
ghost use Rattle.ml_pat.specs.Patterns.{bot, imp, not, and, equal, member, fun, app, var};
ghost use Rattle.ml_pat.specs.Judgements.{IsPredicate, substituted};
ghost use Rattle.ml_derived.specs.Scopes.{StaysWithin};

use crate::hypothetical::{bot_to_not, chain_under, not_to_bot, swap, then};
use crate::implications::{chained, under};
use crate::rules::{apart, app_l, app_r, bot_l, bot_r, eq_el, mem_in, mem_no};
use ml_kernel::Thm;
use ml_pat::{MPat, MSort, VarNo};
use std::alloc::{AllocError, Global};

/// A pattern, and the theorem that under a hypothesis it is one element of a sort.
#[derive(Clone, Copy)]
pub struct Element<'a> {
    /// The pattern.
    pub pattern: &'a MPat,
    /// Its sort.
    pub sort: MSort,
    /// The theorem.
    pub fact: &'a Thm,
}

/// `r -> p & q -> bot`, from `r -> ~(p = q)`, where under r the two are elements of sorts. An
/// error: out of memory.
pub fn disjoint(
    alloc: Global,
    a: &Thm,
    r: &MPat,
    p: Element<'_>,
    q: Element<'_>,
) -> Result<Thm, AllocError>
    requires a { a.now.conclusion ≡ imp r.now (not (equal p.pattern.now q.pattern.now)) }
    requires p { p.fact.now.conclusion ≡ imp r.now (fun p.pattern.now p.sort.0) }
    requires q { q.fact.now.conclusion ≡ imp r.now (fun q.pattern.now q.sort.0) }
    ensures conclusion { IfOk result
        (λ t. t.conclusion ≡ imp r.now (imp (and p.entry.pattern.now q.entry.pattern.now) bot)) }
    ensures stays { IfOk result
        (StaysWithin [] (a.now ∷ p.entry.fact.now ∷ q.entry.fact.now ∷ [])) }
{
    let same = MPat::equal(alloc, p.pattern, q.pattern)?;
    let both = MPat::and(alloc, p.pattern, q.pattern)?;
    let differ = MPat::not(alloc, &same)?;
    let none = MPat::not(alloc, &both)?;
    let open = parted(alloc, r, p, q, &MPat::imp(alloc, &differ, &none)?)?;
    let denied = under(alloc, a, &open, r, &differ, &none)?;
    not_to_bot(alloc, &denied, r, &both)
}

// `r -> ~(p = q) -> ~(p & q)`. `parted` is what r implies.
fn parted(
    alloc: Global,
    r: &MPat,
    p: Element<'_>,
    q: Element<'_>,
    parted: &MPat,
) -> Result<Thm, AllocError>
    requires p { p.fact.now.conclusion ≡ imp r.now (fun p.pattern.now p.sort.0) }
    requires q { q.fact.now.conclusion ≡ imp r.now (fun q.pattern.now q.sort.0) }
    requires parted { parted.now ≡ imp (not (equal p.pattern.now q.pattern.now))
        (not (and p.pattern.now q.pattern.now)) }
    ensures conclusion { IfOk result (λ t. t.conclusion ≡ imp r.now parted.now) }
    ensures stays { IfOk result (StaysWithin [] (p.entry.fact.now ∷ q.entry.fact.now ∷ [])) }
{
    let first = MPat::fun(alloc, p.pattern, p.sort)?;
    let second = MPat::fun(alloc, q.pattern, q.sort)?;
    let rest = MPat::imp(alloc, &second, parted)?;
    let rule = apart(alloc, p.pattern, q.pattern, p.sort, q.sort)?;
    let open = chained(alloc, p.fact, &rule, r, &first, &rest)?;
    under(alloc, q.fact, &open, r, &second, parted)
}

/// `r -> ~(p = t)`, from `r -> p & t -> bot`, where under r the pattern p is an element of a sort.
/// The variable y is free in neither. An error: out of memory.
pub fn unequal(
    alloc: Global,
    a: &Thm,
    r: &MPat,
    p: Element<'_>,
    t: &MPat,
    y: VarNo,
) -> Result<Thm, AllocError>
    requires a { a.now.conclusion ≡ imp r.now (imp (and p.pattern.now t.now) bot) }
    requires p { p.fact.now.conclusion ≡ imp r.now (fun p.pattern.now p.sort.0) }
    requires predicate { IsPredicate r.now }
    requires left { substituted (member p.pattern.now (var y.0)) y.0 p.pattern.now
        ≡ Some (member p.pattern.now p.pattern.now) }
    requires right { substituted (member p.pattern.now (var y.0)) y.0 t.now
        ≡ Some (member p.pattern.now t.now) }
    ensures conclusion { IfOk result
        (λ u. u.conclusion ≡ imp r.now (not (equal p.entry.pattern.now t.now))) }
    ensures stays { IfOk result (StaysWithin (var y.0 ∷ []) (a.now ∷ p.entry.fact.now ∷ [])) }
{
    let same = MPat::equal(alloc, p.pattern, t)?;
    let inside = MPat::member(alloc, p.pattern, t)?;
    let outside = no_member(alloc, a, r, p.pattern, t, &inside)?;
    let moved = moved(alloc, r, p, t, y, &MPat::imp(alloc, &same, &inside)?)?;
    let nothing = MPat::bot(alloc)?;
    let denied = chain_under(alloc, &moved, &outside, r, &same, &inside, &nothing)?;
    bot_to_not(alloc, &denied, r, &same)
}

// `r -> p in t -> bot`, from `r -> p & t -> bot`. `inside` is `p in t`.
fn no_member(
    alloc: Global,
    a: &Thm,
    r: &MPat,
    p: &MPat,
    t: &MPat,
    inside: &MPat,
) -> Result<Thm, AllocError>
    requires a { a.now.conclusion ≡ imp r.now (imp (and p.now t.now) bot) }
    requires predicate { IsPredicate r.now }
    requires inside { inside.now ≡ member p.now t.now }
    ensures conclusion { IfOk result (λ u. u.conclusion ≡ imp r.now (imp inside.now bot)) }
    ensures stays { IfOk result (StaysWithin [] (a.now ∷ [])) }
{
    let both = MPat::and(alloc, p, t)?;
    let none = bot_to_not(alloc, a, r, &both)?;
    let outside = mem_no(alloc, &none, p, t, r)?;
    not_to_bot(alloc, &outside, r, inside)
}

// `r -> p = t -> p in t`. `moved` is what r implies.
fn moved(
    alloc: Global,
    r: &MPat,
    p: Element<'_>,
    t: &MPat,
    y: VarNo,
    moved: &MPat,
) -> Result<Thm, AllocError>
    requires p { p.fact.now.conclusion ≡ imp r.now (fun p.pattern.now p.sort.0) }
    requires left { substituted (member p.pattern.now (var y.0)) y.0 p.pattern.now
        ≡ Some (member p.pattern.now p.pattern.now) }
    requires right { substituted (member p.pattern.now (var y.0)) y.0 t.now
        ≡ Some (member p.pattern.now t.now) }
    requires moved { moved.now
        ≡ imp (equal p.pattern.now t.now) (member p.pattern.now t.now) }
    ensures conclusion { IfOk result (λ u. u.conclusion ≡ imp r.now moved.now) }
    ensures stays { IfOk result (StaysWithin (t.now ∷ var y.0 ∷ []) (p.entry.fact.now ∷ [])) }
{
    let own = MPat::member(alloc, p.pattern, p.pattern)?;
    let held = own_member(alloc, r, p, &own)?;
    let context = MPat::member(alloc, p.pattern, &MPat::var(alloc, y)?)?;
    let inside = MPat::member(alloc, p.pattern, t)?;
    let same = MPat::equal(alloc, p.pattern, t)?;
    let rule = eq_el(alloc, p.pattern, t, &context, &own, &inside, y)?;
    let swapped = swap(alloc, &rule, &same, &own, &inside)?;
    chained(alloc, &held, &swapped, r, &own, moved)
}

// `r -> p in p`. `own` is `p in p`.
fn own_member(alloc: Global, r: &MPat, p: Element<'_>, own: &MPat) -> Result<Thm, AllocError>
    requires p { p.fact.now.conclusion ≡ imp r.now (fun p.pattern.now p.sort.0) }
    requires own { own.now ≡ member p.pattern.now p.pattern.now }
    ensures conclusion { IfOk result (λ u. u.conclusion ≡ imp r.now own.now) }
    ensures stays { IfOk result (StaysWithin [] (p.entry.fact.now ∷ [])) }
{
    let element = MPat::fun(alloc, p.pattern, p.sort)?;
    let rule = mem_in(alloc, p.pattern, p.sort)?;
    chained(alloc, p.fact, &rule, r, &element, own)
}

/// `r -> f p -> bot`, from `r -> p -> bot`, where r is everything or nothing. An error: out of
/// memory.
pub fn no_argument(alloc: Global, a: &Thm, r: &MPat, f: &MPat, p: &MPat) -> Result<Thm, AllocError>
    requires a { a.now.conclusion ≡ imp r.now (imp p.now bot) }
    requires predicate { IsPredicate r.now }
    ensures conclusion { IfOk result
        (λ t. t.conclusion ≡ imp r.now (imp (app f.now p.now) bot)) }
    ensures stays { IfOk result (StaysWithin (f.now ∷ []) (a.now ∷ [])) }
{
    let nothing = MPat::bot(alloc)?;
    let from = MPat::app(alloc, f, p)?;
    let to = MPat::app(alloc, f, &nothing)?;
    let inner = app_r(alloc, a, p, &nothing, r, f)?;
    let rule = bot_r(alloc, f)?;
    then(alloc, &inner, &rule, r, &from, &to, &nothing)
}

/// `r -> f p -> bot`, from `r -> f -> bot`, where r is everything or nothing. An error: out of
/// memory.
pub fn no_function(alloc: Global, a: &Thm, r: &MPat, f: &MPat, p: &MPat) -> Result<Thm, AllocError>
    requires a { a.now.conclusion ≡ imp r.now (imp f.now bot) }
    requires predicate { IsPredicate r.now }
    ensures conclusion { IfOk result
        (λ t. t.conclusion ≡ imp r.now (imp (app f.now p.now) bot)) }
    ensures stays { IfOk result (StaysWithin (p.now ∷ []) (a.now ∷ [])) }
{
    let nothing = MPat::bot(alloc)?;
    let from = MPat::app(alloc, f, p)?;
    let to = MPat::app(alloc, &nothing, p)?;
    let inner = app_l(alloc, a, f, &nothing, r, p)?;
    let rule = bot_l(alloc, p)?;
    then(alloc, &inner, &rule, r, &from, &to, &nothing)
}
