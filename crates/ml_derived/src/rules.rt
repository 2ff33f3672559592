// The rules, one call each, with the names of the kernel's calls. The only error is out of memory.
ghost use Rattle.std.specs.Prelude.{◌≡◌, [], ◌∷◌, IfOk, Some};
ghost use Rattle.ml_pat.specs.Patterns.{bot, top, imp, not, and, or, equal, member, fun, ex, all};
ghost use Rattle.ml_pat.specs.Patterns.{app, next, ev, var};
ghost use Rattle.ml_pat.specs.Judgements.{IsFresh, IsAbsent, IsPredicate, substituted};
ghost use Rattle.ml_derived.specs.Scopes.{StaysWithin};

use ml_kernel::Thm;
use ml_pat::{MPat, MSort, VarNo};
use std::alloc::{AllocError, Global};

/// `p -> q -> p`.
pub fn p_1(alloc: Global, p: &MPat, q: &MPat) -> Result<Thm, AllocError>
    ensures conclusion { IfOk result (λ t. t.conclusion ≡ imp p.now (imp q.now p.now)) }
    ensures stays { IfOk result (StaysWithin (p.now ∷ q.now ∷ []) ([])) }
{
    Thm::p_1(alloc, p, q)
}

/// `(p -> q -> r) -> (p -> q) -> p -> r`.
pub fn p_2(alloc: Global, p: &MPat, q: &MPat, r: &MPat) -> Result<Thm, AllocError>
    ensures conclusion { IfOk result (λ t. t.conclusion
        ≡ imp (imp p.now (imp q.now r.now)) (imp (imp p.now q.now) (imp p.now r.now))) }
    ensures stays { IfOk result (StaysWithin (p.now ∷ q.now ∷ r.now ∷ []) ([])) }
{
    Thm::p_2(alloc, p, q, r)
}

/// `((p -> bot) -> bot) -> p`.
pub fn p_3(alloc: Global, p: &MPat) -> Result<Thm, AllocError>
    ensures conclusion { IfOk result (λ t. t.conclusion ≡ imp (imp (imp p.now bot) bot) p.now) }
    ensures stays { IfOk result (StaysWithin (p.now ∷ []) []) }
{
    Thm::p_3(alloc, p)
}

/// q, from p and `p -> q`.
pub fn mp(alloc: Global, a: &Thm, b: &Thm, p: &MPat, q: &MPat) -> Result<Thm, AllocError>
    requires a { a.now.conclusion ≡ p.now }
    requires b { b.now.conclusion ≡ imp p.now q.now }
    ensures conclusion { IfOk result (λ t. t.conclusion ≡ q.now) }
    ensures stays { IfOk result (StaysWithin ([]) (a.now ∷ b.now ∷ [])) }
{
    Thm::mp(alloc, a, b, p, q)
}

/// `~p -> p -> bot`.
pub fn not_1(alloc: Global, p: &MPat) -> Result<Thm, AllocError>
    ensures conclusion { IfOk result (λ t. t.conclusion ≡ imp (not p.now) (imp p.now bot)) }
    ensures stays { IfOk result (StaysWithin (p.now ∷ []) []) }
{
    Thm::not_1(alloc, p)
}

/// `(p -> bot) -> ~p`.
pub fn not_2(alloc: Global, p: &MPat) -> Result<Thm, AllocError>
    ensures conclusion { IfOk result (λ t. t.conclusion ≡ imp (imp p.now bot) (not p.now)) }
    ensures stays { IfOk result (StaysWithin (p.now ∷ []) []) }
{
    Thm::not_2(alloc, p)
}

/// `p & q -> p`.
pub fn and_1(alloc: Global, p: &MPat, q: &MPat) -> Result<Thm, AllocError>
    ensures conclusion { IfOk result (λ t. t.conclusion ≡ imp (and p.now q.now) p.now) }
    ensures stays { IfOk result (StaysWithin (p.now ∷ q.now ∷ []) []) }
{
    Thm::and_1(alloc, p, q)
}

/// `p & q -> q`.
pub fn and_2(alloc: Global, p: &MPat, q: &MPat) -> Result<Thm, AllocError>
    ensures conclusion { IfOk result (λ t. t.conclusion ≡ imp (and p.now q.now) q.now) }
    ensures stays { IfOk result (StaysWithin (p.now ∷ q.now ∷ []) []) }
{
    Thm::and_2(alloc, p, q)
}

/// `p -> q -> p & q`.
pub fn and_3(alloc: Global, p: &MPat, q: &MPat) -> Result<Thm, AllocError>
    ensures conclusion { IfOk result (λ t. t.conclusion ≡ imp p.now (imp q.now (and p.now q.now))) }
    ensures stays { IfOk result (StaysWithin (p.now ∷ q.now ∷ []) ([])) }
{
    Thm::and_3(alloc, p, q)
}

/// `p -> p | q`.
pub fn or_1(alloc: Global, p: &MPat, q: &MPat) -> Result<Thm, AllocError>
    ensures conclusion { IfOk result (λ t. t.conclusion ≡ imp p.now (or p.now q.now)) }
    ensures stays { IfOk result (StaysWithin (p.now ∷ q.now ∷ []) []) }
{
    Thm::or_1(alloc, p, q)
}

/// `q -> p | q`.
pub fn or_2(alloc: Global, p: &MPat, q: &MPat) -> Result<Thm, AllocError>
    ensures conclusion { IfOk result (λ t. t.conclusion ≡ imp q.now (or p.now q.now)) }
    ensures stays { IfOk result (StaysWithin (p.now ∷ q.now ∷ []) []) }
{
    Thm::or_2(alloc, p, q)
}

/// `(p -> r) -> (q -> r) -> p | q -> r`.
pub fn or_3(alloc: Global, p: &MPat, q: &MPat, r: &MPat) -> Result<Thm, AllocError>
    ensures conclusion { IfOk result (λ t. t.conclusion
        ≡ imp (imp p.now r.now) (imp (imp q.now r.now) (imp (or p.now q.now) r.now))) }
    ensures stays { IfOk result (StaysWithin (p.now ∷ q.now ∷ r.now ∷ []) []) }
{
    Thm::or_3(alloc, p, q, r)
}

/// Everything.
pub fn top(alloc: Global) -> Result<Thm, AllocError>
    ensures conclusion { IfOk result (λ t. t.conclusion ≡ top) }
    ensures stays { IfOk result (StaysWithin ([]) ([])) }
{
    Thm::top(alloc)
}

/// `(all x s p) -> fun q s -> r`, where r is p with q substituted for x.
pub fn inst<'a>(
    alloc: Global,
    p: &'a MPat,
    q: &'a MPat,
    r: &'a MPat,
    x: VarNo,
    s: MSort,
) -> Result<Thm, AllocError>
    requires { substituted p.now x.0 q.now ≡ Some r.now }
    ensures conclusion { IfOk result
        (λ t. t.conclusion ≡ imp (all x.0 s.0 p.now) (imp (fun q.now s.0) r.now)) }
    ensures stays { IfOk result (StaysWithin (all x.0 s.0 p.now ∷ q.now ∷ r.now ∷ []) []) }
{
    Thm::inst(alloc, p, q, r, x, s)
}

/// `(ex y s (y = p)) -> fun p s`, where y does not occur in p.
pub fn fun_ex(alloc: Global, p: &MPat, y: VarNo, s: MSort) -> Result<Thm, AllocError>
    requires { IsAbsent y.0 p.now }
    ensures conclusion { IfOk result
        (λ t. t.conclusion ≡ imp (ex y.0 s.0 (equal (var y.0) p.now)) (fun p.now s.0)) }
    ensures stays { IfOk result (StaysWithin (ex y.0 s.0 (equal (var y.0) p.now) ∷ []) []) }
{
    Thm::fun_ex(alloc, p, y, s)
}

/// `(ex x s p) -> q`, from `fun x s -> p -> q`, where x is fresh in q.
pub fn ex_el<'a>(
    alloc: Global,
    a: &Thm,
    p: &'a MPat,
    q: &'a MPat,
    x: VarNo,
    s: MSort,
) -> Result<Thm, AllocError>
    requires a { a.now.conclusion ≡ imp (fun (var x.0) s.0) (imp p.now q.now) }
    requires fresh { IsFresh x.0 q.now }
    ensures conclusion { IfOk result (λ t. t.conclusion ≡ imp (ex x.0 s.0 p.now) q.now) }
    ensures stays { IfOk result (StaysWithin [] (a.now ∷ [])) }
{
    Thm::ex_el(alloc, a, p, q, x, s)
}

/// `p = p`.
pub fn eq_refl(alloc: Global, p: &MPat) -> Result<Thm, AllocError>
    ensures conclusion { IfOk result (λ t. t.conclusion ≡ equal p.now p.now) }
    ensures stays { IfOk result (StaysWithin (p.now ∷ []) ([])) }
{
    Thm::eq_refl(alloc, p)
}

/// `p = q -> t -> u`, where t is r with p for x, and u is r with q for x.
pub fn eq_el<'a>(
    alloc: Global,
    p: &'a MPat,
    q: &'a MPat,
    r: &'a MPat,
    t: &'a MPat,
    u: &'a MPat,
    x: VarNo,
) -> Result<Thm, AllocError>
    requires t { substituted r.now x.0 p.now ≡ Some t.now }
    requires u { substituted r.now x.0 q.now ≡ Some u.now }
    ensures conclusion { IfOk result
        (λ e. e.conclusion ≡ imp (equal p.now q.now) (imp t.now u.now)) }
    ensures stays { IfOk result
        (StaysWithin (p.now ∷ q.now ∷ r.now ∷ t.now ∷ u.now ∷ var x.0 ∷ []) []) }
{
    Thm::eq_el(alloc, p, q, r, t, u, x)
}

/// `p = q`, from `p -> q` and `q -> p`.
pub fn eq_in(alloc: Global, a: &Thm, b: &Thm, p: &MPat, q: &MPat) -> Result<Thm, AllocError>
    requires a { a.now.conclusion ≡ imp p.now q.now }
    requires b { b.now.conclusion ≡ imp q.now p.now }
    ensures conclusion { IfOk result (λ t. t.conclusion ≡ equal p.now q.now) }
    ensures stays { IfOk result (StaysWithin [] (a.now ∷ b.now ∷ [])) }
{
    Thm::eq_in(alloc, a, b, p, q)
}

/// `fun p s -> p in p`.
pub fn mem_in(alloc: Global, p: &MPat, s: MSort) -> Result<Thm, AllocError>
    ensures conclusion { IfOk result
        (λ t. t.conclusion ≡ imp (fun p.now s.0) (member p.now p.now)) }
    ensures stays { IfOk result (StaysWithin (fun p.now s.0 ∷ []) []) }
{
    Thm::mem_in(alloc, p, s)
}

/// `r -> ~(p in q)`, from `r -> ~(p & q)`, where r is a predicate.
pub fn mem_no(alloc: Global, a: &Thm, p: &MPat, q: &MPat, r: &MPat) -> Result<Thm, AllocError>
    requires a { a.now.conclusion ≡ imp r.now (not (and p.now q.now)) }
    requires predicate { IsPredicate r.now }
    ensures conclusion { IfOk result (λ t. t.conclusion ≡ imp r.now (not (member p.now q.now))) }
    ensures stays { IfOk result (StaysWithin [] (a.now ∷ [])) }
{
    Thm::mem_no(alloc, a, p, q, r)
}

/// `fun p s -> fun q v -> ~(p = q) -> ~(p & q)`.
pub fn apart<'a>(
    alloc: Global,
    p: &'a MPat,
    q: &'a MPat,
    s: MSort,
    v: MSort,
) -> Result<Thm, AllocError>
    ensures conclusion { IfOk result
        (λ t. t.conclusion ≡ imp (fun p.now s.0) (imp (fun q.now v.0)
        (imp (not (equal p.now q.now)) (not (and p.now q.now))))) }
    ensures stays { IfOk result (StaysWithin (fun p.now s.0 ∷ fun q.now v.0 ∷ []) []) }
{
    Thm::apart(alloc, p, q, s, v)
}

/// `r -> p t -> q t`, from `r -> p -> q`, where r is a predicate.
pub fn app_l(
    alloc: Global,
    a: &Thm,
    p: &MPat,
    q: &MPat,
    r: &MPat,
    t: &MPat,
) -> Result<Thm, AllocError>
    requires a { a.now.conclusion ≡ imp r.now (imp p.now q.now) }
    requires predicate { IsPredicate r.now }
    ensures conclusion { IfOk result
        (λ c. c.conclusion ≡ imp r.now (imp (app p.now t.now) (app q.now t.now))) }
    ensures stays { IfOk result (StaysWithin (t.now ∷ []) (a.now ∷ [])) }
{
    Thm::app_l(alloc, a, p, q, r, t)
}

/// `r -> t p -> t q`, from `r -> p -> q`, where r is a predicate.
pub fn app_r(
    alloc: Global,
    a: &Thm,
    p: &MPat,
    q: &MPat,
    r: &MPat,
    t: &MPat,
) -> Result<Thm, AllocError>
    requires a { a.now.conclusion ≡ imp r.now (imp p.now q.now) }
    requires predicate { IsPredicate r.now }
    ensures conclusion { IfOk result
        (λ c. c.conclusion ≡ imp r.now (imp (app t.now p.now) (app t.now q.now))) }
    ensures stays { IfOk result (StaysWithin (t.now ∷ []) (a.now ∷ [])) }
{
    Thm::app_r(alloc, a, p, q, r, t)
}

/// `bot p -> bot`.
pub fn bot_l(alloc: Global, p: &MPat) -> Result<Thm, AllocError>
    ensures conclusion { IfOk result (λ t. t.conclusion ≡ imp (app bot p.now) bot) }
    ensures stays { IfOk result (StaysWithin (p.now ∷ []) []) }
{
    Thm::bot_l(alloc, p)
}

/// `p bot -> bot`.
pub fn bot_r(alloc: Global, p: &MPat) -> Result<Thm, AllocError>
    ensures conclusion { IfOk result (λ t. t.conclusion ≡ imp (app p.now bot) bot) }
    ensures stays { IfOk result (StaysWithin (p.now ∷ []) []) }
{
    Thm::bot_r(alloc, p)
}

/// `next p -> next q`, from `p -> q`.
pub fn next_in(alloc: Global, a: &Thm, p: &MPat, q: &MPat) -> Result<Thm, AllocError>
    requires { a.now.conclusion ≡ imp p.now q.now }
    ensures conclusion { IfOk result (λ t. t.conclusion ≡ imp (next p.now) (next q.now)) }
    ensures stays { IfOk result (StaysWithin ([]) (a.now ∷ [])) }
{
    Thm::next_in(alloc, a, p, q)
}

/// `p -> ev p`.
pub fn ev_1(alloc: Global, p: &MPat) -> Result<Thm, AllocError>
    ensures conclusion { IfOk result (λ t. t.conclusion ≡ imp p.now (ev p.now)) }
    ensures stays { IfOk result (StaysWithin (p.now ∷ []) ([])) }
{
    Thm::ev_1(alloc, p)
}

/// `next ev p -> ev p`.
pub fn ev_2(alloc: Global, p: &MPat) -> Result<Thm, AllocError>
    ensures conclusion { IfOk result (λ t. t.conclusion ≡ imp (next (ev p.now)) (ev p.now)) }
    ensures stays { IfOk result (StaysWithin (p.now ∷ []) ([])) }
{
    Thm::ev_2(alloc, p)
}

/// `ev p -> q`, from `p -> q` and `next q -> q`.
pub fn ev_kt(alloc: Global, a: &Thm, b: &Thm, p: &MPat, q: &MPat) -> Result<Thm, AllocError>
    requires a { a.now.conclusion ≡ imp p.now q.now }
    requires b { b.now.conclusion ≡ imp (next q.now) q.now }
    ensures conclusion { IfOk result (λ t. t.conclusion ≡ imp (ev p.now) q.now) }
    ensures stays { IfOk result (StaysWithin ([]) (a.now ∷ b.now ∷ [])) }
{
    Thm::ev_kt(alloc, a, b, p, q)
}
