// The rules, one call each, in the order of the header. The preconditions of a call are what its
// rule requires of the premises and of the patterns. The only error is out of memory.
#![tactic(auto, using(crate::proofs::RuleLaws::rule_laws))]

ghost use Rattle.std.specs.Prelude.{◌≡◌, [], ◌∷◌, IfOk, Some};
ghost use Rattle.ml_pat.specs.Patterns.{bot, top, imp, not, and, or, equal, member, fun, ex, all};
ghost use Rattle.ml_pat.specs.Patterns.{app, next, ev, var};
ghost use Rattle.ml_pat.specs.Judgements.{IsFresh, IsAbsent, IsPredicate, substituted};
ghost use Rattle.ml_kernel.specs.Rules.{label, pattern, variable, sort};
ghost use Rattle.ml_kernel.specs.Theorems.{IsByRule};
ghost use Rattle.ml_kernel.specs.declared.rules.Rule.TheVariants as rule;

use crate::theorems::Part::{Pat, Sort, Var};
use crate::theorems::Thm;
use ml_pat::{MPat, MSort, VarNo};
use std::alloc::{AllocError, Global};

/// A rule, by its label in the header of a Metamath database.
#[derive(Clone, Copy, PartialEq, Eq, Debug)]
pub enum Rule {
    P1,
    P2,
    P3,
    Mp,
    Not1,
    Not2,
    And1,
    And2,
    And3,
    Or1,
    Or2,
    Or3,
    Top,
    Inst,
    FunEx,
    ExEl,
    EqRefl,
    EqEl,
    EqIn,
    MemIn,
    MemNo,
    Apart,
    AppL,
    AppR,
    BotL,
    BotR,
    NextIn,
    Ev1,
    Ev2,
    EvKt,
}

impl Rule {
    /// The label of the rule.
    pub fn label(self) -> &'static str
        ensures { result.now ≡ label self }
    {
        match self {
            Rule::P1 => "p.1",
            Rule::P2 => "p.2",
            Rule::P3 => "p.3",
            Rule::Mp => "mp",
            Rule::Not1 => "not.1",
            Rule::Not2 => "not.2",
            Rule::And1 => "and.1",
            Rule::And2 => "and.2",
            Rule::And3 => "and.3",
            Rule::Or1 => "or.1",
            Rule::Or2 => "or.2",
            Rule::Or3 => "or.3",
            Rule::Top => "top",
            Rule::Inst => "inst",
            Rule::FunEx => "fun.ex",
            Rule::ExEl => "ex.el",
            Rule::EqRefl => "eq.refl",
            Rule::EqEl => "eq.el",
            Rule::EqIn => "eq.in",
            Rule::MemIn => "mem.in",
            Rule::MemNo => "mem.no",
            Rule::Apart => "apart",
            Rule::AppL => "app.l",
            Rule::AppR => "app.r",
            Rule::BotL => "bot.l",
            Rule::BotR => "bot.r",
            Rule::NextIn => "next.in",
            Rule::Ev1 => "ev.1",
            Rule::Ev2 => "ev.2",
            Rule::EvKt => "ev.kt",
        }
    }
}

// A pattern in the notation of the schemes.
macro_rules! scheme {
    ($alloc:ident, bot) => { &MPat::bot($alloc)? };
    ($alloc:ident, top) => { &MPat::top($alloc)? };
    ($alloc:ident, $part:ident) => { $part };
    ($alloc:ident, ($form:ident $($part:tt)+)) => { &MPat::$form($alloc, $(scheme!($alloc, $part)),+)? };
}

// A rule at the instances of its variables, with its premises and its conclusion.
macro_rules! infer {
    ($alloc:ident, $rule:ident $parts:tt, $premises:tt, $conclusion:tt) => {
        Thm::by_rule($alloc, Rule::$rule, &$parts, &$premises, scheme!($alloc, $conclusion))
    };
}

impl Thm {
    // Implication: the axioms K and S, double negation, and modus ponens.

    /// `p -> q -> p`.
    pub fn p_1(alloc: Global, p: &MPat, q: &MPat) -> Result<Thm, AllocError>
        ensures { IfOk result (IsByRule rule.P1 (pattern p.now ∷ pattern q.now ∷ []) []
            (imp p.now (imp q.now p.now))) }
    {
        infer!(alloc, P1 [Pat(p), Pat(q)], [], (imp p (imp q p)))
    }

    /// `(p -> q -> r) -> (p -> q) -> p -> r`.
    pub fn p_2(alloc: Global, p: &MPat, q: &MPat, r: &MPat) -> Result<Thm, AllocError>
        ensures { IfOk result (IsByRule rule.P2 (pattern p.now ∷ pattern q.now ∷ pattern r.now ∷ [])
            [] (imp (imp p.now (imp q.now r.now)) (imp (imp p.now q.now) (imp p.now r.now)))) }
    {
        infer!(alloc, P2 [Pat(p), Pat(q), Pat(r)], [],
            (imp (imp p (imp q r)) (imp (imp p q) (imp p r))))
    }

    /// `((p -> bot) -> bot) -> p`.
    pub fn p_3(alloc: Global, p: &MPat) -> Result<Thm, AllocError>
        ensures { IfOk result
            (IsByRule rule.P3 (pattern p.now ∷ []) [] (imp (imp (imp p.now bot) bot) p.now)) }
    {
        infer!(alloc, P3 [Pat(p)], [], (imp (imp (imp p bot) bot) p))
    }

    /// q, from p and `p -> q`.
    pub fn mp(alloc: Global, a: &Thm, b: &Thm, p: &MPat, q: &MPat) -> Result<Thm, AllocError>
        requires a { a.now.conclusion ≡ p.now }
        requires b { b.now.conclusion ≡ imp p.now q.now }
        ensures { IfOk result
            (IsByRule rule.Mp (pattern p.now ∷ pattern q.now ∷ []) (a.now ∷ b.now ∷ []) q.now) }
    {
        infer!(alloc, Mp [Pat(p), Pat(q)], [a, b], q)
    }

    // The other connectives of propositions.

    /// `~p -> p -> bot`.
    pub fn not_1(alloc: Global, p: &MPat) -> Result<Thm, AllocError>
        ensures { IfOk result
            (IsByRule rule.Not1 (pattern p.now ∷ []) [] (imp (not p.now) (imp p.now bot))) }
    {
        infer!(alloc, Not1 [Pat(p)], [], (imp (not p) (imp p bot)))
    }

    /// `(p -> bot) -> ~p`.
    pub fn not_2(alloc: Global, p: &MPat) -> Result<Thm, AllocError>
        ensures { IfOk result
            (IsByRule rule.Not2 (pattern p.now ∷ []) [] (imp (imp p.now bot) (not p.now))) }
    {
        infer!(alloc, Not2 [Pat(p)], [], (imp (imp p bot) (not p)))
    }

    /// `p & q -> p`.
    pub fn and_1(alloc: Global, p: &MPat, q: &MPat) -> Result<Thm, AllocError>
        ensures { IfOk result (IsByRule rule.And1 (pattern p.now ∷ pattern q.now ∷ []) []
            (imp (and p.now q.now) p.now)) }
    {
        infer!(alloc, And1 [Pat(p), Pat(q)], [], (imp (and p q) p))
    }

    /// `p & q -> q`.
    pub fn and_2(alloc: Global, p: &MPat, q: &MPat) -> Result<Thm, AllocError>
        ensures { IfOk result (IsByRule rule.And2 (pattern p.now ∷ pattern q.now ∷ []) []
            (imp (and p.now q.now) q.now)) }
    {
        infer!(alloc, And2 [Pat(p), Pat(q)], [], (imp (and p q) q))
    }

    /// `p -> q -> p & q`.
    pub fn and_3(alloc: Global, p: &MPat, q: &MPat) -> Result<Thm, AllocError>
        ensures { IfOk result (IsByRule rule.And3 (pattern p.now ∷ pattern q.now ∷ []) []
            (imp p.now (imp q.now (and p.now q.now)))) }
    {
        infer!(alloc, And3 [Pat(p), Pat(q)], [], (imp p (imp q (and p q))))
    }

    /// `p -> p | q`.
    pub fn or_1(alloc: Global, p: &MPat, q: &MPat) -> Result<Thm, AllocError>
        ensures { IfOk result (IsByRule rule.Or1 (pattern p.now ∷ pattern q.now ∷ []) []
            (imp p.now (or p.now q.now))) }
    {
        infer!(alloc, Or1 [Pat(p), Pat(q)], [], (imp p (or p q)))
    }

    /// `q -> p | q`.
    pub fn or_2(alloc: Global, p: &MPat, q: &MPat) -> Result<Thm, AllocError>
        ensures { IfOk result (IsByRule rule.Or2 (pattern p.now ∷ pattern q.now ∷ []) []
            (imp q.now (or p.now q.now))) }
    {
        infer!(alloc, Or2 [Pat(p), Pat(q)], [], (imp q (or p q)))
    }

    /// `(p -> r) -> (q -> r) -> p | q -> r`.
    pub fn or_3(alloc: Global, p: &MPat, q: &MPat, r: &MPat) -> Result<Thm, AllocError>
        ensures { IfOk result (IsByRule rule.Or3
            (pattern p.now ∷ pattern q.now ∷ pattern r.now ∷ []) []
            (imp (imp p.now r.now) (imp (imp q.now r.now) (imp (or p.now q.now) r.now)))) }
    {
        infer!(alloc, Or3 [Pat(p), Pat(q), Pat(r)], [],
            (imp (imp p r) (imp (imp q r) (imp (or p q) r))))
    }

    /// Everything.
    pub fn top(alloc: Global) -> Result<Thm, AllocError>
        ensures { IfOk result (IsByRule rule.Top [] [] top) }
    {
        infer!(alloc, Top [], [], top)
    }

    // Quantifiers: an instance at one element, being one element, and a consequence of an
    // existential.

    /// `(all x s p) -> fun q s -> r`, where r is p with q substituted for x.
    pub fn inst<'a>(
        alloc: Global,
        p: &'a MPat,
        q: &'a MPat,
        r: &'a MPat,
        x: VarNo,
        s: MSort,
    ) -> Result<Thm, AllocError>
        requires { substituted p.now x.0 q.now ≡ Some r.now }
        ensures { IfOk result (IsByRule rule.Inst
            (pattern p.now ∷ pattern q.now ∷ pattern r.now ∷ variable x.0 ∷ sort s.0 ∷ []) []
            (imp (all x.0 s.0 p.now) (imp (fun q.now s.0) r.now))) }
    {
        infer!(alloc, Inst [Pat(p), Pat(q), Pat(r), Var(x), Sort(s)], [],
            (imp (all x s p) (imp (fun q s) r)))
    }

    /// `(ex y s (y = p)) -> fun p s`, where y does not occur in p.
    pub fn fun_ex(alloc: Global, p: &MPat, y: VarNo, s: MSort) -> Result<Thm, AllocError>
        requires { IsAbsent y.0 p.now }
        ensures { IfOk result (IsByRule rule.FunEx (pattern p.now ∷ variable y.0 ∷ sort s.0 ∷ []) []
            (imp (ex y.0 s.0 (equal (var y.0) p.now)) (fun p.now s.0))) }
    {
        infer!(alloc, FunEx [Pat(p), Var(y), Sort(s)], [],
            (imp (ex y s (equal (var y) p)) (fun p s)))
    }

    /// `(ex x s p) -> q`, from `fun x s -> p -> q`, where x is fresh in q.
    pub fn ex_el<'a>(
        alloc: Global,
        a: &Thm,
        p: &'a MPat,
        q: &'a MPat,
        x: VarNo,
        s: MSort,
    ) -> Result<Thm, AllocError>
        requires a { a.now.conclusion ≡ imp (fun (var x.0) s.0) (imp p.now q.now) }
        requires fresh { IsFresh x.0 q.now }
        ensures { IfOk result (IsByRule rule.ExEl
            (pattern p.now ∷ pattern q.now ∷ variable x.0 ∷ sort s.0 ∷ []) (a.now ∷ [])
            (imp (ex x.0 s.0 p.now) q.now)) }
    {
        infer!(alloc, ExEl [Pat(p), Pat(q), Var(x), Sort(s)], [a], (imp (ex x s p) q))
    }

    // Equality: of a pattern with itself, of equals in a context, and of patterns that imply each
    // other.

    /// `p = p`.
    pub fn eq_refl(alloc: Global, p: &MPat) -> Result<Thm, AllocError>
        ensures { IfOk result (IsByRule rule.EqRefl (pattern p.now ∷ []) [] (equal p.now p.now)) }
    {
        infer!(alloc, EqRefl [Pat(p)], [], (equal p p))
    }

    /// `p = q -> t -> u`, where t is r with p for x, and u is r with q for x.
    pub fn eq_el<'a>(
        alloc: Global,
        p: &'a MPat,
        q: &'a MPat,
        r: &'a MPat,
        t: &'a MPat,
        u: &'a MPat,
        x: VarNo,
    ) -> Result<Thm, AllocError>
        requires t { substituted r.now x.0 p.now ≡ Some t.now }
        requires u { substituted r.now x.0 q.now ≡ Some u.now }
        ensures { IfOk result (IsByRule rule.EqEl (pattern p.now ∷ pattern q.now ∷ pattern r.now
            ∷ pattern t.now ∷ pattern u.now ∷ variable x.0 ∷ []) []
            (imp (equal p.now q.now) (imp t.now u.now))) }
    {
        infer!(alloc, EqEl [Pat(p), Pat(q), Pat(r), Pat(t), Pat(u), Var(x)], [],
            (imp (equal p q) (imp t u)))
    }

    /// `p = q`, from `p -> q` and `q -> p`.
    pub fn eq_in(alloc: Global, a: &Thm, b: &Thm, p: &MPat, q: &MPat) -> Result<Thm, AllocError>
        requires a { a.now.conclusion ≡ imp p.now q.now }
        requires b { b.now.conclusion ≡ imp q.now p.now }
        ensures { IfOk result (IsByRule rule.EqIn (pattern p.now ∷ pattern q.now ∷ [])
            (a.now ∷ b.now ∷ []) (equal p.now q.now)) }
    {
        infer!(alloc, EqIn [Pat(p), Pat(q)], [a, b], (equal p q))
    }

    // Membership: an element is a member of itself; a pattern is not a member of a disjoint one;
    // different elements are disjoint.

    /// `fun p s -> p in p`.
    pub fn mem_in(alloc: Global, p: &MPat, s: MSort) -> Result<Thm, AllocError>
        ensures { IfOk result (IsByRule rule.MemIn (pattern p.now ∷ sort s.0 ∷ []) []
            (imp (fun p.now s.0) (member p.now p.now))) }
    {
        infer!(alloc, MemIn [Pat(p), Sort(s)], [], (imp (fun p s) (member p p)))
    }

    /// `r -> ~(p in q)`, from `r -> ~(p & q)`, where r is a predicate.
    pub fn mem_no(alloc: Global, a: &Thm, p: &MPat, q: &MPat, r: &MPat) -> Result<Thm, AllocError>
        requires a { a.now.conclusion ≡ imp r.now (not (and p.now q.now)) }
        requires predicate { IsPredicate r.now }
        ensures { IfOk result (IsByRule rule.MemNo
            (pattern p.now ∷ pattern q.now ∷ pattern r.now ∷ []) (a.now ∷ [])
            (imp r.now (not (member p.now q.now)))) }
    {
        infer!(alloc, MemNo [Pat(p), Pat(q), Pat(r)], [a], (imp r (not (member p q))))
    }

    /// `fun p s -> fun q v -> ~(p = q) -> ~(p & q)`.
    pub fn apart<'a>(
        alloc: Global,
        p: &'a MPat,
        q: &'a MPat,
        s: MSort,
        v: MSort,
    ) -> Result<Thm, AllocError>
        ensures { IfOk result (IsByRule rule.Apart
            (pattern p.now ∷ pattern q.now ∷ sort s.0 ∷ sort v.0 ∷ []) [] (imp (fun p.now s.0)
            (imp (fun q.now v.0) (imp (not (equal p.now q.now)) (not (and p.now q.now)))))) }
    {
        infer!(alloc, Apart [Pat(p), Pat(q), Sort(s), Sort(v)], [],
            (imp (fun p s) (imp (fun q v) (imp (not (equal p q)) (not (and p q))))))
    }

    // Application: framing, and the propagation of bottom (Chen and Rosu 2019).

    /// `r -> p t -> q t`, from `r -> p -> q`, where r is a predicate.
    pub fn app_l(
        alloc: Global,
        a: &Thm,
        p: &MPat,
        q: &MPat,
        r: &MPat,
        t: &MPat,
    ) -> Result<Thm, AllocError>
        requires a { a.now.conclusion ≡ imp r.now (imp p.now q.now) }
        requires predicate { IsPredicate r.now }
        ensures { IfOk result (IsByRule rule.AppL
            (pattern p.now ∷ pattern q.now ∷ pattern r.now ∷ pattern t.now ∷ []) (a.now ∷ [])
            (imp r.now (imp (app p.now t.now) (app q.now t.now)))) }
    {
        infer!(alloc, AppL [Pat(p), Pat(q), Pat(r), Pat(t)], [a], (imp r (imp (app p t) (app q t))))
    }

    /// `r -> t p -> t q`, from `r -> p -> q`, where r is a predicate.
    pub fn app_r(
        alloc: Global,
        a: &Thm,
        p: &MPat,
        q: &MPat,
        r: &MPat,
        t: &MPat,
    ) -> Result<Thm, AllocError>
        requires a { a.now.conclusion ≡ imp r.now (imp p.now q.now) }
        requires predicate { IsPredicate r.now }
        ensures { IfOk result (IsByRule rule.AppR
            (pattern p.now ∷ pattern q.now ∷ pattern r.now ∷ pattern t.now ∷ []) (a.now ∷ [])
            (imp r.now (imp (app t.now p.now) (app t.now q.now)))) }
    {
        infer!(alloc, AppR [Pat(p), Pat(q), Pat(r), Pat(t)], [a], (imp r (imp (app t p) (app t q))))
    }

    /// `bot p -> bot`.
    pub fn bot_l(alloc: Global, p: &MPat) -> Result<Thm, AllocError>
        ensures { IfOk result
            (IsByRule rule.BotL (pattern p.now ∷ []) [] (imp (app bot p.now) bot)) }
    {
        infer!(alloc, BotL [Pat(p)], [], (imp (app bot p) bot))
    }

    /// `p bot -> bot`.
    pub fn bot_r(alloc: Global, p: &MPat) -> Result<Thm, AllocError>
        ensures { IfOk result
            (IsByRule rule.BotR (pattern p.now ∷ []) [] (imp (app p.now bot) bot)) }
    {
        infer!(alloc, BotR [Pat(p)], [], (imp (app p bot) bot))
    }

    // Reachability: a step preserves an implication, and many steps are a least fixed point
    // (Knaster and Tarski).

    /// `next p -> next q`, from `p -> q`.
    pub fn next_in(alloc: Global, a: &Thm, p: &MPat, q: &MPat) -> Result<Thm, AllocError>
        requires { a.now.conclusion ≡ imp p.now q.now }
        ensures { IfOk result (IsByRule rule.NextIn (pattern p.now ∷ pattern q.now ∷ [])
            (a.now ∷ []) (imp (next p.now) (next q.now))) }
    {
        infer!(alloc, NextIn [Pat(p), Pat(q)], [a], (imp (next p) (next q)))
    }

    /// `p -> ev p`.
    pub fn ev_1(alloc: Global, p: &MPat) -> Result<Thm, AllocError>
        ensures { IfOk result (IsByRule rule.Ev1 (pattern p.now ∷ []) [] (imp p.now (ev p.now))) }
    {
        infer!(alloc, Ev1 [Pat(p)], [], (imp p (ev p)))
    }

    /// `next ev p -> ev p`.
    pub fn ev_2(alloc: Global, p: &MPat) -> Result<Thm, AllocError>
        ensures { IfOk result
            (IsByRule rule.Ev2 (pattern p.now ∷ []) [] (imp (next (ev p.now)) (ev p.now))) }
    {
        infer!(alloc, Ev2 [Pat(p)], [], (imp (next (ev p)) (ev p)))
    }

    /// `ev p -> q`, from `p -> q` and `next q -> q`.
    pub fn ev_kt(alloc: Global, a: &Thm, b: &Thm, p: &MPat, q: &MPat) -> Result<Thm, AllocError>
        requires a { a.now.conclusion ≡ imp p.now q.now }
        requires b { b.now.conclusion ≡ imp (next q.now) q.now }
        ensures { IfOk result (IsByRule rule.EvKt (pattern p.now ∷ pattern q.now ∷ [])
            (a.now ∷ b.now ∷ []) (imp (ev p.now) q.now)) }
    {
        infer!(alloc, EvKt [Pat(p), Pat(q)], [a, b], (imp (ev p) q))
    }
}
