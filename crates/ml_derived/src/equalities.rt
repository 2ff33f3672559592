// Rules of equality. Each replaces one side of an equality by the other in a context. A context is
// a pattern with a variable that marks the place.
ghost use Rattle.std.specs.Prelude.{◌≡◌, [], ◌∷◌, IfOk, Some};
ghost use Rattle.ml_pat.specs.Patterns.{equal, app, var};
ghost use Rattle.ml_pat.specs.Judgements.{substituted};
ghost use Rattle.ml_kernel.specs.Lemmas.{HasNoVariable};
ghost use Rattle.ml_derived.specs.Equalities.{hole, CanCarry, IsCarried, IsFromClosed, IsFlip};
ghost use Rattle.ml_derived.specs.Equalities.{AreJoinable, IsJoin};
ghost use Rattle.ml_derived.specs.Equalities.{AreApplicable, IsApplied, IsAppliedTo, IsArgument};
ghost use Rattle.ml_derived.specs.Parts.{IsEquality, CanReplace};
ghost use Rattle.ml_derived.specs.Scopes.{StaysWithin};

use crate::rules::{eq_el, eq_refl, mp};
use ml_kernel::Thm;
use ml_pat::{MForm, MPat, VarNo, subst};
use std::alloc::{AllocError, Global};

// The variable that marks the place in the contexts of this module. The other parts of these
// contexts have no variable.
const HOLE: VarNo = VarNo(0);

/// The context with q for x, from `p = q` and the context with p for x. An error: out of memory.
pub fn carry(alloc: Global, eq: &Thm, ctx: &MPat, x: VarNo, thm: &Thm) -> Result<Thm, AllocError>
    requires { CanCarry eq.now.conclusion ctx.now x.0 thm.now.conclusion }
    ensures conclusion { IfOk result (λ t. IsCarried eq.now.conclusion ctx.now x.0 t.conclusion) }
    ensures stays { IfOk result (StaysWithin (ctx.now ∷ var x.0 ∷ []) (eq.now ∷ thm.now ∷ [])) }
{
    let (p, q) = sides(eq.conclusion());
    let made = replaced(alloc, ctx, x, q)?;
    carried(alloc, eq, p, q, ctx, x, thm, &made)
}

/// `q = p`, from `p = q`. An error: out of memory.
pub fn flip(alloc: Global, ab: &Thm) -> Result<Thm, AllocError>
    requires { IsFromClosed ab.now.conclusion }
    ensures conclusion { IfOk result (λ t. IsFlip ab.now.conclusion t.conclusion) }
    ensures stays { IfOk result (StaysWithin (var hole ∷ []) (ab.now ∷ [])) }
{
    let (p, q) = sides(ab.conclusion());
    let same = eq_refl(alloc, p)?;
    let context = MPat::equal(alloc, &MPat::var(alloc, HOLE)?, p)?;
    let flipped = MPat::equal(alloc, q, p)?;
    carried(alloc, ab, p, q, &context, HOLE, &same, &flipped)
}

/// `p = r`, from `p = q` and `q = r`. An error: out of memory.
pub fn join(alloc: Global, ab: &Thm, bc: &Thm) -> Result<Thm, AllocError>
    requires { AreJoinable ab.now.conclusion bc.now.conclusion }
    ensures conclusion { IfOk result
        (λ t. IsJoin ab.now.conclusion bc.now.conclusion t.conclusion) }
    ensures stays { IfOk result (StaysWithin (var hole ∷ []) (ab.now ∷ bc.now ∷ [])) }
{
    let (p, _) = sides(ab.conclusion());
    let (q, r) = sides(bc.conclusion());
    let context = MPat::equal(alloc, p, &MPat::var(alloc, HOLE)?)?;
    let joined = MPat::equal(alloc, p, r)?;
    carried(alloc, bc, q, r, &context, HOLE, ab, &joined)
}

/// `p r = q t`, from `p = q` and `r = t`. An error: out of memory.
pub fn cong_app(alloc: Global, f: &Thm, a: &Thm) -> Result<Thm, AllocError>
    requires { AreApplicable f.now.conclusion a.now.conclusion }
    ensures conclusion { IfOk result
        (λ t. IsApplied f.now.conclusion a.now.conclusion t.conclusion) }
    ensures stays { IfOk result (StaysWithin (var hole ∷ []) (f.now ∷ a.now ∷ [])) }
{
    let (p, q) = sides(f.conclusion());
    let (r, t) = sides(a.conclusion());
    let from = MPat::app(alloc, p, r)?;
    let one = applied_to(alloc, f, p, q, r, &from)?;
    argument_in(alloc, &one, a, q, r, t, &from)
}

/// `p r = q r`, from `p = q`. An error: out of memory.
pub fn cong_fun(alloc: Global, f: &Thm, r: &MPat) -> Result<Thm, AllocError>
    requires equality { IsFromClosed f.now.conclusion }
    requires closed { HasNoVariable r.now }
    ensures conclusion { IfOk result (λ t. IsAppliedTo f.now.conclusion r.now t.conclusion) }
    ensures stays { IfOk result (StaysWithin (r.now ∷ var hole ∷ []) (f.now ∷ [])) }
{
    let (p, q) = sides(f.conclusion());
    let from = MPat::app(alloc, p, r)?;
    applied_to(alloc, f, p, q, r, &from)
}

/// `p r = p t`, from `r = t`. An error: out of memory.
pub fn cong_arg(alloc: Global, p: &MPat, a: &Thm) -> Result<Thm, AllocError>
    requires closed { HasNoVariable p.now }
    requires equality { IsFromClosed a.now.conclusion }
    ensures conclusion { IfOk result (λ t. IsArgument p.now a.now.conclusion t.conclusion) }
    ensures stays { IfOk result (StaysWithin (p.now ∷ var hole ∷ []) (a.now ∷ [])) }
{
    let (r, t) = sides(a.conclusion());
    let from = MPat::app(alloc, p, r)?;
    let same = eq_refl(alloc, &from)?;
    argument_in(alloc, &same, a, p, r, t, &from)
}

// `p r = q r`, from `p = q`. `from` is `p r`.
fn applied_to(
    alloc: Global,
    f: &Thm,
    p: &MPat,
    q: &MPat,
    r: &MPat,
    from: &MPat,
) -> Result<Thm, AllocError>
    requires f { f.now.conclusion ≡ equal p.now q.now }
    requires from { from.now ≡ app p.now r.now }
    requires closed_p { HasNoVariable p.now }
    requires closed_r { HasNoVariable r.now }
    ensures conclusion { IfOk result (λ t. t.conclusion ≡ equal from.now (app q.now r.now)) }
    ensures stays { IfOk result (StaysWithin (r.now ∷ var hole ∷ []) (f.now ∷ [])) }
{
    let same = eq_refl(alloc, from)?;
    let open = MPat::app(alloc, &MPat::var(alloc, HOLE)?, r)?;
    let context = MPat::equal(alloc, from, &open)?;
    let made = MPat::equal(alloc, from, &MPat::app(alloc, q, r)?)?;
    carried(alloc, f, p, q, &context, HOLE, &same, &made)
}

// `from = q t`, from `from = q r` and `r = t`.
fn argument_in(
    alloc: Global,
    one: &Thm,
    a: &Thm,
    q: &MPat,
    r: &MPat,
    t: &MPat,
    from: &MPat,
) -> Result<Thm, AllocError>
    requires one { one.now.conclusion ≡ equal from.now (app q.now r.now) }
    requires a { a.now.conclusion ≡ equal r.now t.now }
    requires closed_from { HasNoVariable from.now }
    requires closed_q { HasNoVariable q.now }
    ensures conclusion { IfOk result (λ e. e.conclusion ≡ equal from.now (app q.now t.now)) }
    ensures stays { IfOk result (StaysWithin (var hole ∷ []) (one.now ∷ a.now ∷ [])) }
{
    let open = MPat::app(alloc, q, &MPat::var(alloc, HOLE)?)?;
    let context = MPat::equal(alloc, from, &open)?;
    let made = MPat::equal(alloc, from, &MPat::app(alloc, q, t)?)?;
    carried(alloc, a, r, t, &context, HOLE, one, &made)
}

// `made`, which is the context with q for x, from `p = q` and the context with p for x.
fn carried(
    alloc: Global,
    eq: &Thm,
    p: &MPat,
    q: &MPat,
    ctx: &MPat,
    x: VarNo,
    thm: &Thm,
    made: &MPat,
) -> Result<Thm, AllocError>
    requires eq { eq.now.conclusion ≡ equal p.now q.now }
    requires given { substituted ctx.now x.0 p.now ≡ Some thm.now.conclusion }
    requires made { substituted ctx.now x.0 q.now ≡ Some made.now }
    ensures conclusion { IfOk result (λ t. t.conclusion ≡ made.now) }
    ensures stays { IfOk result (StaysWithin (ctx.now ∷ var x.0 ∷ []) (eq.now ∷ thm.now ∷ [])) }
{
    let given = thm.conclusion();
    let rule = eq_el(alloc, p, q, ctx, given, made, x)?;
    let turned = MPat::imp(alloc, given, made)?;
    let open = mp(alloc, eq, &rule, eq.conclusion(), &turned)?;
    mp(alloc, thm, &open, given, made)
}

// The context with q for x.
fn replaced(alloc: Global, ctx: &MPat, x: VarNo, q: &MPat) -> Result<MPat, AllocError>
    requires { CanReplace ctx.now x.0 q.now }
    ensures { IfOk result (λ made. substituted ctx.now x.0 q.now ≡ Some made) }
{
    match subst(alloc, ctx, x, q)? {
        Some(made) => Ok(made),
        None => unreachable!(),
    }
}

// The two sides of an equality.
fn sides(p: &MPat) -> (&MPat, &MPat)
    requires { IsEquality p.now }
    ensures { p.now ≡ equal result.0.now result.1.now }
{
    match p.form() {
        MForm::Equal(left, right) => (left, right),
        _ => unreachable!(),
    }
}
