// Chains of equalities, some of which may be missing.
ghost use Rattle.std.specs.Prelude.{IfOk, Some};
ghost use Rattle.ml_pat.specs.Patterns.{Pattern};
ghost use Rattle.prove_term.specs.Contexts.{Context, HasGrown};
ghost use Rattle.prove_term.specs.Comparing.{IsOverContext};
ghost use Rattle.prove_fun.specs.Evaluating.{AreLinked, Equates};

use ml_derived::eq_refl;
use ml_kernel::Thm;
use ml_pat::MPat;
use prove_term::{Cx, join};
use std::alloc::{AllocError, Global};

// From `a = b` and `b = c`: `a = c`. If an equality is missing, its sides are the same.
#[inline(never)]
pub(crate) fn joined(
    alloc: Global,
    cx: &mut Cx<'_>,
    first: Option<Thm>,
    second: Option<Thm>,
) -> Result<Option<Thm>, AllocError>
    requires { (a b c : Pattern) × AreLinked cx.old a b c first second }
    ensures says { IfOk result
        (λ o. (a b c : Pattern) → AreLinked cx.old a b c first second → Equates cx.new a c o) }
    ensures grown { HasGrown cx.old cx.new }
{
    match (first, second) {
        (Some(d), Some(e)) => Ok(Some(join(alloc, cx, &d, &e)?)),
        (None, o) | (o, None) => Ok(o),
    }
}

// From `a = b` and `b = c`: `a = c`. If the second equality is missing, its sides are the same.
#[inline(never)]
pub(crate) fn followed(
    alloc: Global,
    cx: &mut Cx<'_>,
    first: Thm,
    second: &Option<Thm>,
) -> Result<Thm, AllocError>
    requires { (a b c : Pattern) × AreLinked cx.old a b c (Some first) second.now }
    ensures says { IfOk result
        (λ t. (a b c : Pattern) → AreLinked cx.old a b c (Some first) second.now →
        Equates cx.new a c (Some t)) }
    ensures grown { HasGrown cx.old cx.new }
{
    match second {
        Some(equality) => join(alloc, cx, &first, equality),
        None => Ok(first),
    }
}

// Returns an equality in each case. If none was found, it says that the image equals itself.
#[inline(never)]
pub(crate) fn equality(alloc: Global, found: Option<Thm>, image: &MPat) -> Result<Thm, AllocError>
    ensures { IfOk result (λ t. (cx : Context) (a : Pattern) → IsOverContext cx image.now →
        Equates cx a image.now found → Equates cx a image.now (Some t)) }
{
    match found {
        Some(thm) => Ok(thm),
        None => eq_refl(alloc, image),
    }
}
