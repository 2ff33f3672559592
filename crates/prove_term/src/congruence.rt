// Applications: their parts, and what equalities of the parts say of the whole.
ghost use Rattle.std.specs.Prelude.{◌≡◌, ℕ, List, IfOk, length};
ghost use Rattle.ml_pat.specs.Patterns.{Pattern, app};
ghost use Rattle.ml_kernel.specs.Lemmas.{HasNoVariable};
ghost use Rattle.prove_term.specs.Contexts.{HasGrown};
ghost use Rattle.prove_term.specs.Applications.{applied_to, IsApplication, SaysEqualTo};

use crate::context::Cx;
use crate::equalities::{cong_app, cong_arg, cong_fun};
use ml_kernel::Thm;
use ml_pat::{MForm, MPat};
use std::alloc::{AllocError, Global};

/// A head, and the patterns to which it is applied.
#[derive(Drop)]
pub struct Parts {
    pub head: MPat,
    pub arguments: Vec<MPat>,
}

/// Takes apart a head that is applied to `count` patterns. `AllocError`: out of memory.
pub fn taken_apart(alloc: Global, image: &MPat, count: usize) -> Result<Parts, AllocError>
    requires { (head : Pattern) × (qs : List Pattern) × (image.now ≡ applied_to head qs)
        × (count ≡ length qs) }
    ensures { IfOk result
        (λ a. (head : Pattern) (qs : List Pattern) → image.now ≡ applied_to head qs →
        count ≡ length qs → (a.head ≡ head) × (a.arguments.items ≡ qs)) }
{
    let mut arguments = Vec::with_capacity(alloc, count)?;
    let mut rest = image;
    for i in 0..count {
        let (function, argument) = halves(rest);
        arguments.push(argument.share()?)?;
        rest = function;
    }
    arguments.reverse();
    let head = rest.share()?;
    Ok(Parts { head, arguments })
}

/// Returns the function and the argument of an application.
pub fn halves(p: &MPat) -> (&MPat, &MPat)
    requires { (f a : Pattern) × (p.now ≡ app f a) }
    ensures { p.now ≡ app result.0.now result.1.now }
{
    match p.form() {
        MForm::App(function, argument) => (function, argument),
        _ => unreachable!(),
    }
}

/// Proves that an application equals the one in which function and argument are replaced by what
/// equals them. Without any equality there is no theorem. `AllocError`: out of memory. After an
/// error the context may have grown.
pub fn applied(
    alloc: Global,
    cx: &mut Cx<'_>,
    function: &Option<Thm>,
    f: &MPat,
    argument: &Option<Thm>,
    a: &MPat,
) -> Result<Option<Thm>, AllocError>
    requires function { SaysEqualTo f.now function.now }
    requires argument { SaysEqualTo a.now argument.now }
    requires closed { HasNoVariable f.now × HasNoVariable a.now }
    ensures says { IfOk result (IsApplication cx.new f.now a.now function.now argument.now) }
    ensures grown { HasGrown cx.old cx.new }
{
    match (function, argument) {
        (None, None) => Ok(None),
        (Some(d), None) => Ok(Some(cong_fun(alloc, cx, d, a)?)),
        (None, Some(e)) => Ok(Some(cong_arg(alloc, cx, f, e)?)),
        (Some(d), Some(e)) => Ok(Some(cong_app(alloc, cx, d, e)?)),
    }
}
