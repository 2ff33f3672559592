// The quantifiers in front of what does not hold.
ghost use Rattle.std.specs.Prelude.{◌≡◌, ◌∷◌, ℕ, List, IfOk, [], length};
ghost use Rattle.ml_pat.specs.Patterns.{Pattern, bot, fun, imp, var};
ghost use Rattle.ml_derived.specs.Scopes.{StaysWithin};
ghost use Rattle.refute_body.specs.Implications.{CanClose, IsClosed, IsOpen, for_some_of};

use crate::parts::{conjuncts, element, sides};
use ml_derived::{ex_el, mp, swap, swap_under, top, unpack};
use ml_kernel::Thm;
use ml_pat::{MForm, MPat, MSort, VarNo};
use std::alloc::{AllocError, Global};

/// `e' -> bot`, where e' says that e holds for some values of variables. `none` says that e does not
/// hold, if these `count` variables are elements of their sorts. `AllocError`: out of memory.
pub fn closed(alloc: Global, none: Thm, count: usize) -> Result<Thm, AllocError>
    requires { (ps : List (ℕ × ℕ)) × (e : Pattern) × IsOpen ps e none.conclusion
        × (count ≡ length ps) }
    ensures conclusion { IfOk result (λ t. (ps : List (ℕ × ℕ)) (e : Pattern)
        → IsOpen ps e none.conclusion → count ≡ length ps
        → t.conclusion ≡ imp (for_some_of ps e) bot) }
    ensures stays { IfOk result (StaysWithin [] (none ∷ [])) }
{
    let mut present = none;
    for _ in 0..count {
        present = one_closed(alloc, &present)?;
    }
    let (g, rest) = sides(present.conclusion());
    mp(alloc, &top(alloc)?, &present, g, rest)
}

// `g -> ex x s e -> bot`, from `fun x s & g -> e -> bot`. The variable x is not free in g.
fn one_closed(alloc: Global, none: &Thm) -> Result<Thm, AllocError>
    requires { CanClose none.now.conclusion }
    ensures conclusion { IfOk result (λ t. IsClosed none.now.conclusion t.conclusion) }
    ensures stays { IfOk result (StaysWithin [] (none.now ∷ [])) }
{
    let (h, rest) = sides(none.conclusion());
    let (one, g) = conjuncts(h);
    let (x, s) = variable(one);
    let (e, nothing) = sides(rest);
    let open = unpack(alloc, none, one, g, rest)?;
    let turned = swap_under(alloc, &open, one, g, e, nothing)?;
    let kept = MPat::imp(alloc, g, nothing)?;
    let some = ex_el(alloc, &turned, e, &kept, x, s)?;
    swap(alloc, &some, &MPat::ex(alloc, x, s, e)?, g, nothing)
}

// The variable that is an element of a sort, and the sort.
fn variable(p: &MPat) -> (VarNo, MSort)
    requires { (x s : ℕ) × (p.now ≡ fun (var x) s) }
    ensures { p.now ≡ fun (var result.0.0) result.1.0 }
{
    let (below, sort) = element(p);
    match below.form() {
        MForm::Var(x) => (*x, sort),
        _ => unreachable!(),
    }
}
