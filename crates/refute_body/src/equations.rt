// The equations of variables that follow from a guard's body.
ghost use Rattle.std.specs.Prelude.{◌≡◌, ◌∷◌, IfOk, []};
ghost use Rattle.ml_pat.specs.Patterns.{Pattern, and};
ghost use Rattle.ml_derived.specs.Scopes.{StaysWithin};
ghost use Rattle.refute_body.specs.Implications.{HasEquation, IsUnderTwo, first_equation};
ghost use Rattle.refute_body.specs.Implications.{is_equation_on};

use crate::parts::{conjuncts, sides};
use ml_derived::{and_1, and_2, then};
use ml_kernel::Thm;
use ml_pat::{MForm, MPat};
use std::alloc::{AllocError, Global};

// `g -> b -> p`, from `g -> b -> p & q`.
pub(crate) fn first_of(alloc: Global, present: &Thm) -> Result<Thm, AllocError>
    requires { (g b p q : Pattern) × IsUnderTwo g b (and p q) present.now.conclusion }
    ensures conclusion { IfOk result (λ t. (g b p q : Pattern)
        → IsUnderTwo g b (and p q) present.now.conclusion → IsUnderTwo g b p t.conclusion) }
    ensures stays { IfOk result (StaysWithin [] (present.now ∷ [])) }
{
    let (g, rest) = sides(present.conclusion());
    let (b, both) = sides(rest);
    let (p, q) = conjuncts(both);
    then(alloc, present, &and_1(alloc, p, q)?, g, b, both, p)
}

// `g -> b -> q`, from `g -> b -> p & q`.
pub(crate) fn others_of(alloc: Global, present: &Thm) -> Result<Thm, AllocError>
    requires { (g b p q : Pattern) × IsUnderTwo g b (and p q) present.now.conclusion }
    ensures conclusion { IfOk result (λ t. (g b p q : Pattern)
        → IsUnderTwo g b (and p q) present.now.conclusion → IsUnderTwo g b q t.conclusion) }
    ensures stays { IfOk result (StaysWithin [] (present.now ∷ [])) }
{
    let (g, rest) = sides(present.conclusion());
    let (b, both) = sides(rest);
    let (p, q) = conjuncts(both);
    then(alloc, present, &and_2(alloc, p, q)?, g, b, both, q)
}

/// The pattern p of a theorem `g -> b -> p`.
pub fn conclusion(present: &Thm) -> &MPat
    requires { (g b p : Pattern) × IsUnderTwo g b p present.now.conclusion }
    ensures { (g b p : Pattern) → IsUnderTwo g b p present.now.conclusion → result.now ≡ p }
{
    let (_, rest) = sides(present.conclusion());
    let (_, p) = sides(rest);
    p
}

/// `g -> b -> x = t`, from `g -> b -> e`, where e is a conjunction of equations. One of them is of x.
/// `AllocError`: out of memory.
pub fn equation_of(alloc: Global, equations: &Thm, x: u32) -> Result<Thm, AllocError>
    requires { (g b p : Pattern) × IsUnderTwo g b p equations.now.conclusion
        × HasEquation x p }
    ensures conclusion { IfOk result (λ t. (g b p : Pattern)
        → IsUnderTwo g b p equations.now.conclusion
        → IsUnderTwo g b (first_equation x p) t.conclusion) }
    ensures stays { IfOk result (StaysWithin [] (equations.now ∷ [])) }
{
    let mut present = equations.share(alloc)?;
    while !begins_with(&present, x) {
        present = others_of(alloc, &present)?;
    }
    first_of(alloc, &present)
}

// Whether the first of the equations is of x.
fn begins_with(equations: &Thm, x: u32) -> bool
    requires { (g b p q : Pattern) × IsUnderTwo g b (and p q) equations.now.conclusion }
    ensures { (g b p q : Pattern) → IsUnderTwo g b (and p q) equations.now.conclusion
        → result ≡ is_equation_on x p }
{
    let (first, _) = conjuncts(conclusion(equations));
    is_equation_on(first, x)
}

// Whether the pattern is an equation of x.
pub(crate) fn is_equation_on(p: &MPat, x: u32) -> bool
    ensures { result ≡ is_equation_on x p.now }
{
    match p.form() {
        MForm::Equal(left, _) => match left.form() {
            MForm::Var(y) => y.0 == x,
            _ => false,
        },
        _ => false,
    }
}
