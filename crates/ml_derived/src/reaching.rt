// Rules for reaching a pattern in steps.
ghost use Rattle.std.specs.Prelude.{◌≡◌, [], ◌∷◌, IfOk};
ghost use Rattle.ml_pat.specs.Patterns.{imp, next, ev};
ghost use Rattle.ml_derived.specs.Implications.{IsOneStepOn, ReachesOneFurther};
ghost use Rattle.ml_derived.specs.Parts.{IsNext};
ghost use Rattle.ml_derived.specs.Scopes.{StaysWithin};

use crate::implications::{chained, sides};
use crate::rules::{ev_1, ev_2, ev_kt, next_in};
use ml_kernel::Thm;
use ml_pat::{MForm, MPat};
use std::alloc::{AllocError, Global};

/// `a -> ev a`. An error: out of memory.
pub fn reach_here(alloc: Global, a: &MPat) -> Result<Thm, AllocError>
    ensures conclusion { IfOk result (λ t. t.conclusion ≡ imp a.now (ev a.now)) }
    ensures stays { IfOk result (StaysWithin (a.now ∷ []) []) }
{
    ev_1(alloc, a)
}

/// `a -> ev c`, from `a -> ev b` and `b -> next c`. An error: out of memory.
pub fn reach_step(alloc: Global, sofar: &Thm, step: &Thm) -> Result<Thm, AllocError>
    requires { IsOneStepOn sofar.now.conclusion step.now.conclusion }
    ensures conclusion { IfOk result
        (λ t. ReachesOneFurther sofar.now.conclusion step.now.conclusion t.conclusion) }
    ensures stays { IfOk result (StaysWithin [] (sofar.now ∷ step.now ∷ [])) }
{
    let (a, reached) = sides(sofar.conclusion());
    let (b, made) = sides(step.conclusion());
    let c = under_next(made);
    let end = MPat::ev(alloc, c)?;
    let one = reach_by(alloc, step, b, made, c, &end)?;
    let all = kept_reaching(alloc, &one, b, c, &end)?;
    chained(alloc, sofar, &all, a, reached, &end)
}

// `b -> ev c`, from `b -> next c`. `made` is `next c`, and `end` is `ev c`.
fn reach_by(
    alloc: Global,
    step: &Thm,
    b: &MPat,
    made: &MPat,
    c: &MPat,
    end: &MPat,
) -> Result<Thm, AllocError>
    requires step { step.now.conclusion ≡ imp b.now made.now }
    requires made { made.now ≡ next c.now }
    requires end { end.now ≡ ev c.now }
    ensures conclusion { IfOk result (λ t. t.conclusion ≡ imp b.now end.now) }
    ensures stays { IfOk result (StaysWithin [] (step.now ∷ [])) }
{
    let here = ev_1(alloc, c)?;
    let moved = next_in(alloc, &here, c, end)?;
    let before_end = MPat::next(alloc, end)?;
    let closing = ev_2(alloc, c)?;
    let on = chained(alloc, &moved, &closing, made, &before_end, end)?;
    chained(alloc, step, &on, b, made, end)
}

// `ev b -> ev c`, from `b -> ev c`. `end` is `ev c`.
fn kept_reaching(
    alloc: Global,
    one: &Thm,
    b: &MPat,
    c: &MPat,
    end: &MPat,
) -> Result<Thm, AllocError>
    requires one { one.now.conclusion ≡ imp b.now end.now }
    requires end { end.now ≡ ev c.now }
    ensures conclusion { IfOk result (λ t. t.conclusion ≡ imp (ev b.now) end.now) }
    ensures stays { IfOk result (StaysWithin [] (one.now ∷ [])) }
{
    let closing = ev_2(alloc, c)?;
    ev_kt(alloc, one, &closing, b, end)
}

// The pattern below `next`.
fn under_next(p: &MPat) -> &MPat
    requires { IsNext p.now }
    ensures { p.now ≡ next result.now }
{
    match p.form() {
        MForm::Next(below) => below,
        _ => unreachable!(),
    }
}
