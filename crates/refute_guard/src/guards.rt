// A guard of an equation of the last resort does not hold.
ghost use Rattle.std.specs.Prelude.{◌<◌, ◌+◌, ◌^◌, IfOk, length};
ghost use Rattle.term_core.specs.RulePatterns.{sort_numbers};
ghost use Rattle.term_core.specs.Forests.{forest};
ghost use Rattle.rule_core.specs.AcSymbols.{IsAcFree};
ghost use Rattle.rule_core.specs.ProgramView.{function_equation, theory_of};
ghost use Rattle.rule_core.specs.WellSorted.{IsWellSorted};
ghost use Rattle.ml_image.specs.Sentences.{Sentence, bottom};
ghost use Rattle.prove_term.specs.Contexts.{HasGrown};
ghost use Rattle.refute_guard.specs.Guards.{DeniesGuard, IsMissed};
ghost use Rattle.guard_body.specs.Guarded.{IsAppliedTo, IsOrderOf};
ghost use Rattle.guard_body.specs.Arguments.{MatchTogether};
ghost use Rattle.refute_guard.specs.Repeated.{IsMissedHere, IsOfBody};
ghost use Rattle.guard_body.specs.Guarded.{IsGuarded};

use crate::bindings::by_bindings;
use crate::conditions::by_condition;
use crate::mismatched::by_mismatch;
use guard_body::{Guarded, all_found, bound_twice, repeated};
use ml_kernel::Thm;
use prove_term::Cx;
use refute_body::closed;
use rule_core::Equation;
use std::alloc::{AllocError, Global};
use term_core::{Subst, Term};

/// Why an equation is not used at terms.
#[derive(Clone, Copy)]
pub enum Missed<'a> {
    /// Its arguments do not match the terms.
    NoMatch,
    /// Its arguments match the terms by this substitution. The theorem says that its condition, with
    /// the terms of the substitution in place of its variables, is not true.
    ConditionFalse(&'a Subst, &'a Thm),
}

/// Proves that the guard that repeats an equation does not hold at terms, as the equation is not used
/// there. The guard lists the variables of the equation in this order, numbered from `first`.
/// `AllocError`: out of memory, or there are so many variables or arguments that new variables have
/// no number below 2^32. After an error the context may have grown. The recursion is as deep as the
/// arguments are high, and as an argument has variables. Each argument is gone through once for each
/// of its variables, but not if it does not match its term, or if nothing is needed of it. A condition
/// is gone through once for each variable of each argument.
pub fn guard_denied(
    alloc: Global,
    cx: &mut Cx<'_>,
    equation: &Equation,
    order: &[u32],
    first: u32,
    args: &[Term],
    missed: &Missed<'_>,
) -> Result<Thm, AllocError>
    requires well_sorted { IsWellSorted (theory_of cx.old.program) }
    requires no_ac { IsAcFree cx.old.program.sig }
    requires equation { IsAppliedTo cx.old.program.sig (function_equation equation.now)
        (forest args.now) }
    requires order { IsOrderOf (length equation.now.vars.items) order.now }
    requires few { first + length order.now < 2 ^ 32 }
    requires missed { IsMissed cx.old (function_equation equation.now) (forest args.now)
        missed.now }
    ensures denied { IfOk result
        (DeniesGuard cx.new first order.now (forest args.now) (function_equation equation.now)) }
    ensures grown { HasGrown cx.old cx.new }
{
    let guard = repeated(alloc, cx, equation, order, first, args)?;
    let none = body_denied(alloc, cx, &guard, missed)?;
    closed(alloc, none, order.len())
}

// Proves that the body of the guard does not hold.
fn body_denied(
    alloc: Global,
    cx: &mut Cx<'_>,
    guard: &Guarded<'_>,
    missed: &Missed<'_>,
) -> Result<Thm, AllocError>
    requires guard { (c : Sentence) × IsGuarded cx.old c guard.now
        × IsMissedHere cx.old (sort_numbers guard.now.sorts.items) guard.now.arguments.items c
        missed.now }
    ensures says { IfOk result (IsOfBody cx.new guard.now bottom) }
    ensures grown { HasGrown cx.old cx.new }
{
    let sig = &cx.program().sig;
    let found = all_found(alloc, sig, &guard.sorts, &guard.arguments)?;
    if found.len() < guard.arguments.len() {
        return by_mismatch(alloc, cx, guard, found.len());
    }
    match bound_twice(&found) {
        Some(twice) => {
            let theta = &found[twice.first];
            let sigma = &found[twice.second];
            by_bindings(alloc, cx, guard, twice, theta, sigma)
        }
        None => one_denied(alloc, cx, guard, &found, missed),
    }
}

// Proves that the body of the guard does not hold. The substitutions match the arguments, and are
// one.
fn one_denied(
    alloc: Global,
    cx: &mut Cx<'_>,
    guard: &Guarded<'_>,
    found: &[Subst],
    missed: &Missed<'_>,
) -> Result<Thm, AllocError>
    requires guard { (c : Sentence) × IsGuarded cx.old c guard.now
        × IsMissedHere cx.old (sort_numbers guard.now.sorts.items) guard.now.arguments.items c
        missed.now }
    requires together { MatchTogether cx.old.program.sig (sort_numbers guard.now.sorts.items)
        guard.now.arguments.items found.now }
    ensures says { IfOk result (IsOfBody cx.new guard.now bottom) }
    ensures grown { HasGrown cx.old cx.new }
{
    match missed {
        Missed::NoMatch => unreachable!(),
        Missed::ConditionFalse(_, denial) => by_condition(alloc, cx, guard, found, denial),
    }
}
