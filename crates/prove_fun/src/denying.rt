// The guards of equations of the last resort: none of them holds at the terms at which such an
// equation was used.
ghost use Rattle.std.specs.Prelude.{ℕ, List, Option, Some, IfOk, map};
ghost use Rattle.term_core.specs.Forests.{forest};
ghost use Rattle.term_core.specs.Terms.{Forest, Tree};
ghost use Rattle.rule_core.specs.AcSymbols.{IsAcFree};
ghost use Rattle.rule_core.specs.BoundVariables.{IsEquationAt};
ghost use Rattle.rule_core.specs.ProgramView.{function_equation, guard_of, theory_of};
ghost use Rattle.rule_core.specs.RecordView.{plain_record};
ghost use Rattle.rule_core.specs.Records.{condition_false};
ghost use Rattle.rule_core.specs.Theories.{equations_of};
ghost use Rattle.rule_core.specs.WellSorted.{IsEquationOf};
ghost use Rattle.rule_core.specs.declared.signature.SymInfo.{SymInfo};
ghost use Rattle.prove_term.specs.Contexts.{HasGrown};
ghost use Rattle.prove_equation.specs.Conditions.{DeniesGuards};
ghost use Rattle.refute_guard.specs.Guards.{DeniesGuard, DenyGuards, FailsAt};
ghost use Rattle.prove_fun.specs.Denying.{CanDeny, CanDenyOne};
ghost use Rattle.prove_fun.specs.Evaluating.{IsSortedAndBound};
ghost use Rattle.prove_fun.specs.Missing.{AreValued, IsFalseAt, IsValued};
ghost use Rattle.prove_fun.specs.Using.{IsUseRecord, missed_record, missed_records};

use crate::equations::equation_of;
use ml_image::sort_of;
use ml_kernel::Thm;
use prove_term::Cx;
use refute::not_true;
use refute_guard::{Missed, guard_denied, no_guard};
use rule_core::{EqRecord, Equation, EvalRecord, Guard, Miss};
use std::alloc::{AllocError, Global};
use term_core::{SymId, Term};

// Proves that no guard of the used equation holds at the terms, if it has guards. `values` are the
// theorems on the conditions of the equations that were missed.
pub(crate) fn denied_guards(
    alloc: Global,
    cx: &mut Cx<'_>,
    symbol: SymId,
    equation: &Equation,
    used: &EqRecord,
    terms: &[Term],
    values: &[Option<Thm>],
) -> Result<Option<Thm>, AllocError>
    requires ready { IsSortedAndBound cx.old.program }
    requires equation { IsEquationAt cx.old.program symbol.0 used.now.equation equation.now }
    requires used { IsUseRecord cx.old.program symbol.0 (forest terms.now) used.now }
    requires values { AreValued cx.old symbol.0 (missed_records used.now) values.now }
    ensures denied { IfOk result
        (DeniesGuards cx.new symbol.0 (function_equation equation.now) (forest terms.now)) }
    ensures grown { HasGrown cx.old cx.new }
{
    let Some(guards) = &equation.owise else {
        return Ok(None);
    };
    let first = equation.params + equation.vars.len() as u32;
    let denied = all_denied(
        alloc,
        cx,
        symbol,
        first,
        guards,
        terms,
        &used.missed,
        values,
    )?;
    Ok(Some(no_guard(alloc, &denied)?))
}

// Proves that each of the guards does not hold at the terms. Their variables are numbered from
// `first`, and on from guard to guard.
fn all_denied(
    alloc: Global,
    cx: &mut Cx<'_>,
    symbol: SymId,
    first: u32,
    guards: &[Guard],
    terms: &[Term],
    missed: &[Miss],
    values: &[Option<Thm>],
) -> Result<Vec<Thm>, AllocError>
    requires { CanDeny cx.old symbol.0 first (map guard_of guards.now) (forest terms.now)
        (map missed_record missed.now) values.now }
    ensures denied { IfOk result
        (λ v. DenyGuards cx.new (equations_of (theory_of cx.old.program) symbol.0) first
        (map guard_of guards.now) (forest terms.now) v.items) }
    ensures grown { HasGrown cx.old cx.new }
{
    let mut denied = Vec::with_capacity(alloc, guards.len())?;
    let mut next = first;
    for i in 0..guards.len() {
        let guard = &guards[i];
        let number = guard.equation as usize;
        let equation = equation_of(cx.program(), symbol, number);
        let (miss, value) = (&missed[number], &values[number]);
        denied.push(denied_by(alloc, cx, equation, guard, next, terms, miss, value)?)?;
        next += guard.order.len() as u32;
    }
    Ok(denied)
}

// Proves that a guard does not hold at the terms, since the equation that it repeats is missed.
fn denied_by(
    alloc: Global,
    cx: &mut Cx<'_>,
    equation: &Equation,
    guard: &Guard,
    first: u32,
    terms: &[Term],
    miss: &Miss,
    value: &Option<Thm>,
) -> Result<Thm, AllocError>
    requires { CanDenyOne cx.old (function_equation equation.now) first guard.now.order.items
        (forest terms.now) (missed_record miss.now) value.now }
    ensures denied { IfOk result
        (DeniesGuard cx.new first guard.now.order.items (forest terms.now)
        (function_equation equation.now)) }
    ensures grown { HasGrown cx.old cx.new }
{
    let order = &guard.order;
    match (miss, value) {
        (Miss::NoMatch, _) => {
            guard_denied(alloc, cx, equation, order, first, terms, &Missed::NoMatch)
        }
        (Miss::CondFalse(subst, evaluation), Some(value)) => {
            let untrue = condition_untrue(alloc, cx, equation, evaluation, value)?;
            let missed = Missed::ConditionFalse(subst, &untrue);
            guard_denied(alloc, cx, equation, order, first, terms, &missed)
        }
        (Miss::CondFalse(..), None) => unreachable!(),
    }
}

// Proves that the condition of an equation is not true, from its value.
fn condition_untrue(
    alloc: Global,
    cx: &mut Cx<'_>,
    equation: &Equation,
    evaluation: &EvalRecord,
    value: &Thm,
) -> Result<Thm, AllocError>
    requires ready { IsSortedAndBound cx.old.program }
    requires no_ac { IsAcFree cx.old.program.sig }
    requires fits { (info : SymInfo)
        × IsEquationOf cx.old.program.sig info (function_equation equation.now) }
    requires untrue { (ts : Forest) × (sigma : List (Option Tree))
        × IsFalseAt cx.old.program (function_equation equation.now) ts sigma
        (plain_record evaluation.now)
        × IsValued cx.old (function_equation equation.now)
        (condition_false sigma (plain_record evaluation.now)) (Some value.now) }
    ensures fails { IfOk result (λ t. (ts : Forest) (sigma : List (Option Tree)) →
        IsFalseAt cx.old.program (function_equation equation.now) ts sigma
        (plain_record evaluation.now) →
        IsValued cx.old (function_equation equation.now)
        (condition_false sigma (plain_record evaluation.now)) (Some value.now) →
        FailsAt cx.new (function_equation equation.now) ts sigma t) }
    ensures grown { HasGrown cx.old cx.new }
{
    let Some(pat) = &equation.cond else {
        unreachable!()
    };
    let Some(sort) = sort_of(&cx.program().sig, &equation.vars, pat) else {
        unreachable!()
    };
    not_true(alloc, cx, value, evaluation.result(), sort)
}
