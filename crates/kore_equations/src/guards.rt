// The guards of an equation of the last resort (`owise`). Each repeats another equation.
ghost use Rattle.std.specs.Prelude.{◌≡◌, ◌↔◌, IsTrue, map, IfOk};
ghost use Rattle.kore_ast.specs.Plain.{plain_sort, pattern_tree};
ghost use Rattle.rule_core.specs.ProgramView.{function_equation, sorts_of};
ghost use Rattle.rule_core.specs.WellSorted.{IsSignature};
ghost use Rattle.kore_sig.specs.Numbered.{IsNumbered};
ghost use Rattle.kore_check.specs.Folds.{unfolded};
ghost use Rattle.kore_check.specs.PartNames.{number_of_variable};
ghost use Rattle.kore_shapes.specs.ResortViews.{plain_guard};
ghost use Rattle.kore_shapes.specs.Views.{pattern_at};
ghost use Rattle.kore_equations.specs.GuardReadings.{IsGuardRead, AreGuardsRead, IsOrder};
ghost use Rattle.kore_equations.specs.GuardReadings.{IsGuardOf, IsRepeated, AreSame};
ghost use Rattle.kore_equations.specs.GuardReadings.{HasSameVariables, HasSamePatterns};

use crate::marks::{mark, no_marks};
use crate::patterns::{Sides, built_sides};
use crate::same::{same_named, same_option, same_patterns};
use crate::sides::are_clear;
use kore_ast::{Pat, Sort};
use kore_axioms::over_bool;
use kore_check::{Variables, as_number, variable_of};
use kore_shapes::{GuardParts, given_condition};
use kore_sig::sort_number;
use rule_core::{Equation, Guard, Signature, SymInfo, VarInfo};
use std::alloc::{AllocError, Global};
use term_core::SortId;

/// The guards of an equation over this sort. Returns none if one of them repeats none of the other
/// equations.
pub(crate) fn read_guards(
    alloc: Global,
    sig: &Signature,
    symbol: &SymInfo,
    over: &Sort,
    guards: &[GuardParts<'_>],
    others: &[Equation],
) -> Result<Option<Vec<Guard>>, AllocError>
    requires numbered { IsNumbered sig.now }
    requires signature { IsSignature sig.now }
    ensures { IfOk result (AreGuardsRead sig.now symbol.now (plain_sort over.now)
        (map function_equation others.now) (map plain_guard guards.now)) }
{
    let mut read = Vec::with_capacity(alloc, guards.len())?;
    for guard in guards {
        let Some(made) = read_guard(alloc, sig, symbol, over, guard, others)? else {
            return Ok(None);
        };
        read.push(made)?;
    }
    Ok(Some(read))
}

/// The guard with the first of the other equations that it repeats. Returns none if there is no such
/// equation.
fn read_guard(
    alloc: Global,
    sig: &Signature,
    symbol: &SymInfo,
    over: &Sort,
    guard: &GuardParts<'_>,
    others: &[Equation],
) -> Result<Option<Guard>, AllocError>
    requires numbered { IsNumbered sig.now }
    requires signature { IsSignature sig.now }
    ensures { IfOk result (IsGuardRead sig.now symbol.now (plain_sort over.now)
        (map function_equation others.now) (plain_guard guard.now)) }
{
    let condition = over_bool(sig, given_condition(Some(guard.condition), over));
    if !are_clear(sig, symbol, &guard.patterns, condition) {
        return Ok(None);
    }
    match built_sides(alloc, sig, &guard.patterns, condition)? {
        Some(sides) => guard_of(alloc, sig, guard, others, &sides),
        None => Ok(None),
    }
}

/// The guard that is built of these sides, with the first of the other equations that has them.
/// Returns none if there is no such equation, or if not each variable is quantified once.
fn guard_of(
    alloc: Global,
    sig: &Signature,
    guard: &GuardParts<'_>,
    others: &[Equation],
    sides: &Sides,
) -> Result<Option<Guard>, AllocError>
    requires { IsNumbered sig.now }
    ensures { IfOk result (IsGuardOf sig.now (map function_equation others.now)
        (plain_guard guard.now) sides.now) }
{
    let Some(order) = order_of(alloc, sig, &guard.variables, &sides.vars)? else {
        return Ok(None);
    };
    let Some(number) = repeated(others, sides) else {
        return Ok(None);
    };
    let equation = as_number(number).ok_or(AllocError)?;
    Ok(Some(Guard { equation, order }))
}

/// The numbers of quantified variables. Returns none unless each of the variables is quantified once,
/// and nothing else is.
fn order_of(
    alloc: Global,
    sig: &Signature,
    quantified: &[&Pat],
    vars: &Variables,
) -> Result<Option<Vec<u32>>, AllocError>
    requires { IsNumbered sig.now }
    ensures { IfOk result (IsOrder sig.now vars.now (map pattern_at quantified.now)) }
{
    if quantified.len() != vars.len() {
        return Ok(None);
    }
    let mut order = Vec::with_capacity(alloc, quantified.len())?;
    let mut seen = no_marks(alloc, vars.len())?;
    for pat in quantified {
        let Some(number) = number_of(sig, pat, vars) else {
            return Ok(None);
        };
        if seen[number as usize] {
            return Ok(None);
        }
        mark(&mut seen, number as usize);
        order.push(number)?;
    }
    Ok(Some(order))
}

/// The number of a variable, if the pattern is one.
fn number_of(sig: &Signature, pat: &Pat, vars: &Variables) -> Option<u32>
    requires { IsNumbered sig.now }
    ensures { result ≡ number_of_variable sig.now vars.now (unfolded (pattern_tree pat.now)) }
{
    let variable = variable_of(pat)?;
    let sort = sort_number(&sig.sorts, variable.sort)?;
    vars.number(variable.name.as_str(), SortId(sort as u32))
}

/// The number of the first equation that has these patterns and this condition, with variables of
/// the same sorts.
fn repeated(others: &[Equation], sides: &Sides) -> Option<usize>
    ensures { IsRepeated (map function_equation others.now) sides.now result }
{
    for (i, other) in others.iter().enumerate() {
        if is_same(other, sides) {
            return Some(i);
        }
    }
    None
}

/// Whether an equation has these patterns and this condition, with variables of the same sorts.
fn is_same(equation: &Equation, sides: &Sides) -> bool
    ensures { IsTrue result ↔ AreSame (function_equation equation.now) sides.now }
{
    has_same_variables(equation, sides) && has_same_patterns(equation, sides)
}

/// Whether an equation has variables of the same sorts, and the same names of parts.
fn has_same_variables(equation: &Equation, sides: &Sides) -> bool
    ensures { IsTrue result ↔ HasSameVariables (function_equation equation.now) sides.now }
{
    same_sorts(&equation.vars, sides.vars.infos()) && same_named(&equation.named, &sides.named)
}

/// Whether an equation has these patterns of arguments and this condition.
fn has_same_patterns(equation: &Equation, sides: &Sides) -> bool
    ensures { IsTrue result ↔ HasSamePatterns (function_equation equation.now) sides.now }
{
    same_patterns(&equation.args, &sides.args)
        && same_option(equation.cond.as_ref(), sides.cond.as_ref())
}

/// Whether variables have the same sorts, in order.
fn same_sorts(vars: &[VarInfo], others: &[VarInfo]) -> bool
    ensures { IsTrue result ↔ (sorts_of vars.now ≡ sorts_of others.now) }
{
    if vars.len() != others.len() {
        return false;
    }
    for i in 0..vars.len() {
        if vars[i].sort != others[i].sort {
            return false;
        }
    }
    true
}
