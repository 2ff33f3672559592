// The images of rewrite rules and equations.
ghost use Rattle.std.specs.Prelude.{◌≡◌, ◌≢◌, ◌<◌, ◌≤◌, ◌+◌, ◌^◌, [], length, map, IfOk, Some};
ghost use Rattle.std.specs.Prelude.{option_map, option_copied, slice_get, IfSome, All};
ghost use Rattle.ml_pat.specs.Patterns.{imp, and, equal, next};
ghost use Rattle.term_core.specs.RulePatterns.{plain_pattern, sort_numbers};
ghost use Rattle.term_core.specs.PatternLists.{plain_patterns};
ghost use Rattle.rule_core.specs.ProgramView.{sorts_of, names_of, rewrite_rule, function_equation};
ghost use Rattle.term_core.specs.declared.ids.SortId.{SortId};
ghost use Rattle.ml_image.specs.Images.{all_renamed};
ghost use Rattle.ml_image.specs.Sentences.{IsImageOf, sentence_image, symbol};
ghost use Rattle.ml_image.specs.NamedSides.{applied_sides, left_sentence, of_child};
ghost use Rattle.ml_image.specs.PartNames.{part_names, names_renamed};
ghost use Rattle.ml_image.specs.Premises.{sort_of, made_sort, meets};
ghost use Rattle.ml_image.specs.LastResorts.{premise};
ghost use Rattle.ml_image.specs.OwnAxioms.{SaysRule, SaysEquation};
ghost use Rattle.ml_image.specs.HasImages.{HaveImages, HasRuleImage, HasEquationImage, IsTruth};
ghost use Rattle.ml_image.specs.HasImages.{IsCondition, AreNamesBelow, HasImage, HasPremise};
ghost use Rattle.ml_image.specs.HasImages.{HasFittingGuards};
ghost use Rattle.ml_image.specs.Numbering.{number_in, room};
ghost use Rattle.ml_image.specs.Counted.{IsConditionImage};
ghost use Rattle.ml_image.specs.Held.{held};
ghost use Rattle.ml_image.specs.Gained.{HasGained};

use crate::closing::{close, named_sorts, variable_sorts};
use crate::constructors::{declaration, of_variables};
use crate::images::{image, term_image};
use crate::last_resorts::guards_image;
use crate::left_sides::{left_image, sides_image};
use crate::naming::{PartName, names_in, part_names};
use crate::numbering::Numbering;
use crate::numbering::Numbering::Shifted;
use crate::tokens::value_number;
use ml_pat::{MPat, Names, VarNo};
use rule_core::{Equation, Rule, Signature, SortRef, VarInfo};
use std::alloc::{AllocError, Global};
use term_core::{RulePat, SortId, SymId, Value};

/// The image of a rewrite rule (Chen and Rosu 2019): for all its variables, if the condition is
/// `true`, an instance of the left side makes a step to that of the right side. An error: out of
/// memory. The names may have gained tokens even then.
pub fn rule_image(
    alloc: Global,
    sig: &Signature,
    names: &mut Names,
    rule: &Rule,
) -> Result<MPat, AllocError>
    requires { HasRuleImage sig.now (rewrite_rule rule.now) }
    ensures image { IfOk result
        (IsImageOf sig.now names.new (SaysRule sig.now (rewrite_rule rule.now))) }
    ensures names { HasGained sig.now names.old names.new }
{
    let left = left_side_image(alloc, sig, names, rule)?;
    let condition = condition_image(alloc, sig, names, &Shifted(0), &rule.vars, &rule.cond)?;
    let right = term_image(alloc, sig, names, &rule.right)?;
    let body = step_to(alloc, &left, &condition, &right)?;
    let sorts = variable_sorts(alloc, &rule.vars)?;
    close(alloc, sig, names, &sorts, body)
}

// The left side of a rule, whose parts may have names.
fn left_side_image(
    alloc: Global,
    sig: &Signature,
    names: &mut Names,
    rule: &Rule,
) -> Result<MPat, AllocError>
    requires left { HasImage sig.now (2 ^ 32) (plain_pattern rule.now.left) }
    requires names { AreNamesBelow (2 ^ 32) (names_of rule.now.named.items) }
    ensures image { IfOk result
        (λ p. sentence_image sig.now names.new
        (left_sentence (of_child 0 (names_of rule.now.named.items))
        (plain_pattern rule.now.left)) ≡ Some p) }
    ensures names { HasGained sig.now names.old names.new }
{
    let parts = names_in(alloc, &part_names(alloc, &rule.named)?, 0)?;
    left_image(alloc, sig, names, &Shifted(0), &rule.left, &parts)
}

// `left & condition -> next right`.
fn step_to(alloc: Global, left: &MPat, condition: &MPat, right: &MPat) -> Result<MPat, AllocError>
    ensures { IfOk result (λ p. p ≡ imp (and left.now condition.now) (next right.now)) }
{
    let from = MPat::and(alloc, left, condition)?;
    MPat::imp(alloc, &from, &MPat::next(alloc, right)?)
}

// The image of a condition whose variables have these numbers: the statement that it is `true`.
// Without a condition it is `top`.
fn condition_image(
    alloc: Global,
    sig: &Signature,
    names: &mut Names,
    numbering: &Numbering<'_>,
    vars: &[VarInfo],
    condition: &Option<RulePat>,
) -> Result<MPat, AllocError>
    requires condition { IsCondition sig.now (sorts_of vars.now)
        (option_map plain_pattern condition.now) }
    requires few { length vars.now ≤ room numbering.now }
    ensures image { IfOk result
        (IsConditionImage sig.now names.new (sorts_of vars.now) (number_in numbering.now)
        (option_map plain_pattern condition.now)) }
    ensures names { HasGained sig.now names.old names.new }
{
    match condition {
        Some(pat) => truth_image(alloc, sig, names, numbering, vars, pat),
        None => MPat::top(alloc),
    }
}

// The statement that `pat`, whose variables have these numbers, is `true`.
fn truth_image(
    alloc: Global,
    sig: &Signature,
    names: &mut Names,
    numbering: &Numbering<'_>,
    vars: &[VarInfo],
    pat: &RulePat,
) -> Result<MPat, AllocError>
    requires condition { IsTruth sig.now (sorts_of vars.now) (plain_pattern pat.now) }
    requires few { length vars.now ≤ room numbering.now }
    ensures image { IfOk result
        (IsConditionImage sig.now names.new (sorts_of vars.now) (number_in numbering.now)
        (Some (plain_pattern pat.now))) }
    ensures names { HasGained sig.now names.old names.new }
{
    let Some(sort) = sort_of(sig, vars, pat) else {
        unreachable!()
    };
    let held = image(alloc, sig, names, numbering, pat)?;
    let truth = value_number(alloc, sig, names, sort, &Value::Bool(true))?;
    MPat::equal(alloc, &held, &MPat::constant(alloc, truth)?)
}

/// Returns the sort of a pattern whose variables have these sorts, or none if a variable or a symbol
/// of it is not there.
pub fn sort_of(sig: &Signature, vars: &[VarInfo], pat: &RulePat) -> Option<SortId>
    ensures { option_map (λ (s : SortId). s.0) result
        ≡ sort_of sig.now (sorts_of vars.now) (plain_pattern pat.now) }
{
    match pat {
        RulePat::Var(x) => Some(variable(vars, *x)?.sort),
        RulePat::Value(sort, _) => Some(*sort),
        RulePat::Ctor(symbol, _) => made_sort(sig, *symbol, &[]),
        RulePat::Inj(_, to, _) => Some(*to),
        RulePat::Call(symbol, sorts, _) => made_sort(sig, *symbol, sorts),
    }
}

// The variable with a number.
fn variable(vars: &[VarInfo], number: u32) -> Option<&VarInfo>
    ensures { option_copied result ≡ slice_get vars.now number }
{
    vars.get(number as usize)
}

// The result sort of a symbol at these sort arguments.
fn made_sort(sig: &Signature, symbol: SymId, sorts: &[SortId]) -> Option<SortId>
    ensures { option_map (λ (s : SortId). s.0) result
        ≡ made_sort sig.now symbol.0 (sort_numbers sorts.now) }
{
    match sig.symbols.value(symbol.0 as usize)?.result {
        SortRef::Param(place) => sorts.get(place as usize).copied(),
        SortRef::Sort(sort) => Some(sort),
    }
}

/// The image of an equation of a function (Chen and Rosu 2019; K framework, "Functions" and
/// "owise"), which is one of these: for all its variables, if the condition is `true`, the function
/// applied to its arguments equals its right side. An equation in the form of kompile has a
/// parameter for each argument of the function. It says that each parameter is in its argument. The
/// parameters come before its other variables. An equation of the last resort also says that no
/// guard holds. An error: out of memory. The names may have gained tokens even then.
pub fn equation_image(
    alloc: Global,
    sig: &Signature,
    names: &mut Names,
    equations: &[Equation],
    equation: &Equation,
) -> Result<MPat, AllocError>
    requires { HasEquationImage sig.now (map function_equation equations.now) equation.now.fun.0
        (function_equation equation.now) }
    ensures image { IfOk result
        (IsImageOf sig.now names.new
        (SaysEquation sig.now (map function_equation equations.now) equation.now.fun.0
        (function_equation equation.now))) }
    ensures names { HasGained sig.now names.old names.new }
{
    if equation.params == 0 {
        direct_image(alloc, sig, names, equations, equation)
    } else {
        kompile_image(alloc, sig, names, equations, equation)
    }
}

// The image of an equation that is written directly.
fn direct_image(
    alloc: Global,
    sig: &Signature,
    names: &mut Names,
    equations: &[Equation],
    equation: &Equation,
) -> Result<MPat, AllocError>
    requires equation { HasEquationImage sig.now (map function_equation equations.now)
        equation.now.fun.0 (function_equation equation.now) }
    requires direct { equation.now.params ≡ 0 }
    ensures image { IfOk result
        (IsImageOf sig.now names.new
        (SaysEquation sig.now (map function_equation equations.now) equation.now.fun.0
        (function_equation equation.now))) }
    ensures names { HasGained sig.now names.old names.new }
{
    let condition = condition_image(
        alloc,
        sig,
        names,
        &Shifted(0),
        &equation.vars,
        &equation.cond,
    )?;
    let call = call_image(alloc, sig, names, equation)?;
    let right = term_image(alloc, sig, names, &equation.right)?;
    let body = MPat::imp(alloc, &condition, &MPat::equal(alloc, &call, &right)?)?;
    let sorts = variable_sorts(alloc, &equation.vars)?;
    close(alloc, sig, names, &sorts, body)
}

// The function applied to the arguments of an equation, whose parts may have names.
fn call_image(
    alloc: Global,
    sig: &Signature,
    names: &mut Names,
    equation: &Equation,
) -> Result<MPat, AllocError>
    requires symbol { equation.now.fun.0 < length sig.now.symbols }
    requires arguments { HaveImages sig.now (2 ^ 32) (plain_patterns equation.now.args.items) }
    requires names { AreNamesBelow (2 ^ 32) (names_of equation.now.named.items) }
    ensures image { IfOk result
        (λ p. sentence_image sig.now names.new
        (applied_sides (names_of equation.now.named.items) 0 (symbol equation.now.fun.0)
        (plain_patterns equation.now.args.items)) ≡ Some p) }
    ensures names { HasGained sig.now names.old names.new }
{
    let parts = part_names(alloc, &equation.named)?;
    sides_image(
        alloc,
        sig,
        names,
        &Shifted(0),
        equation.fun,
        &equation.args,
        &parts,
    )
}

// The image of an equation in the form of kompile.
fn kompile_image(
    alloc: Global,
    sig: &Signature,
    names: &mut Names,
    equations: &[Equation],
    equation: &Equation,
) -> Result<MPat, AllocError>
    requires equation { HasEquationImage sig.now (map function_equation equations.now)
        equation.now.fun.0 (function_equation equation.now) }
    requires kompile { equation.now.params ≢ 0 }
    ensures image { IfOk result
        (IsImageOf sig.now names.new
        (SaysEquation sig.now (map function_equation equations.now) equation.now.fun.0
        (function_equation equation.now))) }
    ensures names { HasGained sig.now names.old names.new }
{
    let count = equation.params;
    let held = held_image(alloc, sig, names, equations, equation)?;
    let function = of_variables(alloc, sig, names, equation.fun, 0, count)?;
    let right = image(alloc, sig, names, &Shifted(count), &equation.right)?;
    let body = MPat::imp(alloc, &held, &MPat::equal(alloc, &function, &right)?)?;
    let mut sorts = named_sorts(alloc, &declaration(sig, equation.fun).args)?;
    sorts.extend_from_slice(&variable_sorts(alloc, &equation.vars)?)?;
    close(alloc, sig, names, &sorts, body)
}

// What an equation in the form of kompile requires: its premise, and that no guard holds.
fn held_image(
    alloc: Global,
    sig: &Signature,
    names: &mut Names,
    equations: &[Equation],
    equation: &Equation,
) -> Result<MPat, AllocError>
    requires premise { HasPremise sig.now (function_equation equation.now) }
    requires few { equation.now.params + length equation.now.vars.items ≤ 2 ^ 32 }
    requires guards { HasFittingGuards (map function_equation equations.now)
        (function_equation equation.now) }
    requires repeated { IfSome equation.now.owise
        (λ gs. All (HasPremise sig.now) (map function_equation equations.now)) }
    ensures image { IfOk result
        (IsImageOf sig.now names.new
        (λ s. held sig.now (map function_equation equations.now) (function_equation equation.now)
        ≡ Some s)) }
    ensures names { HasGained sig.now names.old names.new }
{
    let count = equation.params;
    let premise = premise_image(alloc, sig, names, &Shifted(count), equation)?;
    match &equation.owise {
        None => Ok(premise),
        Some(guards) => {
            let first = count + equation.vars.len() as u32;
            let guards = guards_image(alloc, sig, names, first, equations, guards)?;
            MPat::and(alloc, &MPat::not(alloc, &guards)?, &premise)
        }
    }
}

// The statement that the condition of an equation is `true` and that each parameter is in its
// argument. The variables of the equation have these numbers.
pub(crate) fn premise_image(
    alloc: Global,
    sig: &Signature,
    names: &mut Names,
    numbering: &Numbering<'_>,
    equation: &Equation,
) -> Result<MPat, AllocError>
    requires premise { HasPremise sig.now (function_equation equation.now) }
    requires few { length equation.now.vars.items ≤ room numbering.now }
    ensures image { IfOk result
        (IsImageOf sig.now names.new
        (λ s. premise sig.now (number_in numbering.now) (function_equation equation.now) ≡ Some s)) }
    ensures names { HasGained sig.now names.old names.new }
{
    let condition = condition_image(alloc, sig, names, numbering, &equation.vars, &equation.cond)?;
    let parts = part_names(alloc, &equation.named)?;
    let met = meets_image(alloc, sig, names, numbering, &equation.args, &parts)?;
    MPat::and(alloc, &condition, &met)
}

// The statement that each parameter is in its argument, whose parts may have names. The parameters
// are numbered from 0, and the variables and names of the arguments have these numbers.
fn meets_image(
    alloc: Global,
    sig: &Signature,
    names: &mut Names,
    numbering: &Numbering<'_>,
    args: &[RulePat],
    parts: &[PartName<'_>],
) -> Result<MPat, AllocError>
    requires arguments { HaveImages sig.now (room numbering.now) (plain_patterns args.now) }
    requires parts { AreNamesBelow (room numbering.now) (part_names parts.now) }
    requires few { length args.now ≤ 2 ^ 32 }
    ensures image { IfOk result
        (λ p. sentence_image sig.now names.new
        (meets (names_renamed (number_in numbering.now) (part_names parts.now)) 0
        (all_renamed (number_in numbering.now) (plain_patterns args.now))) ≡ Some p) }
    ensures names { HasGained sig.now names.old names.new }
{
    let mut made = MPat::top(alloc)?;
    for i in (0..args.len()).rev() {
        let inside = names_in(alloc, parts, i)?;
        let argument = left_image(alloc, sig, names, numbering, &args[i], &inside)?;
        let parameter = MPat::var(alloc, VarNo(i as u32))?;
        made = MPat::and(alloc, &MPat::member(alloc, &parameter, &argument)?, &made)?;
    }
    Ok(made)
}
