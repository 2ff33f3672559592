// Equations of the last resort (`owise`).
ghost use Rattle.std.specs.Prelude.{◌≡◌, ◌++◌, Vec, map, option_map, IfOk, OnOk};
ghost use Rattle.std.specs.Global.{Global};
ghost use Rattle.kore_text.specs.Trees.{pattern_trees};
ghost use Rattle.kore_ast.specs.Plain.{plain_sort, pattern_tree};
ghost use Rattle.kore_shapes.specs.LastResorts.{negated as the_negated};
ghost use Rattle.kore_shapes.specs.LastResorts.{negated_with as the_negated_with};
ghost use Rattle.kore_shapes.specs.LastResorts.{is_disjunction as is_the_disjunction};
ghost use Rattle.kore_shapes.specs.LastResorts.{is_bottom as is_the_bottom};
ghost use Rattle.kore_shapes.specs.LastResorts.{operands as the_operands};
ghost use Rattle.kore_shapes.specs.LastResorts.{all_operands as the_operands_of_all};
ghost use Rattle.kore_shapes.specs.LastResorts.{is_exists as is_the_exists};
ghost use Rattle.kore_shapes.specs.LastResorts.{quantified, unquantified};
ghost use Rattle.kore_shapes.specs.LastResorts.{guard_parts as the_guard};
ghost use Rattle.kore_shapes.specs.LastResorts.{all_guards as the_guards};
ghost use Rattle.kore_shapes.specs.LastResorts.{kompiled_under as the_kompiled_under};
ghost use Rattle.kore_shapes.specs.LastResorts.{resort_under as the_resort_under};
ghost use Rattle.kore_shapes.specs.LastResorts.{resort_beside as the_resort_beside};
ghost use Rattle.kore_shapes.specs.LastResorts.{last_resort_parts as the_parts};
ghost use Rattle.kore_shapes.specs.Views.{pattern_at};
ghost use Rattle.kore_shapes.specs.EquationViews.{patterns_at};
ghost use Rattle.kore_shapes.specs.StatementViews.{plain_statement};
ghost use Rattle.kore_shapes.specs.PartViews.{plain_parts};
ghost use Rattle.kore_shapes.specs.ResortViews.{plain_guard, plain_resort};

use crate::equations::{EquationParts, conjuncts, kompiled, members};
use crate::sorts::same_sort;
use crate::statements::Statement;
use kore_ast::{Binder, Op, Pat, PatForm, Sort};
use std::alloc::{AllocError, Global};

/// When another equation of the function is used.
#[derive(Drop)]
pub struct GuardParts<'a> {
    /// The variables of that equation, in the order of their quantifiers.
    pub variables: Vec<&'a Pat>,
    /// Its condition.
    pub condition: &'a Pat,
    /// The patterns that the arguments of its function match.
    pub patterns: Vec<&'a Pat>,
}

/// What an equation of the last resort states.
#[derive(Drop)]
pub struct LastResortParts<'a> {
    /// The equation that is used if no other one is. It has kompile's form.
    pub equation: EquationParts<'a>,
    /// When the other equations are used.
    pub guards: Vec<GuardParts<'a>>,
}

/// The pattern p of `\not{S}(p)` of this sort S. Returns none for any other pattern.
fn negated<'a>(pat: &'a Pat, sort: &Sort) -> Option<&'a Pat>
    ensures { option_map pattern_at result
        ≡ the_negated (plain_sort sort.now) (pattern_tree pat.now) }
{
    match &pat.form {
        PatForm::Built(op, sorts, args) => negated_with(*op, sorts, args, sort),
        _ => None,
    }
}

fn negated_with<'a>(op: Op, sorts: &[Sort], args: &'a [Pat], sort: &Sort) -> Option<&'a Pat>
    ensures { option_map pattern_at result
        ≡ the_negated_with (plain_sort sort.now) op (map plain_sort sorts.now)
        (map pattern_tree args.now) }
{
    match (op, sorts, args) {
        (Op::Not, [own], [pat]) if same_sort(sort, own) => Some(pat),
        _ => None,
    }
}

fn is_disjunction(op: Op, sorts: &[Sort], sort: &Sort) -> bool
    ensures { result ≡ is_the_disjunction (plain_sort sort.now) op (map plain_sort sorts.now) }
{
    match (op, sorts) {
        (Op::Or, [own]) => same_sort(sort, own),
        _ => false,
    }
}

fn is_bottom(op: Op, sorts: &[Sort], args: &[Pat], sort: &Sort) -> bool
    ensures { result
        ≡ is_the_bottom (plain_sort sort.now) op (map plain_sort sorts.now)
        (map pattern_tree args.now) }
{
    match (op, sorts, args) {
        (Op::Bottom, [own], []) => same_sort(sort, own),
        _ => false,
    }
}

/// Adds the operands of nested `\or{S}` of this sort S, in order. The recursion is as deep as the
/// pattern.
#[cycle(operands)]
fn add_operands<'a>(pat: &'a Pat, sort: &Sort, found: &mut Vec<&'a Pat>) -> Result<(), AllocError>
    ensures { OnOk result (patterns_at found.new
        ≡ patterns_at found.old ++ the_operands (plain_sort sort.now) (pattern_tree pat.now)) }
{
    match &pat.form {
        PatForm::Built(op, sorts, args) if is_disjunction(*op, sorts, sort) => {
            add_all_operands(args, sort, found)
        }
        PatForm::Built(op, sorts, args) if is_bottom(*op, sorts, args, sort) => Ok(()),
        _ => Ok(found.push(pat)?),
    }
}

#[cycle(operands)]
fn add_all_operands<'a>(
    pats: &'a [Pat],
    sort: &Sort,
    found: &mut Vec<&'a Pat>,
) -> Result<(), AllocError>
    ensures { OnOk result (patterns_at found.new ≡ patterns_at found.old
        ++ the_operands_of_all (plain_sort sort.now) (pattern_trees (map pattern_tree pats.now))) }
{
    for pat in pats {
        add_operands(pat, sort, found)?;
    }
    Ok(())
}

fn is_exists(binder: Binder, sorts: &[Sort], sort: &Sort) -> bool
    ensures { result ≡ is_the_exists (plain_sort sort.now) binder (map plain_sort sorts.now) }
{
    match (binder, sorts) {
        (Binder::Exists, [own]) => same_sort(sort, own),
        _ => false,
    }
}

/// Adds the variables of nested `\exists{S}` of this sort S, from the outermost on, and returns the
/// pattern below them. The recursion is as deep as the pattern.
#[cycle(quantified)]
fn add_quantified<'a>(
    pat: &'a Pat,
    sort: &Sort,
    found: &mut Vec<&'a Pat>,
) -> Result<&'a Pat, AllocError>
    ensures variables { OnOk result (patterns_at found.new
        ≡ patterns_at found.old ++ quantified (plain_sort sort.now) (pattern_tree pat.now)) }
    ensures below { IfOk result
        (λ r. pattern_tree r.now ≡ unquantified (plain_sort sort.now) (pattern_tree pat.now)) }
{
    match &pat.form {
        PatForm::Bound(binder, sorts, variable, body) if is_exists(*binder, sorts, sort) => {
            found.push(variable)?;
            add_quantified(body, sort, found)
        }
        _ => Ok(pat),
    }
}

/// The parts of a guard over this sort, for these variables of the left side. Returns none if it has
/// another form.
fn guard_parts<'a>(
    alloc: Global,
    guard: &'a Pat,
    over: &Sort,
    parameters: &[Pat],
) -> Result<Option<GuardParts<'a>>, AllocError>
    ensures { IfOk result (λ parts. option_map plain_guard parts
        ≡ the_guard (plain_sort over.now) (map pattern_tree parameters.now)
        (pattern_tree guard.now)) }
{
    let mut variables = Vec::new(alloc);
    let body = add_quantified(guard, over, &mut variables)?;
    let Some((condition, rest)) = conjuncts(body, over) else {
        return Ok(None);
    };
    let Some(patterns) = members(alloc, rest, over, parameters)? else {
        return Ok(None);
    };
    Ok(Some(GuardParts {
        variables,
        condition,
        patterns,
    }))
}

/// The parts of each guard. Returns none if one of them has another form.
fn all_guards<'a>(
    alloc: Global,
    guards: &[&'a Pat],
    over: &Sort,
    parameters: &[Pat],
) -> Result<Option<Vec<GuardParts<'a>>>, AllocError>
    ensures { IfOk result
        (λ found. option_map (λ (gs : Vec GuardParts Global). map plain_guard gs.items) found
        ≡ the_guards (plain_sort over.now) (map pattern_tree parameters.now)
        (map pattern_at guards.now)) }
{
    let mut found = Vec::new(alloc);
    for guard in guards {
        let Some(parts) = guard_parts(alloc, guard, over, parameters)? else {
            return Ok(None);
        };
        found.push(parts)?;
    }
    Ok(Some(found))
}

/// The equation in kompile's form that a statement has with this guard. Returns none if the guard
/// has another form, or a variable of the left side occurs anywhere else.
fn kompiled_under<'a>(
    alloc: Global,
    stated: &Statement<'a>,
    guard: &'a Pat,
) -> Result<Option<EquationParts<'a>>, AllocError>
    ensures { IfOk result (λ parts. option_map plain_parts parts
        ≡ the_kompiled_under (plain_statement stated.now) (pattern_tree guard.now)) }
{
    let Some((condition, rest)) = conjuncts(guard, stated.over) else {
        return Ok(None);
    };
    let Some(patterns) = members(alloc, rest, stated.over, stated.arguments)? else {
        return Ok(None);
    };
    Ok(kompiled(stated, condition, patterns))
}

/// The parts of an equation of the last resort whose guard is this disjunction, negated, and this
/// other guard.
fn resort_beside<'a>(
    alloc: Global,
    stated: &Statement<'a>,
    disjunction: &'a Pat,
    guard: &'a Pat,
) -> Result<Option<LastResortParts<'a>>, AllocError>
    ensures { IfOk result (λ parts. option_map plain_resort parts
        ≡ the_resort_beside (plain_statement stated.now) (pattern_tree disjunction.now)
        (pattern_tree guard.now)) }
{
    let mut operands = Vec::new(alloc);
    add_operands(disjunction, stated.over, &mut operands)?;
    let Some(guards) = all_guards(alloc, &operands, stated.over, stated.arguments)? else {
        return Ok(None);
    };
    let Some(equation) = kompiled_under(alloc, stated, guard)? else {
        return Ok(None);
    };
    Ok(Some(LastResortParts { equation, guards }))
}

/// The parts of an equation of the last resort with this guard.
fn resort_under<'a>(
    alloc: Global,
    stated: &Statement<'a>,
    guard: &'a Pat,
) -> Result<Option<LastResortParts<'a>>, AllocError>
    ensures { IfOk result (λ parts. option_map plain_resort parts
        ≡ the_resort_under (plain_statement stated.now) (pattern_tree guard.now)) }
{
    let Some((denied, rest)) = conjuncts(guard, stated.over) else {
        return Ok(None);
    };
    let Some(disjunction) = negated(denied, stated.over) else {
        return Ok(None);
    };
    resort_beside(alloc, stated, disjunction, rest)
}

/// The parts of an equation of the last resort. Returns none for any other equation, and if the
/// function has no arguments. Fails only if memory runs out. For each argument of the left side,
/// time is linear in the size of the equation.
pub fn last_resort_parts<'a>(
    alloc: Global,
    stated: &Statement<'a>,
) -> Result<Option<LastResortParts<'a>>, AllocError>
    ensures { IfOk result
        (λ parts. option_map plain_resort parts ≡ the_parts (plain_statement stated.now)) }
{
    match (stated.guard, stated.arguments) {
        (Some(guard), [_, ..]) => resort_under(alloc, stated, guard),
        _ => Ok(None),
    }
}
