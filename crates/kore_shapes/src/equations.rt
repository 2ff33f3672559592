// The two forms of equations.
ghost use Rattle.std.specs.Prelude.{◌≡◌, ◌∷◌, ◌&&◌, map, option_map, IfOk};
ghost use Rattle.std.specs.List.{list_any};
ghost use Rattle.kore_text.specs.Trees.{pattern_trees};
ghost use Rattle.kore_ast.specs.Plain.{plain_sort, pattern_tree};
ghost use Rattle.kore_shapes.specs.EquationForms.{top_with as the_top_with};
ghost use Rattle.kore_shapes.specs.EquationForms.{is_top_of as is_the_top};
ghost use Rattle.kore_shapes.specs.EquationForms.{conjuncts as the_conjuncts};
ghost use Rattle.kore_shapes.specs.EquationForms.{conjuncts_with as the_conjuncts_with};
ghost use Rattle.kore_shapes.specs.EquationForms.{right_side as the_right_side};
ghost use Rattle.kore_shapes.specs.EquationForms.{is_member as is_the_member};
ghost use Rattle.kore_shapes.specs.EquationForms.{member_pattern as the_member};
ghost use Rattle.kore_shapes.specs.EquationForms.{member_with as the_member_with};
ghost use Rattle.kore_shapes.specs.EquationForms.{entry as the_entry, members as the_members};
ghost use Rattle.kore_shapes.specs.EquationForms.{has_variable as has_one};
ghost use Rattle.kore_shapes.specs.EquationForms.{have_variable as have_one};
ghost use Rattle.kore_shapes.specs.EquationForms.{stands_alone as does_stand_alone};
ghost use Rattle.kore_shapes.specs.EquationForms.{occur_nowhere_else as do_stand_apart};
ghost use Rattle.kore_shapes.specs.EquationForms.{direct_parts as the_direct};
ghost use Rattle.kore_shapes.specs.EquationForms.{kompiled as the_kompiled};
ghost use Rattle.kore_shapes.specs.EquationForms.{equation_parts as the_parts};
ghost use Rattle.kore_shapes.specs.Views.{pattern_at};
ghost use Rattle.kore_shapes.specs.EquationViews.{plain_pair, patterns_at};
ghost use Rattle.kore_shapes.specs.StatementViews.{plain_statement};
ghost use Rattle.kore_shapes.specs.PartViews.{plain_parts};

use crate::sorts::{is_variable, same_sort};
use crate::statements::Statement;
use kore_ast::{Op, Pat, PatForm, Sort};
use std::alloc::{AllocError, Global};

/// Whether the pattern is `\top{S}()` of this sort S.
fn is_top_of(pat: &Pat, sort: &Sort) -> bool
    ensures { result ≡ is_the_top (plain_sort sort.now) (pattern_tree pat.now) }
{
    match &pat.form {
        PatForm::Built(op, sorts, args) => top_with(*op, sorts, args, sort),
        _ => false,
    }
}

fn top_with(op: Op, sorts: &[Sort], args: &[Pat], sort: &Sort) -> bool
    ensures { result
        ≡ the_top_with (plain_sort sort.now) op (map plain_sort sorts.now)
        (map pattern_tree args.now) }
{
    match (op, sorts, args) {
        (Op::Top, [own], []) => same_sort(sort, own),
        _ => false,
    }
}

/// The two patterns of `\and{S}(p,q)` of this sort S. Returns none for any other pattern.
pub(crate) fn conjuncts<'a>(pat: &'a Pat, sort: &Sort) -> Option<(&'a Pat, &'a Pat)>
    ensures { option_map plain_pair result
        ≡ the_conjuncts (plain_sort sort.now) (pattern_tree pat.now) }
{
    match &pat.form {
        PatForm::Built(op, sorts, args) => conjuncts_with(*op, sorts, args, sort),
        _ => None,
    }
}

fn conjuncts_with<'a>(
    op: Op,
    sorts: &[Sort],
    args: &'a [Pat],
    sort: &Sort,
) -> Option<(&'a Pat, &'a Pat)>
    ensures { option_map plain_pair result
        ≡ the_conjuncts_with (plain_sort sort.now) op (map plain_sort sorts.now)
        (map pattern_tree args.now) }
{
    match (op, sorts, args) {
        (Op::And, [own], [first, second]) if same_sort(sort, own) => Some((first, second)),
        _ => None,
    }
}

/// The right side: r for `\and{S}(r,\top{S}())`, and any other pattern itself.
fn right_side<'a>(value: &'a Pat, sort: &Sort) -> &'a Pat
    ensures { pattern_tree result.now
        ≡ the_right_side (plain_sort sort.now) (pattern_tree value.now) }
{
    match conjuncts(value, sort) {
        Some((right, top)) if is_top_of(top, sort) => right,
        _ => value,
    }
}

/// Whether both patterns are the same element variable and it has this sort.
fn is_member(sort: &Sort, variable: &Pat, pat: &Pat) -> bool
    ensures { result
        ≡ is_the_member (plain_sort sort.now) (pattern_tree variable.now) (pattern_tree pat.now) }
{
    match &variable.form {
        PatForm::Elem(name, own) => same_sort(sort, own) && is_variable(pat, name.as_str(), own),
        _ => false,
    }
}

/// The pattern p of `\in{S,R}(X,p)` over this sort R, for this variable X. Returns none for any
/// other pattern.
fn member<'a>(pat: &'a Pat, over: &Sort, variable: &Pat) -> Option<&'a Pat>
    ensures { option_map pattern_at result
        ≡ the_member (plain_sort over.now) (pattern_tree variable.now) (pattern_tree pat.now) }
{
    match &pat.form {
        PatForm::Built(op, sorts, args) => member_with(*op, sorts, args, over, variable),
        _ => None,
    }
}

fn member_with<'a>(
    op: Op,
    sorts: &[Sort],
    args: &'a [Pat],
    over: &Sort,
    variable: &Pat,
) -> Option<&'a Pat>
    ensures { option_map pattern_at result
        ≡ the_member_with (plain_sort over.now) (pattern_tree variable.now) op
        (map plain_sort sorts.now)
        (map pattern_tree args.now) }
{
    match (op, sorts, args) {
        (Op::Member, [sort, own], [of, pattern])
            if same_sort(over, own) && is_member(sort, variable, of) => { Some(pattern) }
        _ => None,
    }
}

/// The pattern p and the rest G of `\and{R}(\in{S,R}(X,p),G)` over this sort R, for this variable
/// X. Returns none for any other pattern.
fn entry<'a>(guard: &'a Pat, over: &Sort, variable: &Pat) -> Option<(&'a Pat, &'a Pat)>
    ensures { option_map plain_pair result
        ≡ the_entry (plain_sort over.now) (pattern_tree variable.now) (pattern_tree guard.now) }
{
    let (first, rest) = conjuncts(guard, over)?;
    let pattern = member(first, over, variable)?;
    Some((pattern, rest))
}

/// The patterns of which a guard says that the variables are members: p0, p1, .. of
/// `\and{R}(\in{S0,R}(X0,p0),\and{R}(\in{S1,R}(X1,p1),..\top{R}()))`. Returns none if the guard has
/// another form.
pub(crate) fn members<'a>(
    alloc: Global,
    guard: &'a Pat,
    over: &Sort,
    variables: &[Pat],
) -> Result<Option<Vec<&'a Pat>>, AllocError>
    ensures { IfOk result (λ found. option_map patterns_at found
        ≡ the_members (plain_sort over.now) (map pattern_tree variables.now)
        (pattern_tree guard.now)) }
{
    let mut patterns = Vec::new(alloc);
    let mut rest = guard;
    for variable in variables {
        let Some((pattern, next)) = entry(rest, over, variable) else {
            return Ok(None);
        };
        patterns.push(pattern)?;
        rest = next;
    }
    Ok(is_top_of(rest, over).then_some(patterns))
}

/// Whether an element variable of this name and sort occurs in the pattern.
#[cycle(variable)]
fn has_variable(pat: &Pat, name: &str, sort: &Sort) -> bool
    ensures { result ≡ has_one name.now (plain_sort sort.now) (pattern_tree pat.now) }
{
    match &pat.form {
        PatForm::Elem(..) => is_variable(pat, name, sort),
        PatForm::App(_, _, args) | PatForm::Built(_, _, args) => have_variable(args, name, sort),
        PatForm::Bound(_, _, variable, body) => {
            has_variable(variable, name, sort) || has_variable(body, name, sort)
        }
        PatForm::Fold(_, inner) => has_variable(inner, name, sort),
        PatForm::SetVar(..) | PatForm::Text(_) | PatForm::Value(..) => false,
    }
}

#[cycle(variable)]
fn have_variable(pats: &[Pat], name: &str, sort: &Sort) -> bool
    ensures { result
        ≡ have_one name.now (plain_sort sort.now) (pattern_trees (map pattern_tree pats.now)) }
{
    for pat in pats {
        if has_variable(pat, name, sort) {
            return true;
        }
    }
    false
}

/// Whether the variable occurs in one of the patterns.
fn is_in(name: &str, sort: &Sort, pats: &[Pat]) -> bool
    ensures { result
        ≡ list_any (has_one name.now (plain_sort sort.now)) (map pattern_tree pats.now) }
{
    for pat in pats {
        if has_variable(pat, name, sort) {
            return true;
        }
    }
    false
}

/// The same for patterns that are borrowed one by one.
fn is_beside(name: &str, sort: &Sort, pats: &[&Pat]) -> bool
    ensures { result ≡ list_any (has_one name.now (plain_sort sort.now)) (map pattern_at pats.now) }
{
    for pat in pats {
        if has_variable(pat, name, sort) {
            return true;
        }
    }
    false
}

/// Whether the pattern is an element variable that occurs in none of the others: those after it,
/// the condition, the value, and the patterns of the guard.
fn occurs_nowhere_else(
    variable: &Pat,
    later: &[Pat],
    condition: &Pat,
    value: &Pat,
    patterns: &[&Pat],
) -> bool
    ensures { result ≡ (does_stand_alone (pattern_tree variable.now) (map pattern_tree later.now)
        && does_stand_alone (pattern_tree variable.now) (pattern_tree condition.now
        ∷ (pattern_tree value.now ∷ map pattern_at patterns.now))) }
{
    match &variable.form {
        PatForm::Elem(name, sort) => {
            let name = name.as_str();
            !is_in(name, sort, later)
                && !has_variable(condition, name, sort)
                && !has_variable(value, name, sort)
                && !is_beside(name, sort, patterns)
        }
        _ => false,
    }
}

/// Whether the variables are element variables, and each of them occurs neither in those after it
/// nor in the other patterns. It goes through all patterns once for each variable. A function has
/// at most 64 arguments.
fn occur_nowhere_else(variables: &[Pat], condition: &Pat, value: &Pat, patterns: &[&Pat]) -> bool
    ensures { result ≡ do_stand_apart (map pattern_tree variables.now) (pattern_tree condition.now
        ∷ (pattern_tree value.now ∷ map pattern_at patterns.now)) }
{
    let mut rest = variables;
    while let [variable, later @ ..] = rest {
        if !occurs_nowhere_else(variable, later, condition, value, patterns) {
            return false;
        }
        rest = later;
    }
    true
}

/// What an equation states.
#[derive(Drop)]
pub struct EquationParts<'a> {
    /// The variables that its function is applied to, if it has kompile's form; else none.
    pub parameters: &'a [Pat],
    /// The patterns that the arguments of its function match.
    pub patterns: Vec<&'a Pat>,
    /// Its condition, if one is written.
    pub condition: Option<&'a Pat>,
    /// Its right side.
    pub right: &'a Pat,
}

/// The direct form: the guard, if there is one, is the condition.
fn direct<'a>(
    alloc: Global,
    stated: &Statement<'a>,
    condition: Option<&'a Pat>,
) -> Result<EquationParts<'a>, AllocError>
    ensures { IfOk result (λ parts. plain_parts parts
        ≡ the_direct (plain_statement stated.now) (option_map pattern_at condition.entry)) }
{
    Ok(EquationParts {
        parameters: &[],
        patterns: borrowed(alloc, stated.arguments)?,
        condition,
        right: right_side(stated.value, stated.sort),
    })
}

/// The patterns, borrowed one by one.
fn borrowed<'a>(alloc: Global, pats: &'a [Pat]) -> Result<Vec<&'a Pat>, AllocError>
    ensures { IfOk result (λ all. patterns_at all ≡ map pattern_tree pats.now) }
{
    let mut all = Vec::with_capacity(alloc, pats.len())?;
    for pat in pats {
        all.push(pat)?;
    }
    Ok(all)
}

/// kompile's form with this condition and these patterns. Returns none if a variable of its left
/// side occurs anywhere else.
pub(crate) fn kompiled<'a>(
    stated: &Statement<'a>,
    condition: &'a Pat,
    patterns: Vec<&'a Pat>,
) -> Option<EquationParts<'a>>
    ensures { option_map plain_parts result
        ≡ the_kompiled (plain_statement stated.now) (pattern_tree condition.now)
        (patterns_at patterns.entry) }
{
    if !occur_nowhere_else(stated.arguments, condition, stated.value, &patterns) {
        return None;
    }
    Some(EquationParts {
        parameters: stated.arguments,
        patterns,
        condition: Some(condition),
        right: right_side(stated.value, stated.sort),
    })
}

/// The parts of an equation. Returns none if it has neither form. Fails only if memory runs out.
/// For each argument of the left side, time is linear in the size of the equation.
pub fn equation_parts<'a>(
    alloc: Global,
    stated: &Statement<'a>,
) -> Result<Option<EquationParts<'a>>, AllocError>
    ensures { IfOk result
        (λ parts. option_map plain_parts parts ≡ the_parts (plain_statement stated.now)) }
{
    let Some(guard) = stated.guard else {
        return Ok(Some(direct(alloc, stated, None)?));
    };
    let Some((condition, rest)) = conjuncts(guard, stated.over) else {
        return Ok(Some(direct(alloc, stated, Some(guard))?));
    };
    let Some(patterns) = members(alloc, rest, stated.over, stated.arguments)? else {
        return Ok(None);
    };
    Ok(kompiled(stated, condition, patterns))
}
