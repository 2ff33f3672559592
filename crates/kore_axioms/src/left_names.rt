// The names of parts in left sides.
ghost use Rattle.std.specs.Prelude.{◌≡◌, map, min, option_map};
ghost use Rattle.kore_text.specs.Trees.{pattern_trees};
ghost use Rattle.kore_ast.specs.Plain.{plain_sort, pattern_tree};
ghost use Rattle.kore_check.specs.Folds.{all_unfolded};
ghost use Rattle.kore_check.specs.Variables.{plain_variable};
ghost use Rattle.kore_shapes.specs.Forms.{is_one as there_is_one};
ghost use Rattle.kore_shapes.specs.Views.{pattern_at};
ghost use Rattle.kore_axioms.specs.LeftNames.{has_bad_and as has_one, have_bad_and as have_one};
ghost use Rattle.kore_axioms.specs.LeftNames.{fold_has_bad_and as fold_has_one};
ghost use Rattle.kore_axioms.specs.LeftNames.{is_bad_and as is_a_bad_and, is_written_once};
ghost use Rattle.kore_axioms.specs.LeftNames.{given_name as the_given_name};
ghost use Rattle.kore_axioms.specs.LeftNames.{only_variable as the_only_variable};
ghost use Rattle.kore_axioms.specs.LeftNames.{times as the_times, times_in as the_times_in};
ghost use Rattle.kore_axioms.specs.LeftNames.{times_in_all as the_times_in_all};

use kore_ast::{Op, Pat, PatForm, Sort};
use kore_check::{Variable, variable_of};
use kore_shapes::is_variable;

/// Whether an `\and` in the pattern gives no name of a part, or one that stands elsewhere in the left
/// side. Those that give a name are of an element variable, the name, and a pattern that is no
/// variable. `whole` are the patterns of the left side: for a rule its only pattern, for an equation
/// those that its arguments match. Folds are read. It goes through the pattern once, and through
/// `whole` once for each `\and` in the pattern.
#[cycle(bad)]
pub fn has_bad_and(pat: &Pat, whole: &[&Pat]) -> bool
    ensures { result ≡ has_one (map pattern_at whole.now) (pattern_tree pat.now) }
{
    match &pat.form {
        PatForm::App(_, _, args) => have_bad_and(args, whole),
        PatForm::Built(op, sorts, args) => {
            is_bad_and(*op, sorts, args, whole) || have_bad_and(args, whole)
        }
        PatForm::Bound(_, _, _, body) => has_bad_and(body, whole),
        PatForm::Fold(_, inner) => fold_has_bad_and(inner, whole),
        PatForm::Elem(..) | PatForm::SetVar(..) | PatForm::Text(_) | PatForm::Value(..) => false,
    }
}

#[cycle(bad)]
fn have_bad_and(pats: &[Pat], whole: &[&Pat]) -> bool
    ensures { result
        ≡ have_one (map pattern_at whole.now) (pattern_trees (map pattern_tree pats.now)) }
{
    for pat in pats {
        if has_bad_and(pat, whole) {
            return true;
        }
    }
    false
}

/// The same for the fold of this pattern.
#[cycle(bad)]
fn fold_has_bad_and(inner: &Pat, whole: &[&Pat]) -> bool
    ensures { result ≡ fold_has_one (map pattern_at whole.now) (pattern_tree inner.now) }
{
    match &inner.form {
        PatForm::App(_, _, args) => have_bad_and(args, whole),
        PatForm::Built(op, sorts, args) => {
            (!is_one(args) && is_bad_and(*op, sorts, args, whole)) || have_bad_and(args, whole)
        }
        PatForm::Elem(..) | PatForm::SetVar(..) | PatForm::Text(_) => false,
        PatForm::Bound(..) | PatForm::Value(..) | PatForm::Fold(..) => false,
    }
}

fn is_one(pats: &[Pat]) -> bool
    ensures { result ≡ there_is_one (map pattern_tree pats.now) }
{
    matches!(pats, [_])
}

/// Whether a connective is an `\and` that gives no name, or one that stands elsewhere in these
/// patterns.
fn is_bad_and(op: Op, sorts: &[Sort], args: &[Pat], whole: &[&Pat]) -> bool
    ensures { result
        ≡ is_a_bad_and (map pattern_at whole.now) op (map plain_sort sorts.now)
        (all_unfolded (pattern_trees (map pattern_tree args.now))) }
{
    matches!(op, Op::And) && !stands_once(given_name(sorts, args), whole)
}

/// Whether there is a name and it is written once in these patterns.
fn stands_once(name: Option<Variable<'_>>, whole: &[&Pat]) -> bool
    ensures { result
        ≡ is_written_once (map pattern_at whole.now) (option_map plain_variable name.entry) }
{
    match name {
        Some(name) => times_in(whole, name.name.as_str(), name.sort) <= 1,
        None => false,
    }
}

/// The name that an `\and` of these sorts and patterns gives. Returns none if it has not one sort and
/// two patterns, of which exactly one is a variable.
fn given_name<'a>(sorts: &[Sort], args: &'a [Pat]) -> Option<Variable<'a>>
    ensures { option_map plain_variable result
        ≡ the_given_name (map plain_sort sorts.now)
        (all_unfolded (pattern_trees (map pattern_tree args.now))) }
{
    if sorts.len() != 1 {
        return None;
    }
    if args.len() != 2 {
        return None;
    }
    only_variable(variable_of(&args[0]), variable_of(&args[1]))
}

fn only_variable<'a>(
    first: Option<Variable<'a>>,
    second: Option<Variable<'a>>,
) -> Option<Variable<'a>>
    ensures { option_map plain_variable result
        ≡ the_only_variable (option_map plain_variable first.entry)
        (option_map plain_variable second.entry) }
{
    match (first, second) {
        (Some(only), None) | (None, Some(only)) => Some(only),
        _ => None,
    }
}

/// How many times this element variable is written in the patterns, or 2 if it is more.
fn times_in(pats: &[&Pat], name: &str, sort: &Sort) -> u32
    ensures { result ≡ min (the_times_in name.now (plain_sort sort.now) (map pattern_at pats.now)) 2 }
{
    let mut count: u32 = 0;
    for pat in pats {
        count = (count + times(pat, name, sort)).min(2);
    }
    count
}

/// How many times this element variable is written in the pattern, or 2 if it is more.
#[cycle(times)]
fn times(pat: &Pat, name: &str, sort: &Sort) -> u32
    ensures { result ≡ min (the_times name.now (plain_sort sort.now) (pattern_tree pat.now)) 2 }
{
    match &pat.form {
        PatForm::Elem(..) => u32::from(is_variable(pat, name, sort)),
        PatForm::App(_, _, args) | PatForm::Built(_, _, args) => times_in_all(args, name, sort),
        PatForm::Bound(_, _, variable, body) => {
            (times(variable, name, sort) + times(body, name, sort)).min(2)
        }
        PatForm::Fold(_, inner) => times(inner, name, sort),
        PatForm::SetVar(..) | PatForm::Text(_) | PatForm::Value(..) => 0,
    }
}

#[cycle(times)]
fn times_in_all(pats: &[Pat], name: &str, sort: &Sort) -> u32
    ensures { result
        ≡ min (the_times_in_all name.now (plain_sort sort.now)
        (pattern_trees (map pattern_tree pats.now))) 2 }
{
    let mut count: u32 = 0;
    for pat in pats {
        count = (count + times(pat, name, sort)).min(2);
    }
    count
}
