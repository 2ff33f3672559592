// Variables of patterns, as they are written.
ghost use Rattle.std.specs.Prelude.{◌≡◌, ℕ, Bool, map, option_map};
ghost use Rattle.kore_text.specs.Trees.{pattern_trees};
ghost use Rattle.kore_ast.specs.Plain.{pattern_tree};
ghost use Rattle.kore_check.specs.Folds.{unfolded, all_unfolded, inner_fold, only_of};
ghost use Rattle.kore_check.specs.Variables.{plain_variable, variable_of as the_variable};

use kore_ast::{Pat, PatForm, Sort, Text};

/// An element variable of a pattern.
#[derive(Clone, Copy)]
pub struct Variable<'a> {
    /// Its name.
    pub name: &'a Text,
    /// Its sort, as the pattern writes it.
    pub sort: &'a Sort,
}

/// The element variable that the pattern is after its folds are read. Returns none for any other
/// pattern. It goes through the folds around the variable.
#[cycle(variable)]
pub fn variable_of(pat: &Pat) -> Option<Variable<'_>>
    ensures { option_map plain_variable result ≡ the_variable (unfolded (pattern_tree pat.now)) }
{
    match &pat.form {
        PatForm::Elem(name, sort) => Some(Variable { name, sort }),
        PatForm::Fold(_, inner) => variable_in_fold(inner),
        PatForm::SetVar(..) | PatForm::Text(_) | PatForm::App(..) | PatForm::Value(..) => None,
        PatForm::Built(..) | PatForm::Bound(..) => None,
    }
}

// The variable that a fold of this pattern is.
#[cycle(variable)]
fn variable_in_fold(inner: &Pat) -> Option<Variable<'_>>
    ensures { (left : Bool) → option_map plain_variable result
        ≡ the_variable (inner_fold left (pattern_tree inner.now)) }
{
    match &inner.form {
        PatForm::App(_, _, args) | PatForm::Built(_, _, args) => only_variable(args),
        PatForm::Elem(..) | PatForm::SetVar(..) | PatForm::Text(_) => None,
        PatForm::Bound(..) | PatForm::Value(..) | PatForm::Fold(..) => None,
    }
}

// The variable that the only pattern is, if there is exactly one.
#[cycle(variable)]
fn only_variable(args: &[Pat]) -> Option<Variable<'_>>
    ensures { (at : ℕ) → option_map plain_variable result
        ≡ the_variable (only_of at (all_unfolded (pattern_trees (map pattern_tree args.now)))) }
{
    if args.len() != 1 {
        return None;
    }
    variable_of(&args[0])
}
