// How equations of functions are written.
ghost use Rattle.std.specs.Prelude.{◌≡◌, map, option_map};
ghost use Rattle.std.specs.Option.{option_and_then};
ghost use Rattle.kore_ast.specs.Plain.{plain_sort, pattern_tree};
ghost use Rattle.kore_shapes.specs.Statements.{symbol_called as the_called};
ghost use Rattle.kore_shapes.specs.Statements.{stated_call as the_call_of};
ghost use Rattle.kore_shapes.specs.Statements.{equality as the_equality};
ghost use Rattle.kore_shapes.specs.Statements.{equality_with as the_equality_with};
ghost use Rattle.kore_shapes.specs.Statements.{guarded as the_guarded};
ghost use Rattle.kore_shapes.specs.Statements.{stated_equation as the_statement};
ghost use Rattle.kore_shapes.specs.Statements.{statement_with as the_statement_with};
ghost use Rattle.kore_shapes.specs.StatementViews.{plain_statement, plain_call};

use crate::sorts::same_sort;
use kore_ast::{Op, Pat, PatForm, Sort, Text};

/// The parts of `\equals{S,R}(f{}(..),d)`, or of the same after a guard g in `\implies{R}(g,..)`.
#[derive(Clone, Copy)]
pub struct Statement<'a> {
    /// The guard g, if there is one.
    pub guard: Option<&'a Pat>,
    /// The sort S.
    pub sort: &'a Sort,
    /// The sort R.
    pub over: &'a Sort,
    /// The name of f.
    pub function: &'a Text,
    /// The patterns that f is applied to.
    pub arguments: &'a [Pat],
    /// The pattern d.
    pub value: &'a Pat,
}

/// The parts of a pattern `\equals{S,R}(f{}(..),d)` or `\implies{R}(g,\equals{S,R}(f{}(..),d))`.
/// Returns none for any other pattern.
pub fn statement_at(pat: &Pat) -> Option<Statement<'_>>
    ensures { option_map plain_statement result ≡ the_statement (pattern_tree pat.now) }
{
    match &pat.form {
        PatForm::Built(op, sorts, args) => statement_with(*op, sorts, args),
        _ => None,
    }
}

fn statement_with<'a>(op: Op, sorts: &'a [Sort], args: &'a [Pat]) -> Option<Statement<'a>>
    ensures { option_map plain_statement result
        ≡ the_statement_with op (map plain_sort sorts.now) (map pattern_tree args.now) }
{
    match (op, sorts, args) {
        (Op::Implies, [over], [guard, stated]) => guarded(over, guard, stated),
        _ => equality_with(op, sorts, args),
    }
}

/// The equality after this guard. Returns none if it is no such equality, or its sort R is another
/// one than the guard's.
fn guarded<'a>(over: &Sort, guard: &'a Pat, stated: &'a Pat) -> Option<Statement<'a>>
    ensures { option_map plain_statement result
        ≡ option_and_then (the_guarded (plain_sort over.now) (pattern_tree guard.now))
        (the_equality (pattern_tree stated.now)) }
{
    let equality = equality(stated)?;
    if !same_sort(over, equality.over) {
        return None;
    }
    Some(Statement {
        guard: Some(guard),
        ..equality
    })
}

fn equality(pat: &Pat) -> Option<Statement<'_>>
    ensures { option_map plain_statement result ≡ the_equality (pattern_tree pat.now) }
{
    match &pat.form {
        PatForm::Built(op, sorts, args) => equality_with(*op, sorts, args),
        _ => None,
    }
}

fn equality_with<'a>(op: Op, sorts: &'a [Sort], args: &'a [Pat]) -> Option<Statement<'a>>
    ensures { option_map plain_statement result
        ≡ the_equality_with op (map plain_sort sorts.now) (map pattern_tree args.now) }
{
    match (op, sorts, args) {
        (Op::Equals, [sort, over], [left, value]) => {
            let (function, arguments) = called(left)?;
            Some(Statement {
                guard: None,
                sort,
                over,
                function,
                arguments,
                value,
            })
        }
        _ => None,
    }
}

/// The symbol and the arguments of `f{}(..)`. Returns none for any other pattern.
fn called(pat: &Pat) -> Option<(&Text, &[Pat])>
    ensures { option_map plain_call result ≡ the_called (pattern_tree pat.now) }
{
    match &pat.form {
        PatForm::App(name, sorts, args) => call_of(name, sorts, args),
        _ => None,
    }
}

fn call_of<'a>(name: &'a Text, sorts: &[Sort], args: &'a [Pat]) -> Option<(&'a Text, &'a [Pat])>
    ensures { option_map plain_call result
        ≡ the_call_of name.now (map plain_sort sorts.now) (map pattern_tree args.now) }
{
    match sorts {
        [] => Some((name, args)),
        [_, ..] => None,
    }
}
