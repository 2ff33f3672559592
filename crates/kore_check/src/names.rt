// The names of parts in left sides.
ghost use Rattle.std.specs.Prelude.{◌≡◌, ◌≤◌, ◌++◌, ◌∷◌, [], ℕ, Bool, true, false, List, OnOk};
ghost use Rattle.std.specs.Prelude.{map, length};
ghost use Rattle.kore_text.specs.Trees.{SortTree, pattern_trees};
ghost use Rattle.kore_ast.specs.Plain.{plain_sort, pattern_tree as plain_tree};
ghost use Rattle.rule_core.specs.ProgramView.{names_of};
ghost use Rattle.kore_sig.specs.Numbered.{IsNumbered};
ghost use Rattle.kore_check.specs.Folds.{unfolded, all_unfolded, inner_fold, only_of, connective_of};
ghost use Rattle.kore_check.specs.Folds.{fold_of};
ghost use Rattle.kore_check.specs.PartNames.{names_in, names_in_all, name_at};
ghost use Rattle.kore_check.specs.PartNames.{number_of_variable};

use crate::pairs::is_pair;
use crate::sorts::declared_sort;
use crate::{Variables, as_number, variable_of};
use kore_ast::{Op, Pat, PatForm, Sort};
use rule_core::{Named, Signature};
use std::alloc::{AllocError, Global};

/// Adds the names of parts in the left side of a rule, or in an argument's pattern of an equation.
/// `number` is the number of the argument, which is 0 for a rule. The variables are those of the side.
/// Of names of one part, the inner comes first.
///
/// Error: out of memory. This is also the error if a symbol has 2^32 arguments or more. After it some
/// of the names may have been added. It goes through the pattern once, with a look-up for each name and
/// a copy of the way to its part.
pub fn add_names(
    alloc: Global,
    sig: &Signature,
    pat: &Pat,
    number: u32,
    vars: &Variables,
    named: &mut Vec<Named>,
) -> Result<(), AllocError>
    requires { IsNumbered sig.now }
    ensures { OnOk result (names_of named.new.items
        ≡ names_of named.old.items
        ++ names_in sig.now vars.now (number ∷ []) (unfolded (plain_tree pat.now))) }
{
    let mut way = vec![in alloc; number]?;
    note_names(pat, alloc, sig, vars, &mut way, named)
}

// Adds the names in a pattern to which this way leads.
#[cycle(names)]
fn note_names(
    pat: &Pat,
    alloc: Global,
    sig: &Signature,
    vars: &Variables,
    way: &mut Vec<u32>,
    named: &mut Vec<Named>,
) -> Result<(), AllocError>
    requires { IsNumbered sig.now }
    ensures named { OnOk result (names_of named.new.items
        ≡ names_of named.old.items
        ++ names_in sig.now vars.now way.old.items (unfolded (plain_tree pat.now))) }
    ensures way { OnOk result (way.new.items ≡ way.old.items) }
{
    match &pat.form {
        PatForm::App(_, _, args) => note_all(args, alloc, sig, vars, way, named),
        PatForm::Built(op, sorts, args) => {
            note_connective(args, alloc, sig, *op, sorts, vars, way, named)
        }
        PatForm::Fold(left, inner) => note_fold(inner, alloc, sig, *left, vars, way, named),
        PatForm::Elem(..) | PatForm::SetVar(..) | PatForm::Text(_) => Ok(()),
        PatForm::Bound(..) | PatForm::Value(..) => Ok(()),
    }
}

// Adds the names in the arguments of an application to which this way leads.
#[cycle(names)]
fn note_all(
    args: &[Pat],
    alloc: Global,
    sig: &Signature,
    vars: &Variables,
    way: &mut Vec<u32>,
    named: &mut Vec<Named>,
) -> Result<(), AllocError>
    requires { IsNumbered sig.now }
    ensures named { OnOk result (names_of named.new.items
        ≡ names_of named.old.items
        ++ names_in_all sig.now vars.now way.old.items 0
        (all_unfolded (pattern_trees (map plain_tree args.now)))) }
    ensures way { OnOk result (way.new.items ≡ way.old.items) }
{
    for (i, arg) in args.iter().enumerate() {
        let number = as_number(i).ok_or(AllocError)?;
        note_below(arg, alloc, sig, number, vars, way, named)?;
    }
    Ok(())
}

// Adds the names in the argument with this number of an application to which this way leads.
#[cycle(names)]
fn note_below(
    arg: &Pat,
    alloc: Global,
    sig: &Signature,
    number: u32,
    vars: &Variables,
    way: &mut Vec<u32>,
    named: &mut Vec<Named>,
) -> Result<(), AllocError>
    requires { IsNumbered sig.now }
    ensures named { OnOk result (names_of named.new.items
        ≡ names_of named.old.items
        ++ names_in sig.now vars.now (way.old.items ++ number ∷ []) (unfolded (plain_tree arg.now))) }
    ensures way { OnOk result (way.new.items ≡ way.old.items) }
{
    way.push(number)?;
    note_names(arg, alloc, sig, vars, way, named)?;
    way.pop();
    Ok(())
}

// Adds the names in an `\and` of two patterns, and the name that it gives. It adds nothing of another
// connective.
#[cycle(names)]
fn note_connective(
    args: &[Pat],
    alloc: Global,
    sig: &Signature,
    op: Op,
    sorts: &[Sort],
    vars: &Variables,
    way: &mut Vec<u32>,
    named: &mut Vec<Named>,
) -> Result<(), AllocError>
    requires { IsNumbered sig.now }
    ensures named { (at : ℕ) → OnOk result (names_of named.new.items
        ≡ names_of named.old.items
        ++ names_in sig.now vars.now way.old.items
        (connective_of at op (map plain_sort sorts.now)
        (all_unfolded (pattern_trees (map plain_tree args.now))))) }
    ensures way { OnOk result (way.new.items ≡ way.old.items) }
{
    if !is_pair(op, sorts, args) {
        return Ok(());
    }
    let first = &args[0];
    let second = &args[1];
    note_names(first, alloc, sig, vars, way, named)?;
    note_names(second, alloc, sig, vars, way, named)?;
    add_name(
        alloc,
        variable_in(first, sig, vars),
        variable_in(second, sig, vars),
        way,
        named,
    )
}

// Adds the names in a fold of this pattern to which this way leads.
#[cycle(names)]
fn note_fold(
    inner: &Pat,
    alloc: Global,
    sig: &Signature,
    left: bool,
    vars: &Variables,
    way: &mut Vec<u32>,
    named: &mut Vec<Named>,
) -> Result<(), AllocError>
    requires { IsNumbered sig.now }
    ensures named { OnOk result (names_of named.new.items
        ≡ names_of named.old.items
        ++ names_in sig.now vars.now way.old.items (inner_fold left (plain_tree inner.now))) }
    ensures way { OnOk result (way.new.items ≡ way.old.items) }
{
    match &inner.form {
        PatForm::App(_, _, args) => {
            if args.len() < 2 {
                note_only(args, alloc, sig, vars, way, named)
            } else if left {
                note_left(args, alloc, sig, vars, way, named)
            } else {
                note_right(args, alloc, sig, vars, way, named)
            }
        }
        PatForm::Built(op, sorts, args) => {
            if args.len() == 1 {
                return note_only(args, alloc, sig, vars, way, named);
            }
            note_connective(args, alloc, sig, *op, sorts, vars, way, named)
        }
        PatForm::Elem(..) | PatForm::SetVar(..) | PatForm::Text(_) => Ok(()),
        PatForm::Bound(..) | PatForm::Value(..) | PatForm::Fold(..) => Ok(()),
    }
}

// Adds the names in the only pattern. If there is not exactly one, it adds nothing.
#[cycle(names)]
fn note_only(
    args: &[Pat],
    alloc: Global,
    sig: &Signature,
    vars: &Variables,
    way: &mut Vec<u32>,
    named: &mut Vec<Named>,
) -> Result<(), AllocError>
    requires { IsNumbered sig.now }
    ensures named { (at : ℕ) → OnOk result (names_of named.new.items
        ≡ names_of named.old.items
        ++ names_in sig.now vars.now way.old.items
        (only_of at (all_unfolded (pattern_trees (map plain_tree args.now))))) }
    ensures way { OnOk result (way.new.items ≡ way.old.items) }
{
    if args.len() != 1 {
        return Ok(());
    }
    note_names(&args[0], alloc, sig, vars, way, named)
}

// Adds the names in a fold of two or more arguments from the left. The first argument is one step
// further from the fold for each argument after it.
#[cycle(names)]
fn note_left(
    args: &[Pat],
    alloc: Global,
    sig: &Signature,
    vars: &Variables,
    way: &mut Vec<u32>,
    named: &mut Vec<Named>,
) -> Result<(), AllocError>
    requires numbered { IsNumbered sig.now }
    requires some { 2 ≤ length args.now }
    ensures named { (byte : ℕ) (name : List ℕ) (ss : List SortTree)
        → OnOk result (names_of named.new.items
        ≡ names_of named.old.items
        ++ names_in sig.now vars.now way.old.items (fold_of true byte name ss
        (all_unfolded (pattern_trees (map plain_tree args.now))))) }
    ensures way { OnOk result (way.new.items ≡ way.old.items) }
{
    for _ in 1..args.len() {
        way.push(0)?;
    }
    note_names(&args[0], alloc, sig, vars, way, named)?;
    for i in 1..args.len() {
        way.pop();
        note_below(&args[i], alloc, sig, 1, vars, way, named)?;
    }
    Ok(())
}

// Adds the names in a fold of two or more arguments from the right. An argument is one step further
// from the fold for each argument before it.
#[cycle(names)]
fn note_right(
    args: &[Pat],
    alloc: Global,
    sig: &Signature,
    vars: &Variables,
    way: &mut Vec<u32>,
    named: &mut Vec<Named>,
) -> Result<(), AllocError>
    requires numbered { IsNumbered sig.now }
    requires some { 2 ≤ length args.now }
    ensures named { (byte : ℕ) (name : List ℕ) (ss : List SortTree)
        → OnOk result (names_of named.new.items
        ≡ names_of named.old.items
        ++ names_in sig.now vars.now way.old.items (fold_of false byte name ss
        (all_unfolded (pattern_trees (map plain_tree args.now))))) }
    ensures way { OnOk result (way.new.items ≡ way.old.items) }
{
    let before = way.len();
    let last = args.len() - 1;
    for i in 0..last {
        note_below(&args[i], alloc, sig, 0, vars, way, named)?;
        way.push(1)?;
    }
    note_names(&args[last], alloc, sig, vars, way, named)?;
    way.truncate(before);
    Ok(())
}

// Adds the name of the part to which this way leads, if the first or the second pattern of its `\and`
// is the variable with this number.
fn add_name(
    alloc: Global,
    first: Option<u32>,
    second: Option<u32>,
    way: &[u32],
    named: &mut Vec<Named>,
) -> Result<(), AllocError>
    ensures { OnOk result (names_of named.new.items
        ≡ names_of named.old.items ++ name_at way.now first second) }
{
    let Some(var) = first.or(second) else {
        return Ok(());
    };
    let at = Vec::from_slice(alloc, way)?;
    named.push(Named {
        var,
        at,
        first: first.is_some(),
    })?;
    Ok(())
}

// The number of a variable, if the pattern is one.
fn variable_in(pat: &Pat, sig: &Signature, vars: &Variables) -> Option<u32>
    requires { IsNumbered sig.now }
    ensures { result ≡ number_of_variable sig.now vars.now (unfolded (plain_tree pat.now)) }
{
    let variable = variable_of(pat)?;
    let sort = declared_sort(sig, variable.sort)?;
    vars.number(variable.name.as_str(), sort)
}
