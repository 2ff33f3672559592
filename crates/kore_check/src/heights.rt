// The height of a pattern with its folds expanded.
ghost use Rattle.std.specs.Prelude.{◌≡◌, ◌≤◌, ◌+◌, ℕ, true, false, List, length, map};
ghost use Rattle.kore_text.specs.Trees.{SortTree, pattern_trees};
ghost use Rattle.kore_ast.specs.Plain.{plain_sort, pattern_tree};
ghost use Rattle.kore_check.specs.Folds.{unfolded, inner_fold, only_of, fold_of, all_unfolded};
ghost use Rattle.kore_check.specs.Folds.{connective_of};
ghost use Rattle.kore_check.specs.Folds.{unfolded_height, unfolded_heights};
ghost use Rattle.kore_check.specs.FoldHeights.{cut};

use crate::pairs::is_pair;
use kore_ast::{Op, Pat, PatForm, Sort};
use term_core::MAX_HEIGHT;

/// The height of a pattern with its folds expanded, or 501 if it is greater. A variable, a value
/// and a symbol without arguments have the height 1. An `\and` of two patterns has that of the higher
/// one. It goes through the pattern once.
#[cycle(height)]
pub fn height_of(pat: &Pat) -> u32
    ensures { result ≡ cut (unfolded_height (unfolded (pattern_tree pat.now))) }
{
    match &pat.form {
        PatForm::Elem(..) | PatForm::Value(..) => 1,
        PatForm::App(_, _, args) => one_more(highest(args)),
        PatForm::Built(op, sorts, args) => connective_height(args, *op, sorts),
        PatForm::Fold(left, inner) => fold_height(inner, *left),
        PatForm::SetVar(..) | PatForm::Text(_) | PatForm::Bound(..) => 1,
    }
}

// The greatest height of these patterns, or 501 if it is greater. It is 0 if there are none.
#[cycle(height)]
fn highest(args: &[Pat]) -> u32
    ensures { result
        ≡ cut (unfolded_heights (all_unfolded (pattern_trees (map pattern_tree args.now)))) }
{
    let mut highest: u32 = 0;
    for arg in args {
        highest = highest.max(height_of(arg));
    }
    highest
}

// The height of a fold of this pattern, or 501 if it is greater.
#[cycle(height)]
fn fold_height(inner: &Pat, left: bool) -> u32
    ensures { result ≡ cut (unfolded_height (inner_fold left (pattern_tree inner.now))) }
{
    match &inner.form {
        PatForm::App(_, _, args) => {
            if args.len() < 2 {
                only_height(args)
            } else if left {
                left_height(args)
            } else {
                right_height(args)
            }
        }
        PatForm::Built(op, sorts, args) => {
            if args.len() == 1 {
                return only_height(args);
            }
            connective_height(args, *op, sorts)
        }
        PatForm::Elem(..) | PatForm::SetVar(..) | PatForm::Text(_) => 1,
        PatForm::Bound(..) | PatForm::Value(..) | PatForm::Fold(..) => 1,
    }
}

// The height of the higher pattern of an `\and` of two, or 501 if it is greater. It is 1 for another
// connective.
#[cycle(height)]
fn connective_height(args: &[Pat], op: Op, sorts: &[Sort]) -> u32
    ensures { (at : ℕ) → result
        ≡ cut (unfolded_height
        (connective_of at op (map plain_sort sorts.now)
        (all_unfolded (pattern_trees (map pattern_tree args.now))))) }
{
    if !is_pair(op, sorts, args) {
        return 1;
    }
    highest(args)
}

// The height of the only pattern, or 1 if there is not exactly one.
#[cycle(height)]
fn only_height(args: &[Pat]) -> u32
    ensures { (at : ℕ) → result
        ≡ cut (unfolded_height
        (only_of at (all_unfolded (pattern_trees (map pattern_tree args.now))))) }
{
    if args.len() != 1 {
        return 1;
    }
    height_of(&args[0])
}

// The height of a fold of these patterns from the left, or 501 if it is greater. Each argument adds
// one application above those before it.
#[cycle(height)]
fn left_height(args: &[Pat]) -> u32
    requires { 2 ≤ length args.now }
    ensures { (byte : ℕ) (name : List ℕ) (ss : List SortTree) → result
        ≡ cut (unfolded_height (fold_of true byte name ss
        (all_unfolded (pattern_trees (map pattern_tree args.now))))) }
{
    let mut height = height_of(&args[0]);
    for i in 1..args.len() {
        height = one_more(height.max(height_of(&args[i])));
    }
    height
}

// The height of a fold of these patterns from the right, or 501 if it is greater. Each argument
// adds one application above those after it.
#[cycle(height)]
fn right_height(args: &[Pat]) -> u32
    requires { 2 ≤ length args.now }
    ensures { (byte : ℕ) (name : List ℕ) (ss : List SortTree) → result
        ≡ cut (unfolded_height (fold_of false byte name ss
        (all_unfolded (pattern_trees (map pattern_tree args.now))))) }
{
    let last = args.len() - 1;
    let mut height = height_of(&args[last]);
    for i in (0..last).rev() {
        height = one_more(height.max(height_of(&args[i])));
    }
    height
}

// One more than a height, or 501 if that is greater.
fn one_more(height: u32) -> u32
    ensures { result ≡ cut (height + 1) }
{
    height.min(MAX_HEIGHT) + 1
}
