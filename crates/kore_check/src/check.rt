// The faults of a pattern, in one pass over it.
ghost use Rattle.std.specs.Prelude.{◌≡◌, ◌≤◌, ℕ, length, map, drop, option_map, option_copied};
ghost use Rattle.kore_text.specs.Trees.{pattern_trees};
ghost use Rattle.kore_ast.specs.Plain.{plain_sort, pattern_tree};
ghost use Rattle.kore_check.specs.Folds.{unfolded, inner_fold, only_of, connective_of, all_unfolded};
ghost use Rattle.kore_check.specs.PatternSorts.{sort_of_pattern, places_of};
ghost use Rattle.kore_check.specs.PatternFaults.{pattern_faults, argument_faults, first_wanted};
ghost use Rattle.kore_check.specs.Notes.{kept_fault, after, sort_no};
ghost use Rattle.kore_sig.specs.Numbered.{IsNumbered};
ghost use Rattle.kore_check.specs.FoldFaults.{folded_faults, next_faults};

use crate::PatternFault;
use crate::heads::{check_head, symbol};
use crate::pairs::is_pair;
use crate::sorts::{check_clash, check_sort, wanted};
use crate::values::check_value;
use kore_ast::{Op, Pat, PatForm, Sort, Text};
use rule_core::{Signature, SortRef, SymInfo};
use term_core::SortId;

// One of the applications that a fold stands for: the byte of the symbol, the sort of the
// application, and the sorts of its two places.
#[derive(Clone, Copy)]
pub(crate) struct FoldSorts {
    at: u32,
    own: Option<SortId>,
    lower: Option<SortId>,
    upper: Option<SortId>,
}

// Notes the faults of a pattern and returns its sort.
#[cycle(check)]
pub(crate) fn check(sig: &Signature, pat: &Pat, first: &mut Option<PatternFault>) -> Option<SortId>
    requires { IsNumbered sig.now }
    ensures sort { option_map sort_no result
        ≡ sort_of_pattern sig.now (unfolded (pattern_tree pat.now)) }
    ensures first { kept_fault first.new
        ≡ after first.old (pattern_faults sig.now (unfolded (pattern_tree pat.now))) }
{
    match &pat.form {
        PatForm::Elem(_, sort) => check_sort(sig, sort, first),
        PatForm::Value(sort, text, at) => check_value(sig, sort, text, *at, first),
        PatForm::App(name, sorts, args) => {
            let symbol = symbol(sig, name);
            let own = check_head(sig, pat.at, symbol, sorts, args.len(), first);
            check_arguments(args, sig, sorts, places(symbol), first);
            own
        }
        PatForm::Built(op, sorts, args) => check_connective(args, sig, *op, sorts, first),
        PatForm::Fold(left, inner) => check_fold(inner, sig, *left, first),
        PatForm::SetVar(..) | PatForm::Text(_) | PatForm::Bound(..) => None,
    }
}

// The declared sorts of a symbol's arguments.
fn places(symbol: Option<&SymInfo>) -> &[SortRef]
    ensures { result.now ≡ places_of (option_copied symbol.entry) }
{
    match symbol {
        Some(symbol) => &symbol.args,
        None => &[],
    }
}

// Notes the faults of the arguments at these places of a symbol with these sort arguments.
#[cycle(check)]
fn check_arguments(
    args: &[Pat],
    sig: &Signature,
    sorts: &[Sort],
    places: &[SortRef],
    first: &mut Option<PatternFault>,
)
    requires { IsNumbered sig.now }
    ensures { kept_fault first.new ≡ after first.old
        (argument_faults sig.now (map plain_sort sorts.now) places.now
        (all_unfolded (pattern_trees (map pattern_tree args.now)))) }
{
    for (i, arg) in args.iter().enumerate() {
        let own = check(sig, arg, first);
        check_clash(arg.at, own, wanted_at(sig, sorts, places, i), first);
    }
}

// Notes the faults of a fold of this pattern, from the left or from the right, and returns its
// sort. The faults of the symbol are noted once, although the fold stands for many applications of
// it.
#[cycle(check)]
fn check_fold(
    inner: &Pat,
    sig: &Signature,
    left: bool,
    first: &mut Option<PatternFault>,
) -> Option<SortId>
    requires { IsNumbered sig.now }
    ensures sort { option_map sort_no result
        ≡ sort_of_pattern sig.now (inner_fold left (pattern_tree inner.now)) }
    ensures first { kept_fault first.new
        ≡ after first.old (pattern_faults sig.now (inner_fold left (pattern_tree inner.now))) }
{
    match &inner.form {
        PatForm::App(name, sorts, args) => {
            if args.len() < 2 {
                return check_only(args, sig, first);
            }
            let symbol = symbol(sig, name);
            let places = places(symbol);
            let own = check_head(sig, inner.at, symbol, sorts, 2, first);
            let lower = wanted_at(sig, sorts, places, 0);
            let upper = wanted_at(sig, sorts, places, 1);
            check_folded(
                args,
                sig,
                left,
                FoldSorts {
                    at: inner.at,
                    own,
                    lower,
                    upper,
                },
                first,
            );
            own
        }
        PatForm::Built(op, sorts, args) => {
            if args.len() == 1 {
                return check_only(args, sig, first);
            }
            check_connective(args, sig, *op, sorts, first)
        }
        PatForm::Elem(..) | PatForm::SetVar(..) | PatForm::Text(_) => None,
        PatForm::Bound(..) | PatForm::Value(..) | PatForm::Fold(..) => None,
    }
}

// Notes the faults of an `\and` of two patterns, and returns its sort. It notes nothing of another
// connective and returns None.
#[cycle(check)]
fn check_connective(
    args: &[Pat],
    sig: &Signature,
    op: Op,
    sorts: &[Sort],
    first: &mut Option<PatternFault>,
) -> Option<SortId>
    requires { IsNumbered sig.now }
    ensures sort { (at : ℕ) → option_map sort_no result
        ≡ sort_of_pattern sig.now
        (connective_of at op (map plain_sort sorts.now)
        (all_unfolded (pattern_trees (map pattern_tree args.now)))) }
    ensures first { (at : ℕ) → kept_fault first.new
        ≡ after first.old (pattern_faults sig.now
        (connective_of at op (map plain_sort sorts.now)
        (all_unfolded (pattern_trees (map pattern_tree args.now))))) }
{
    if !is_pair(op, sorts, args) {
        return None;
    }
    let own = check_sort(sig, &sorts[0], first);
    let lower = &args[0];
    let upper = &args[1];
    let sort = check(sig, lower, first);
    check_clash(lower.at, sort, own, first);
    let sort = check(sig, upper, first);
    check_clash(upper.at, sort, own, first);
    own
}

// Notes the faults of the only pattern and returns its sort. If there is not exactly one pattern,
// it notes nothing and returns None.
#[cycle(check)]
fn check_only(args: &[Pat], sig: &Signature, first: &mut Option<PatternFault>) -> Option<SortId>
    requires { IsNumbered sig.now }
    ensures sort { (at : ℕ) → option_map sort_no result
        ≡ sort_of_pattern sig.now
        (only_of at (all_unfolded (pattern_trees (map pattern_tree args.now)))) }
    ensures first { (at : ℕ) → kept_fault first.new
        ≡ after first.old (pattern_faults sig.now
        (only_of at (all_unfolded (pattern_trees (map pattern_tree args.now))))) }
{
    if args.len() != 1 {
        return None;
    }
    check(sig, &args[0], first)
}

// Notes the faults of two or more arguments of a fold.
#[cycle(check)]
fn check_folded(
    args: &[Pat],
    sig: &Signature,
    left: bool,
    sorts: FoldSorts,
    first: &mut Option<PatternFault>,
)
    requires numbered { IsNumbered sig.now }
    requires some { 2 ≤ length args.now }
    ensures { kept_fault first.new
        ≡ after first.old (folded_faults sig.now left sorts
        (all_unfolded (pattern_trees (map pattern_tree args.now)))) }
{
    let arg = &args[0];
    let own = check(sig, arg, first);
    check_clash(arg.at, own, sorts.lower, first);
    for i in 1..args.len() {
        let arg = &args[i];
        let own = check(sig, arg, first);
        check_next(i + 1 == args.len(), left, arg.at, own, sorts, first);
    }
}

// Notes the clashes at an argument of a fold after the first one. The last argument is the second
// one of an application. Any other one is the second one of an application in a fold from the left,
// and the first one in a fold from the right. That application is itself an argument, so its sort
// is checked too.
fn check_next(
    is_last: bool,
    left: bool,
    at: u32,
    own: Option<SortId>,
    sorts: FoldSorts,
    first: &mut Option<PatternFault>,
)
    ensures { kept_fault first.new
        ≡ after first.old (next_faults is_last left at (option_map sort_no own) sorts) }
{
    if is_last {
        check_clash(at, own, sorts.upper, first);
    } else if left {
        check_clash(at, own, sorts.upper, first);
        check_clash(sorts.at, sorts.own, sorts.lower, first);
    } else {
        check_clash(at, own, sorts.lower, first);
        check_clash(sorts.at, sorts.own, sorts.upper, first);
    }
}

// The sort that the place with this number wants.
fn wanted_at(sig: &Signature, sorts: &[Sort], places: &[SortRef], number: usize) -> Option<SortId>
    requires { IsNumbered sig.now }
    ensures { option_map sort_no result
        ≡ first_wanted sig.now (map plain_sort sorts.now) (drop number places.now) }
{
    let of = places.get(number)?;
    wanted(sig, sorts, *of)
}
