// Whether the patterns of a function's arguments, a condition and a right side are readable, except
// that their variables need not be bound.
ghost use Rattle.std.specs.Prelude.{◌≡◌, ◌||◌, map, option_map};
ghost use Rattle.std.specs.List.{list_any};
ghost use Rattle.kore_text.specs.Trees.{pattern_trees};
ghost use Rattle.kore_ast.specs.Plain.{pattern_tree};
ghost use Rattle.kore_sig.specs.Numbered.{IsNumbered};
ghost use Rattle.kore_check.specs.Folds.{all_unfolded};
ghost use Rattle.kore_shapes.specs.Forms.{has_form as has_one, has_binder as has_a_binder};
ghost use Rattle.kore_shapes.specs.Forms.{others, all_forms};
ghost use Rattle.kore_shapes.specs.Views.{pattern_at, plain_condition};
ghost use Rattle.kore_axioms.specs.Conditions.{tested_pattern as the_tested};
ghost use Rattle.kore_axioms.specs.LeftNames.{has_bad_and as has_bad_one};
ghost use Rattle.kore_axioms.specs.RuleForms.{holds_of};
ghost use Rattle.kore_axioms.specs.Uses.{have_symbol as have_one};
ghost use Rattle.kore_axioms.specs.UsedSymbols.{is_used};
ghost use Rattle.kore_equations.specs.ReadableSides.{has_other_form as has_such_form};
ghost use Rattle.kore_equations.specs.ReadableSides.{has_some_binder as has_such_binder};
ghost use Rattle.kore_equations.specs.ReadableSides.{have_good_form as are_of_good_form};
ghost use Rattle.kore_equations.specs.ClearEquations.{have_good_symbols as have_only_good};
ghost use Rattle.kore_equations.specs.ClearEquations.{are_clear as are_all_clear};
ghost use Rattle.kore_equations.specs.ClearEquations.{is_clear_right as is_the_right_clear};

use crate::sorts::{are_sorted, result_sort};
use kore_ast::Pat;
use kore_axioms::{Symbols, has_bad_and, has_symbol, is_faultless, is_ill, tested};
use kore_shapes::{Condition, SoughtForms, has_binder, has_form};
use rule_core::{Signature, SymInfo};

/// Whether the patterns of a function's arguments and a condition have a good form, have no fault of
/// their sorts, and have no symbol that is not allowed in them.
pub(crate) fn are_clear(
    sig: &Signature,
    symbol: &SymInfo,
    pats: &[&Pat],
    condition: Condition<'_>,
) -> bool
    requires { IsNumbered sig.now }
    ensures { result ≡ are_all_clear sig.now symbol.now (map pattern_at pats.now)
        (plain_condition condition.entry) }
{
    have_good_form(pats, condition)
        && are_sorted(sig, symbol, pats, condition)
        && have_good_symbols(pats, sig, symbol)
}

/// Whether a right side has a good form and no fault of its sorts.
pub(crate) fn is_clear_right(sig: &Signature, symbol: &SymInfo, right: &Pat) -> bool
    requires { IsNumbered sig.now }
    ensures { result ≡ is_the_right_clear sig.now symbol.now (pattern_tree right.now) }
{
    !has_form(right, SoughtForms::All)
        && !has_binder(right)
        && is_faultless(sig, right, result_sort(symbol))
}

/// Whether patterns of arguments and a condition have no form that they may not have and no binder,
/// and the condition has the form of a condition.
fn have_good_form(pats: &[&Pat], condition: Condition<'_>) -> bool
    ensures { result
        ≡ are_of_good_form (map pattern_at pats.now) (plain_condition condition.entry) }
{
    !has_other_form(pats, condition) && !has_some_binder(pats, condition) && !is_ill(condition)
}

fn has_other_form(pats: &[&Pat], condition: Condition<'_>) -> bool
    ensures { result ≡ has_such_form (map pattern_at pats.now) (plain_condition condition.entry) }
{
    have_form(pats) || have_bad_and(pats) || is_of_other_form(tested(condition))
}

fn is_of_other_form(pat: Option<&Pat>) -> bool
    ensures { result ≡ holds_of (has_one all_forms) (option_map pattern_at pat.entry) }
{
    pat.is_some_and(|pat| has_form(pat, SoughtForms::All))
}

fn has_some_binder(pats: &[&Pat], condition: Condition<'_>) -> bool
    ensures { result ≡ has_such_binder (map pattern_at pats.now) (plain_condition condition.entry) }
{
    have_binder(pats) || is_with_binder(tested(condition))
}

fn is_with_binder(pat: Option<&Pat>) -> bool
    ensures { result ≡ holds_of has_a_binder (option_map pattern_at pat.entry) }
{
    pat.is_some_and(|pat| has_binder(pat))
}

/// Whether one of the patterns of the arguments has a binder.
fn have_binder(pats: &[&Pat]) -> bool
    ensures { result ≡ list_any has_a_binder (map pattern_at pats.now) }
{
    for pat in pats {
        if has_binder(pat) {
            return true;
        }
    }
    false
}

/// Whether one of the patterns of the arguments has a form that none of them may have.
fn have_form(pats: &[&Pat]) -> bool
    ensures { result ≡ list_any (has_one others) (map pattern_at pats.now) }
{
    for pat in pats {
        if has_form(pat, SoughtForms::Others) {
            return true;
        }
    }
    false
}

/// Whether an `\and` in one of the patterns of the arguments gives no name, or one that stands
/// elsewhere in them.
fn have_bad_and(pats: &[&Pat]) -> bool
    ensures { result
        ≡ list_any (has_bad_one (map pattern_at pats.now)) (map pattern_at pats.now) }
{
    for pat in pats {
        if has_bad_and(pat, pats) {
            return true;
        }
    }
    false
}

/// Whether the patterns of the arguments have no function and no AC symbol, and the function is not
/// AC.
fn have_good_symbols(pats: &[&Pat], sig: &Signature, symbol: &SymInfo) -> bool
    ensures { result ≡ have_only_good sig.now symbol.now (map pattern_at pats.now) }
{
    !have_symbol(pats, sig, Symbols::PlainFunctions)
        && !symbol.ac
        && !have_symbol(pats, sig, Symbols::Ac)
}

/// Whether one of these symbols occurs in one of the patterns.
fn have_symbol(pats: &[&Pat], sig: &Signature, which: Symbols) -> bool
    ensures { result
        ≡ have_one (is_used which sig.now)
        (all_unfolded (pattern_trees (map pattern_at pats.now))) }
{
    for pat in pats {
        if has_symbol(pat, sig, which) {
            return true;
        }
    }
    false
}
