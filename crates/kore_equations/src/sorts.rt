// The faults of the sorts of an equation.
ghost use Rattle.std.specs.Prelude.{◌≡◌, ◌+◌, [], drop, map, option_map, nat_le};
ghost use Rattle.kore_ast.specs.Plain.{pattern_tree};
ghost use Rattle.rule_core.specs.Sorting.{sort_at as the_sort_at};
ghost use Rattle.kore_sig.specs.Numbered.{IsNumbered};
ghost use Rattle.kore_check.specs.Folds.{unfolded_heights};
ghost use Rattle.kore_check.specs.FoldHeights.{cut};
ghost use Rattle.rule_core.specs.Evaluation.{most_height};
ghost use Rattle.kore_check.specs.PatternFaults.{first_wanted};
ghost use Rattle.kore_shapes.specs.Views.{pattern_at, plain_condition};
ghost use Rattle.kore_equations.specs.ReadableSides.{all_read};
ghost use Rattle.kore_equations.specs.ClearEquations.{each_faultless, are_clear_sorts};

use kore_ast::Pat;
use kore_axioms::{is_faultless, is_faultless_condition};
use kore_check::height_of;
use kore_shapes::Condition;
use rule_core::{Signature, SortRef, SymInfo};
use term_core::{MAX_HEIGHT, SortId};

/// Whether there are as many patterns as the function has arguments, the function applied to them is
/// not too high, and they and the condition have no fault of their sorts.
pub(crate) fn are_sorted(
    sig: &Signature,
    symbol: &SymInfo,
    pats: &[&Pat],
    condition: Condition<'_>,
) -> bool
    requires { IsNumbered sig.now }
    ensures { result
        ≡ are_clear_sorts sig.now symbol.now (map pattern_at pats.now)
        (plain_condition condition.entry) }
{
    pats.len() == symbol.args.len()
        && fits_height(pats)
        && are_arguments(sig, pats, &symbol.args)
        && is_faultless_condition(sig, condition)
}

/// Whether a symbol applied to these patterns is not too high.
fn fits_height(pats: &[&Pat]) -> bool
    ensures { result
        ≡ nat_le (unfolded_heights (all_read (map pattern_at pats.now)) + 1) most_height }
{
    highest(pats) < MAX_HEIGHT
}

/// The greatest height of the patterns: 0 if there are none, and 501 if it is greater than 500.
fn highest(pats: &[&Pat]) -> u32
    ensures { result ≡ cut (unfolded_heights (all_read (map pattern_at pats.now))) }
{
    let mut highest: u32 = 0;
    for pat in pats {
        highest = highest.max(height_of(pat));
    }
    highest
}

/// Whether variables have no fault as the arguments of a symbol with these places.
pub(crate) fn are_parameters(sig: &Signature, pats: &[Pat], places: &[SortRef]) -> bool
    requires { IsNumbered sig.now }
    ensures { result ≡ each_faultless sig.now places.now (all_read (map pattern_tree pats.now)) }
{
    for (i, pat) in pats.iter().enumerate() {
        if !is_faultless(sig, pat, wanted(places, i)) {
            return false;
        }
    }
    true
}

/// Whether patterns have no fault as the arguments of a symbol with these places.
fn are_arguments(sig: &Signature, pats: &[&Pat], places: &[SortRef]) -> bool
    requires { IsNumbered sig.now }
    ensures { result ≡ each_faultless sig.now places.now (all_read (map pattern_at pats.now)) }
{
    for (i, pat) in pats.iter().enumerate() {
        if !is_faultless(sig, pat, wanted(places, i)) {
            return false;
        }
    }
    true
}

/// The sort that a place of a symbol without sort parameters wants. Returns none if there is no
/// such place.
fn wanted(places: &[SortRef], i: usize) -> Option<SortId>
    ensures { (sig : Signature)
        → option_map (λ s. s.0) result ≡ first_wanted sig [] (drop i places.now) }
{
    match places.get(i) {
        Some(SortRef::Sort(sort)) => Some(*sort),
        Some(SortRef::Param(_)) | None => None,
    }
}

/// The result sort of a symbol without sort parameters.
pub(crate) fn result_sort(symbol: &SymInfo) -> Option<SortId>
    ensures { option_map (λ s. s.0) result ≡ the_sort_at [] symbol.now.result }
{
    match symbol.result {
        SortRef::Sort(sort) => Some(sort),
        SortRef::Param(_) => None,
    }
}
