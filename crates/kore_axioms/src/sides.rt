// The faults of the sorts of a rewrite rule: of its sides, of its condition, and of the sort that
// it names.
ghost use Rattle.std.specs.Prelude.{◌≡◌, ◌++◌, List, map, option_map};
ghost use Rattle.kore_ast.specs.Plain.{plain_sort, pattern_tree};
ghost use Rattle.kore_sig.specs.FirstFault.{Fault};
ghost use Rattle.kore_sig.specs.SortReferences.{sort_number as the_number};
ghost use Rattle.kore_sig.specs.Numbered.{IsNumbered};
ghost use Rattle.kore_check.specs.Folds.{unfolded};
ghost use Rattle.kore_check.specs.PatternFaults.{sort_faults, clash_faults};
ghost use Rattle.kore_check.specs.FaultNumbers.{IsFirstOf};
ghost use Rattle.kore_shapes.specs.Views.{pattern_at, plain_condition};
ghost use Rattle.kore_axioms.specs.RuleFaults.{faults_at_sort, side_faults, condition_faults};
ghost use Rattle.kore_axioms.specs.RuleFaults.{only_sort_faults, is_empty, top_faults};
ghost use Rattle.kore_axioms.specs.RuleFaults.{found_top_faults, sorted_faults};
ghost use Rattle.kore_axioms.specs.Views.{plain_rule_parts};
ghost use Rattle.kore_check.specs.Notes.{kept_fault, after, sort_no};

use crate::parts::RuleParts;
use kore_ast::{Pat, PatForm, Sort};
use kore_check::{PatternFault, note_clash, note_pattern, note_sort};
use kore_shapes::Condition;
use kore_sig::sort_number;
use rule_core::Signature;
use term_core::SortId;

/// The first fault of the sorts of a rewrite rule over this sort. The first is the one at the
/// smallest byte; at one byte it is the one with the smallest number. It goes through the rule
/// once.
pub(crate) fn sort_fault(sig: &Signature, sort: &Sort, parts: RuleParts<'_>) -> Option<PatternFault>
    requires { IsNumbered sig.now }
    ensures { IsFirstOf (sorted_faults sig.now (plain_sort sort.now) (plain_rule_parts parts.entry))
        result }
{
    let mut first = None;
    let wanted = noted_sort(sig, sort, &mut first);
    note_side(sig, parts.before.main(), wanted, &mut first);
    note_condition(sig, parts.condition, &mut first);
    note_side(sig, parts.after.main(), wanted, &mut first);
    note_found_top(sig, parts.after.companion(), wanted, &mut first);
    first
}

/// Notes the faults of a pattern that should have this sort.
fn note_at_sort(
    sig: &Signature,
    pat: &Pat,
    wanted: Option<SortId>,
    first: &mut Option<PatternFault>,
)
    requires { IsNumbered sig.now }
    ensures { kept_fault first.new
        ≡ after first.old (faults_at_sort sig.now (option_map sort_no wanted)
        (unfolded (pattern_tree pat.now))) }
{
    let own = note_pattern(sig, pat, first);
    note_clash(pat.at, own, wanted, first);
}

/// Whether a pattern that should have this sort has no fault. It goes through the pattern once,
/// with a look-up for each sort and symbol.
pub fn is_faultless(sig: &Signature, pat: &Pat, wanted: Option<SortId>) -> bool
    requires { IsNumbered sig.now }
    ensures { result
        ≡ is_empty (faults_at_sort sig.now (option_map (λ s. s.0) wanted)
        (unfolded (pattern_tree pat.now))) }
{
    let mut first = None;
    note_at_sort(sig, pat, wanted, &mut first);
    first.is_none()
}

/// Whether the pattern that a condition tests has no fault. True if it tests none.
pub fn is_faultless_condition(sig: &Signature, condition: Condition<'_>) -> bool
    requires { IsNumbered sig.now }
    ensures { result ≡ is_empty (condition_faults sig.now (plain_condition condition.entry)) }
{
    let mut first = None;
    note_condition(sig, condition, &mut first);
    first.is_none()
}

/// Notes the faults of a side that should have this sort, if there is a pattern.
fn note_side(
    sig: &Signature,
    pat: Option<&Pat>,
    wanted: Option<SortId>,
    first: &mut Option<PatternFault>,
)
    requires { IsNumbered sig.now }
    ensures { kept_fault first.new
        ≡ after first.old
        (side_faults sig.now (option_map sort_no wanted) (option_map pattern_at pat.entry)) }
{
    if let Some(pat) = pat {
        note_at_sort(sig, pat, wanted, first);
    }
}

/// Notes the faults of the pattern that a condition tests.
fn note_condition(sig: &Signature, condition: Condition<'_>, first: &mut Option<PatternFault>)
    requires { IsNumbered sig.now }
    ensures { kept_fault first.new
        ≡ after first.old (condition_faults sig.now (plain_condition condition.entry)) }
{
    match condition {
        Condition::Tests(sort, pat) => note_at_sort(sig, pat, sort_id(sig, sort), first),
        Condition::Always | Condition::Malformed => {}
    }
}

/// The number of a declared sort. Returns none for any other sort.
fn sort_id(sig: &Signature, sort: &Sort) -> Option<SortId>
    requires { IsNumbered sig.now }
    ensures { option_map sort_no result ≡ the_number sig.now.sorts (plain_sort sort.now) }
{
    let number = sort_number(&sig.sorts, sort)?;
    Some(SortId(number as u32))
}

/// Notes the faults of the sort of the `\top{T}()` next to a right side, if there is one.
fn note_found_top(
    sig: &Signature,
    top: Option<&Pat>,
    wanted: Option<SortId>,
    first: &mut Option<PatternFault>,
)
    requires { IsNumbered sig.now }
    ensures { kept_fault first.new
        ≡ after first.old (found_top_faults sig.now (option_map sort_no wanted)
        (option_map pattern_at top.entry)) }
{
    if let Some(top) = top {
        note_top(sig, top, wanted, first);
    }
}

fn note_top(sig: &Signature, top: &Pat, wanted: Option<SortId>, first: &mut Option<PatternFault>)
    requires { IsNumbered sig.now }
    ensures { kept_fault first.new
        ≡ after first.old
        (top_faults sig.now (option_map sort_no wanted) (pattern_tree top.now)) }
{
    if let PatForm::Built(_, sorts, _) = &top.form {
        note_only_sort(sig, sorts, top.at, wanted, first);
    }
}

fn note_only_sort(
    sig: &Signature,
    sorts: &[Sort],
    at: u32,
    wanted: Option<SortId>,
    first: &mut Option<PatternFault>,
)
    requires { IsNumbered sig.now }
    ensures { kept_fault first.new
        ≡ after first.old
        (only_sort_faults sig.now (option_map sort_no wanted) at (map plain_sort sorts.now)) }
{
    if let [sort] = sorts {
        note_sort_at(sig, sort, at, wanted, first);
    }
}

/// Notes that a sort is not declared, or that it is not the wanted sort at this byte.
fn note_sort_at(
    sig: &Signature,
    sort: &Sort,
    at: u32,
    wanted: Option<SortId>,
    first: &mut Option<PatternFault>,
)
    requires { IsNumbered sig.now }
    ensures { kept_fault first.new ≡ after first.old
        (sort_faults sig.now (plain_sort sort.now)
        ++ clash_faults at (the_number sig.now.sorts (plain_sort sort.now))
        (option_map sort_no wanted)) }
{
    let own = noted_sort(sig, sort, first);
    note_clash(at, own, wanted, first);
}

/// Notes that a sort is not declared. Returns the number of a declared sort.
fn noted_sort(sig: &Signature, sort: &Sort, first: &mut Option<PatternFault>) -> Option<SortId>
    requires { IsNumbered sig.now }
    ensures sort { option_map sort_no result ≡ the_number sig.now.sorts (plain_sort sort.now) }
    ensures first { kept_fault first.new
        ≡ after first.old (sort_faults sig.now (plain_sort sort.now)) }
{
    note_sort(sig, sort, first)
}
