// The parts of a rewrite rule, and the faults of its form.
ghost use Rattle.std.specs.Prelude.{◌≡◌, ℕ, map, option_map};
ghost use Rattle.kore_ast.specs.Plain.{plain_sort, pattern_tree, plain_axiom_decl};
ghost use Rattle.kore_sig.specs.Noted.{first_by_number};
ghost use Rattle.kore_shapes.specs.Forms.{has_form as has_one};
ghost use Rattle.kore_shapes.specs.SoughtForms.{sought as sought_forms};
ghost use Rattle.kore_shapes.specs.Views.{pattern_at, plain_side, plain_condition, plain_rewriting};
ghost use Rattle.kore_axioms.specs.Conditions.{is_bool as is_a_bool, over_bool as the_over_bool};
ghost use Rattle.kore_axioms.specs.Conditions.{tested_pattern as the_tested, is_ill as is_an_ill};
ghost use Rattle.kore_axioms.specs.RuleParts.{rule_parts as the_parts, left_of, right_of};
ghost use Rattle.kore_axioms.specs.LeftNames.{is_badly_named as is_badly_named_one};
ghost use Rattle.kore_axioms.specs.RuleForms.{holds_of, is_misshapen as is_a_misshapen};
ghost use Rattle.kore_axioms.specs.RuleForms.{is_without as is_one_without};
ghost use Rattle.kore_axioms.specs.RuleForms.{has_bad_form as has_a_bad_form, form_faults};
ghost use Rattle.kore_axioms.specs.Views.{plain_rule_parts, fault_at};

use crate::faults::{AxiomFault, first_of_tests};
use crate::left_names::has_bad_and;
use crate::priorities::has_bad_priority;
use kore_ast::{AxiomDecl, Pat, Sort};
use kore_shapes::{
    Companion, Condition, Rewriting, Side, SoughtForms, given_condition, has_binder, has_form,
    side_at,
};
use kore_sig::sort_number;
use rule_core::{Signature, SortKind};

/// Both sides of a rewrite rule, and the condition next to the left one.
#[derive(Clone, Copy)]
pub struct RuleParts<'a> {
    /// The left side.
    pub before: Side<'a>,
    /// The right side.
    pub after: Side<'a>,
    /// The condition.
    pub condition: Condition<'a>,
}

/// The parts of a rewrite rule. The condition is ill if the pattern that it tests is not of a
/// declared sort of truth values.
pub fn rule_parts<'a>(sig: &Signature, rewriting: Rewriting<'a>) -> RuleParts<'a>
    ensures { plain_rule_parts result ≡ the_parts sig.now (plain_rewriting rewriting.entry) }
{
    let before = side_at(rewriting.before, rewriting.sort, Companion::Condition);
    let after = side_at(rewriting.after, rewriting.sort, Companion::Top);
    let given = given_condition(before.companion(), rewriting.sort);
    RuleParts {
        before,
        after,
        condition: over_bool(sig, given),
    }
}

/// The condition. It is ill if the pattern that it tests is not of a declared sort of truth values.
pub fn over_bool<'a>(sig: &Signature, condition: Condition<'a>) -> Condition<'a>
    ensures { plain_condition result ≡ the_over_bool sig.now (plain_condition condition.entry) }
{
    match condition {
        Condition::Tests(sort, _) if !is_bool(sig, sort) => Condition::Malformed,
        _ => condition,
    }
}

/// Whether the sort is a declared sort of truth values.
fn is_bool(sig: &Signature, sort: &Sort) -> bool
    ensures { result ≡ is_a_bool sig.now (plain_sort sort.now) }
{
    let Some(number) = sort_number(&sig.sorts, sort) else {
        return false;
    };
    sig.sorts
        .value(number)
        .is_some_and(|info| info.kind == SortKind::Bool)
}

/// The pattern that a condition tests. Returns none if it tests none.
pub fn tested(condition: Condition<'_>) -> Option<&Pat>
    ensures { option_map pattern_at result ≡ the_tested (plain_condition condition.entry) }
{
    match condition {
        Condition::Tests(_, pat) => Some(pat),
        Condition::Always | Condition::Malformed => None,
    }
}

/// Whether a condition has none of the forms of a condition.
pub fn is_ill(condition: Condition<'_>) -> bool
    ensures { result ≡ is_an_ill (plain_condition condition.entry) }
{
    matches!(condition, Condition::Malformed)
}

/// The first fault of the form of a rewrite rule, by number. Returns none if the form has no fault.
pub(crate) fn form_fault(decl: &AxiomDecl, parts: RuleParts<'_>) -> Option<AxiomFault>
    ensures { option_map (fault_at decl.now.at) result
        ≡ first_by_number (form_faults (plain_axiom_decl decl.now) (plain_rule_parts parts.entry)) }
{
    let ill = is_without(parts.before) || is_ill(parts.condition);
    first_of_tests(&[
        (has_bad_form(parts), AxiomFault::Form),
        (has_binder(&decl.pat), AxiomFault::Binder),
        (is_without(parts.after), AxiomFault::Ensures),
        (ill, AxiomFault::Condition),
        (is_badly_named(parts.before.main()), AxiomFault::AsPattern),
        (has_bad_priority(&decl.attrs), AxiomFault::BadPriority),
    ])
}

/// Whether a side is an `\and` of another sort or of another number of patterns, or a side or the
/// tested pattern contains a form that no rule has.
fn has_bad_form(parts: RuleParts<'_>) -> bool
    ensures { result ≡ has_a_bad_form (plain_rule_parts parts.entry) }
{
    is_misshapen(parts.before)
        || is_misshapen(parts.after)
        || occurs_in(parts.before.main(), SoughtForms::Others)
        || occurs_in(tested(parts.condition), SoughtForms::All)
        || occurs_in(parts.after.main(), SoughtForms::All)
}

/// Whether there is a pattern and one of these forms occurs in it.
fn occurs_in(pat: Option<&Pat>, sought: SoughtForms) -> bool
    ensures { result ≡ holds_of (has_one (sought_forms sought)) (option_map pattern_at pat.entry) }
{
    pat.is_some_and(|pat| has_form(pat, sought))
}

/// Whether there is a left side and an `\and` in it gives no name, or one that stands elsewhere in it.
fn is_badly_named(pat: Option<&Pat>) -> bool
    ensures { result ≡ holds_of is_badly_named_one (option_map pattern_at pat.entry) }
{
    pat.is_some_and(|pat| has_bad_and(pat, &[pat]))
}

fn is_misshapen(side: Side<'_>) -> bool
    ensures { result ≡ is_a_misshapen (plain_side side.entry) }
{
    matches!(side, Side::Misshapen)
}

fn is_without(side: Side<'_>) -> bool
    ensures { result ≡ is_one_without (plain_side side.entry) }
{
    matches!(side, Side::NoCompanion)
}
