// Whether patterns of rules are the same.
ghost use Rattle.std.specs.Prelude.{◌≡◌, ◌↔◌, IsTrue, option_map, option_copied};
ghost use Rattle.term_core.specs.RulePatterns.{plain_pattern, sort_numbers};
ghost use Rattle.term_core.specs.PatternLists.{plain_patterns};
ghost use Rattle.rule_core.specs.ProgramView.{name_of, names_of};

use rule_core::Named;
use term_core::{RulePat, SortId};

/// Whether both are the same pattern. The recursion is as deep as the lower of them.
#[cycle(same)]
pub(crate) fn same_pattern(pat: &RulePat, other: &RulePat) -> bool
    ensures { IsTrue result ↔ (plain_pattern pat.now ≡ plain_pattern other.now) }
{
    match (pat, other) {
        (RulePat::Var(x), RulePat::Var(y)) => x == y,
        (RulePat::Value(sort, value), RulePat::Value(to, against)) => {
            sort == to && value.same(against)
        }
        (RulePat::Ctor(symbol, args), RulePat::Ctor(to, against)) => {
            symbol == to && same_patterns(args, against)
        }
        (RulePat::Inj(from, to, below), RulePat::Inj(source, target, against)) => {
            from == source && to == target && same_pattern(below, against)
        }
        (RulePat::Call(symbol, sorts, args), RulePat::Call(to, of, against)) => {
            symbol == to && same_sorts(sorts, of) && same_patterns(args, against)
        }
        _ => false,
    }
}

/// The same for lists of patterns.
#[cycle(same)]
pub(crate) fn same_patterns(pats: &[RulePat], others: &[RulePat]) -> bool
    ensures { IsTrue result ↔ (plain_patterns pats.now ≡ plain_patterns others.now) }
{
    if pats.len() != others.len() {
        return false;
    }
    for i in 0..pats.len() {
        if !same_pattern(&pats[i], &others[i]) {
            return false;
        }
    }
    true
}

/// Whether both or none are there, and are the same.
pub(crate) fn same_option(pat: Option<&RulePat>, other: Option<&RulePat>) -> bool
    ensures { IsTrue result ↔ (option_map plain_pattern (option_copied pat.entry)
        ≡ option_map plain_pattern (option_copied other.entry)) }
{
    match (pat, other) {
        (Some(pat), Some(other)) => same_pattern(pat, other),
        (None, None) => true,
        _ => false,
    }
}

/// Whether the sorts are the same, in order.
fn same_sorts(sorts: &[SortId], others: &[SortId]) -> bool
    ensures { IsTrue result ↔ (sort_numbers sorts.now ≡ sort_numbers others.now) }
{
    if sorts.len() != others.len() {
        return false;
    }
    for i in 0..sorts.len() {
        if sorts[i] != others[i] {
            return false;
        }
    }
    true
}

/// Whether the names are the same, in order.
pub(crate) fn same_named(named: &[Named], others: &[Named]) -> bool
    ensures { IsTrue result ↔ (names_of named.now ≡ names_of others.now) }
{
    if named.len() != others.len() {
        return false;
    }
    for i in 0..named.len() {
        if !is_same_name(&named[i], &others[i]) {
            return false;
        }
    }
    true
}

fn is_same_name(named: &Named, other: &Named) -> bool
    ensures { IsTrue result ↔ (name_of named.now ≡ name_of other.now) }
{
    named.var == other.var && named.first == other.first && named.at == other.at
}
