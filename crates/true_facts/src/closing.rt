// The quantifiers in front of a pattern.
ghost use Rattle.std.specs.Prelude.{◌≡◌, ◌≤◌, ◌<◌, ◌^◌, length, MatchOption};
ghost use Rattle.ml_pat.specs.Patterns.{Pattern};
ghost use Rattle.term_core.specs.RulePatterns.{sort_numbers};
ghost use Rattle.true_facts.specs.Closing.{unquantified, IsUnder, IsClosed};

use crate::shapes::as_all;
use crate::tokens::is_sort;
use ml_pat::{MPat, Names};
use rule_core::Signature;
use term_core::SortId;

// The pattern without the universal quantifiers in front of it.
pub(crate) fn unquantified(pattern: &MPat) -> &MPat
    ensures { result.now ≡ unquantified pattern.now }
{
    let mut body = pattern;
    while let Some((_, _, inner)) = as_all(body) {
        body = inner;
    }
    body
}

// What the pattern states of all variables of these sorts, numbered from `first`.
pub(crate) fn closed_over<'p>(
    sig: &Signature,
    names: &Names,
    pattern: &'p MPat,
    first: usize,
    sorts: &[SortId],
) -> Option<&'p MPat>
    requires sorts { length sig.now.sorts ≤ 2 ^ 32 }
    requires first { first < 2 ^ 63 }
    ensures { MatchOption result
        ((q : Pattern) → IsClosed sig.now names.now first (sort_numbers sorts.now) pattern.now q
        → ⊥)
        (λ q. IsClosed sig.now names.now first (sort_numbers sorts.now) pattern.now q.now) }
{
    let mut body = pattern;
    for i in 0..sorts.len() {
        let Some(inner) = under(sig, names, body, first + i, sorts[i]) else {
            return None;
        };
        body = inner;
    }
    Some(body)
}

// What the pattern states of each variable with this number and of this sort.
fn under<'p>(
    sig: &Signature,
    names: &Names,
    pattern: &'p MPat,
    number: usize,
    sort: SortId,
) -> Option<&'p MPat>
    requires { length sig.now.sorts ≤ 2 ^ 32 }
    ensures { MatchOption result
        ((q : Pattern) → IsUnder sig.now names.now number sort.0 pattern.now q → ⊥)
        (λ q. IsUnder sig.now names.now number sort.0 pattern.now q.now) }
{
    let Some((x, of, body)) = as_all(pattern) else {
        return None;
    };
    if x.0 as usize == number && is_sort(sig, names, of, sort) {
        Some(body)
    } else {
        None
    }
}
