// The fact that two patterns without a common instance are not equal.
ghost use Rattle.std.specs.Prelude.{◌↔◌, ◌≤◌, ◌^◌, ◌++◌, length, IfOk, IsTrue};
ghost use Rattle.ml_pat.specs.Patterns.{Pattern, not};
ghost use Rattle.term_core.specs.Patterns.{Pattern as RulePattern};
ghost use Rattle.term_core.specs.RulePatterns.{sort_numbers};
ghost use Rattle.ml_image.specs.Sentences.{IsImageOf};
ghost use Rattle.ml_image.specs.TrueFacts.{SaysUnequal};
ghost use Rattle.true_facts.specs.Closing.{IsClosed};
ghost use Rattle.true_facts.specs.Sides.{AreApartSides, sorted_side};

use crate::closing::{closed_over, unquantified};
use crate::shapes::{as_equal, as_not};
use crate::sides::{SortedSide, differ, side_at};
use ml_pat::{MPat, Names};
use rule_core::Signature;
use std::alloc::{AllocError, Global};
use term_core::SortId;

// Whether the pattern states that two patterns without a common instance are not equal.
pub(crate) fn is_unequal_fact(
    alloc: Global,
    sig: &Signature,
    names: &Names,
    pattern: &MPat,
) -> Result<bool, AllocError>
    requires { length sig.now.sorts ≤ 2 ^ 32 }
    ensures { IfOk result (λ yes. IsTrue yes ↔ ((p : RulePattern) × (q : RulePattern)
        × IsImageOf sig.now names.now (SaysUnequal sig.now p q) pattern.now)) }
{
    let Some(denied) = as_not(unquantified(pattern)) else {
        return Ok(false);
    };
    let Some((left, right)) = as_equal(denied) else {
        return Ok(false);
    };
    let Some(one) = side_at(alloc, sig, names, left, 0)? else {
        return Ok(false);
    };
    let sorts = one.side.sorts(alloc)?;
    let Some(other) = side_at(alloc, sig, names, right, sorts.len())? else {
        return Ok(false);
    };
    let others = other.side.sorts(alloc)?;
    if !are_apart(sig, &one, &other) {
        return Ok(false);
    }
    Ok(is_closed(sig, names, pattern, &sorts, &others))
}

// Whether the sides have the same sort and no common instance.
fn are_apart(sig: &Signature, one: &SortedSide, other: &SortedSide) -> bool
    ensures { IsTrue result ↔ AreApartSides sig.now (sorted_side one.now) (sorted_side other.now) }
{
    one.sort == other.sort
        && (differ(sig, &one.side, &other.side) || differ(sig, &other.side, &one.side))
}

// Whether the pattern is a negation under quantifiers over variables of the first sorts, and then
// of the others.
fn is_closed(
    sig: &Signature,
    names: &Names,
    pattern: &MPat,
    first: &[SortId],
    others: &[SortId],
) -> bool
    requires { length sig.now.sorts ≤ 2 ^ 32 }
    ensures { IsTrue result ↔ ((p : Pattern) × IsClosed sig.now names.now 0
        (sort_numbers first.now ++ sort_numbers others.now) pattern.now (not p)) }
{
    let Some(inner) = closed_over(sig, names, pattern, 0, first) else {
        return false;
    };
    let Some(body) = closed_over(sig, names, inner, first.len(), others) else {
        return false;
    };
    as_not(body).is_some()
}
