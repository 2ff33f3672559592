// The two sides of a fact about patterns that have no common instance.
ghost use Rattle.std.specs.Prelude.{◌≡◌, ◌↔◌, ◌≤◌, ◌<◌, ◌^◌, length, IfOk, IsTrue, MatchOption};
ghost use Rattle.term_core.specs.RulePatterns.{sort_numbers};
ghost use Rattle.ml_image.specs.Sides.{side_sorts, head_sorts, Differ};
ghost use Rattle.true_facts.specs.Only.{IsOnly};
ghost use Rattle.true_facts.specs.Sides.{IsHeadAt, head_found, IsSideAt, side_found, plain_side};
ghost use Rattle.true_facts.specs.Sides.{IsInjectedAt, IsPlainAt, plain_head};
ghost use Rattle.true_facts.specs.Sides.{AppliesInjection, AppliesNoInjection};

use crate::constructors::{Declared, Made, constructor_at, is_variable};
use crate::injections::{Injection, injection_at};
use crate::shapes::as_app;
use crate::values::value_at;
use ml_pat::{MPat, Names};
use rule_core::Signature;
use std::alloc::{AllocError, Global};
use term_core::{SortId, Value};

// A value, or a constructor with the sorts of its arguments.
#[derive(Drop)]
pub(crate) enum Head {
    Value(Value),
    Constructor(usize, Vec<SortId>),
}

// A head, or the injection from this sort of a variable or of a head.
#[derive(Drop)]
pub(crate) enum Side {
    Plain(Head),
    InjectedVariable(SortId),
    InjectedHead(SortId, Head),
}

// A head and its sort.
#[derive(Drop)]
pub(crate) struct SortedHead {
    pub(crate) sort: SortId,
    pub(crate) head: Head,
}

// A side and its sort.
#[derive(Drop)]
pub(crate) struct SortedSide {
    pub(crate) sort: SortId,
    pub(crate) side: Side,
}

// The side whose image, with the variables numbered from `first`, is the pattern.
pub(crate) fn side_at(
    alloc: Global,
    sig: &Signature,
    names: &Names,
    pattern: &MPat,
    first: usize,
) -> Result<Option<SortedSide>, AllocError>
    requires sorts { length sig.now.sorts ≤ 2 ^ 32 }
    requires first { first < 2 ^ 63 }
    ensures { IfOk result
        (λ r. IsOnly (IsSideAt sig.now names.now pattern.now first) (side_found r)) }
{
    match injected(sig, names, pattern) {
        Some((injection, arg)) => injected_at(alloc, sig, names, injection, arg, first),
        None => plain_at(alloc, sig, names, pattern, first),
    }
}

// The injection that the pattern applies, and to what it applies it.
fn injected<'p>(sig: &Signature, names: &Names, pattern: &'p MPat) -> Option<(Injection, &'p MPat)>
    requires { length sig.now.sorts ≤ 2 ^ 32 }
    ensures { MatchOption result (AppliesNoInjection sig.now names.now pattern.now)
        (λ r. AppliesInjection sig.now names.now pattern.now r.0.from.0 r.0.to.0 r.1.now) }
{
    let Some((head, arg)) = as_app(pattern) else {
        return None;
    };
    let Some(injection) = injection_at(sig, names, head) else {
        return None;
    };
    Some((injection, arg))
}

// The side that is the head whose image is the pattern.
fn plain_at(
    alloc: Global,
    sig: &Signature,
    names: &Names,
    pattern: &MPat,
    first: usize,
) -> Result<Option<SortedSide>, AllocError>
    requires sorts { length sig.now.sorts ≤ 2 ^ 32 }
    requires first { first < 2 ^ 63 }
    ensures { IfOk result
        (λ r. IsOnly (IsPlainAt sig.now names.now pattern.now first) (side_found r)) }
{
    let Some(plain) = head_at(alloc, sig, names, pattern, first)? else {
        return Ok(None);
    };
    Ok(Some(SortedSide {
        sort: plain.sort,
        side: Side::Plain(plain.head),
    }))
}

// The side that injects the pattern.
fn injected_at(
    alloc: Global,
    sig: &Signature,
    names: &Names,
    injection: Injection,
    pattern: &MPat,
    first: usize,
) -> Result<Option<SortedSide>, AllocError>
    requires sorts { length sig.now.sorts ≤ 2 ^ 32 }
    requires first { first < 2 ^ 63 }
    ensures { IfOk result
        (λ r. IsOnly
        (IsInjectedAt sig.now names.now pattern.now first injection.from.0 injection.to.0)
        (side_found r)) }
{
    if !sig.subsorts.below(injection.from, injection.to) {
        return Ok(None);
    }
    if is_variable(pattern, first) {
        let side = Side::InjectedVariable(injection.from);
        return Ok(Some(SortedSide {
            sort: injection.to,
            side,
        }));
    }
    let Some(below) = head_at(alloc, sig, names, pattern, first)? else {
        return Ok(None);
    };
    if below.sort != injection.from {
        return Ok(None);
    }
    let side = Side::InjectedHead(injection.from, below.head);
    Ok(Some(SortedSide {
        sort: injection.to,
        side,
    }))
}

// The head whose image, with the variables numbered from `first`, is the pattern.
fn head_at(
    alloc: Global,
    sig: &Signature,
    names: &Names,
    pattern: &MPat,
    first: usize,
) -> Result<Option<SortedHead>, AllocError>
    requires sorts { length sig.now.sorts ≤ 2 ^ 32 }
    requires first { first < 2 ^ 63 }
    ensures { IfOk result
        (λ r. IsOnly (IsHeadAt sig.now names.now pattern.now first) (head_found r)) }
{
    if let Some(typed) = value_at(alloc, sig, names, pattern)? {
        let head = Head::Value(typed.value);
        return Ok(Some(SortedHead {
            sort: typed.sort,
            head,
        }));
    }
    let Some(made) = constructor_at(alloc, sig, names, pattern, first)? else {
        return Ok(None);
    };
    let Made { symbol, declared } = made;
    let Declared { sort, args } = declared;
    let head = Head::Constructor(symbol, args);
    Ok(Some(SortedHead { sort, head }))
}

impl Side {
    // The sorts of the variables, in order.
    pub(crate) fn sorts(&self, alloc: Global) -> Result<Vec<SortId>, AllocError>
        ensures { IfOk result (λ v. sort_numbers v.items ≡ side_sorts (plain_side self.now)) }
    {
        match self {
            Side::Plain(head) | Side::InjectedHead(_, head) => head.sorts(alloc),
            Side::InjectedVariable(from) => Ok(vec![in alloc; *from]?),
        }
    }
}

impl Head {
    // The sorts of the arguments, in order.
    fn sorts(&self, alloc: Global) -> Result<Vec<SortId>, AllocError>
        ensures { IfOk result (λ v. sort_numbers v.items ≡ head_sorts (plain_head self.now)) }
    {
        match self {
            Head::Value(_) => Ok(Vec::new(alloc)),
            Head::Constructor(_, sorts) => sorts.to_vec(alloc),
        }
    }
}

// Whether no instance of the one side is an instance of the other, by the forms of the two in this
// order.
pub(crate) fn differ(sig: &Signature, one: &Side, other: &Side) -> bool
    ensures { IsTrue result ↔ Differ sig.now (plain_side one.now) (plain_side other.now) }
{
    match (one, other) {
        (Side::Plain(Head::Value(v)), Side::Plain(Head::Value(w))) => !v.same(w),
        (Side::Plain(Head::Value(_)), Side::Plain(Head::Constructor(..))) => true,
        (Side::Plain(_), Side::InjectedVariable(_)) => true,
        (Side::InjectedVariable(a), Side::InjectedHead(b, _)) => a != b
            && !sig.subsorts.below(*b, *a),
        _ => false,
    }
}
