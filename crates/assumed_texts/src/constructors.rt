// Whether a pattern is the image of an axiom about constructors.
ghost use Rattle.std.specs.Prelude.{◌≡◌, ◌≤◌, ◌<◌, ◌^◌, ◌↔◌, ℕ, IsTrue, length, IfOk, IfSome, Some};
ghost use Rattle.rule_core.specs.Sorting.{IsSymbol};
ghost use Rattle.rule_core.specs.WellSorted.{IsSignature};
ghost use Rattle.ml_image.specs.Gained.{HasGained};
ghost use Rattle.ml_image.specs.HasImages.{HasTotality, HasDifference, HasFreedom};
ghost use Rattle.assumed_texts.specs.AssumedTexts.{HasFewArguments};
ghost use Rattle.assumed_texts.specs.Deciding.{Decides};
ghost use Rattle.assumed_texts.specs.Kinds.{IsTotality, IsDifference, IsFreedom};
ghost use Rattle.assumed_texts.specs.Constructors.{HaveOneSort, IsCtor, Leads, symbol_number};

use crate::shapes::{first_constant, right_side};
use ml_image::{ctor_apart, ctor_free, ctor_total};
use ml_pat::{MPat, Names};
use rule_core::{Signature, SortRef, SymInfo, SymKind};
use std::alloc::{AllocError, Global};
use term_core::SymId;
use true_facts::symbol_of;

// Whether the pattern says that a constructor is total.
pub(crate) fn says_total(
    alloc: Global,
    sig: &Signature,
    names: &mut Names,
    pat: &MPat,
) -> Result<bool, AllocError>
    requires signature { IsSignature sig.now }
    requires symbols { length sig.now.symbols ≤ 2 ^ 32 }
    requires arguments { HasFewArguments sig.now }
    ensures answer { IfOk result (Decides sig.now names.old names.new (IsTotality sig.now) pat.now) }
    ensures names { HasGained sig.now names.old names.new }
{
    let Some(symbol) = constructor_in(sig, names, pat) else {
        return Ok(false);
    };
    let image = ctor_total(alloc, sig, names, symbol)?;
    Ok(image.same(pat))
}

// Whether the pattern says that two constructors have different results.
pub(crate) fn says_apart(
    alloc: Global,
    sig: &Signature,
    names: &mut Names,
    pat: &MPat,
) -> Result<bool, AllocError>
    requires signature { IsSignature sig.now }
    requires symbols { length sig.now.symbols ≤ 2 ^ 32 }
    requires arguments { HasFewArguments sig.now }
    ensures answer { IfOk result
        (Decides sig.now names.old names.new (IsDifference sig.now) pat.now) }
    ensures names { HasGained sig.now names.old names.new }
{
    let Some(first) = constructor_in(sig, names, pat) else {
        return Ok(false);
    };
    let Some(second) = constructor_in(sig, names, right_side(pat)) else {
        return Ok(false);
    };
    if !are_apart(sig, first, second) {
        return Ok(false);
    }
    let image = ctor_apart(alloc, sig, names, first, second)?;
    Ok(image.same(pat))
}

// Whether the pattern says that a constructor is free.
pub(crate) fn says_free(
    alloc: Global,
    sig: &Signature,
    names: &mut Names,
    pat: &MPat,
) -> Result<bool, AllocError>
    requires signature { IsSignature sig.now }
    requires symbols { length sig.now.symbols ≤ 2 ^ 32 }
    requires arguments { HasFewArguments sig.now }
    ensures answer { IfOk result (Decides sig.now names.old names.new (IsFreedom sig.now) pat.now) }
    ensures names { HasGained sig.now names.old names.new }
{
    let Some(symbol) = constructor_in(sig, names, pat) else {
        return Ok(false);
    };
    if !is_free(sig, symbol) {
        return Ok(false);
    }
    let image = ctor_free(alloc, sig, names, symbol)?;
    Ok(image.same(pat))
}

// The constructor that is applied first in the pattern.
fn constructor_in(sig: &Signature, names: &Names, pat: &MPat) -> Option<SymId>
    requires signature { IsSignature sig.now }
    requires symbols { length sig.now.symbols ≤ 2 ^ 32 }
    requires arguments { HasFewArguments sig.now }
    ensures total { IfSome result (λ f. HasTotality sig.now f.0) }
    ensures only { (f : ℕ) → Leads sig.now names.now f pat.now → IsCtor sig.now f
        → symbol_number result ≡ Some f }
{
    let number = first_constant(pat)?;
    let symbol = symbol_of(sig, names, number)?;
    let info = sig.symbols.value(symbol)?;
    if let SymKind::Ctor = info.kind {
        Some(SymId(symbol as u32))
    } else {
        None
    }
}

// Whether the constructor has an argument, and is not associative, commutative or idempotent, and
// has no unit.
fn is_free(sig: &Signature, symbol: SymId) -> bool
    requires { HasTotality sig.now symbol.0 }
    ensures { IsTrue result ↔ HasFreedom sig.now symbol.0 }
{
    let info = declaration(sig, symbol);
    !info.ac && !info.args.is_empty()
}

// Whether both constructors have one result sort, and neither of them is associative, commutative or
// idempotent, or has a unit.
fn are_apart(sig: &Signature, first: SymId, second: SymId) -> bool
    requires first { HasTotality sig.now first.0 }
    requires second { HasTotality sig.now second.0 }
    ensures { IsTrue result ↔ HasDifference sig.now first.0 second.0 }
{
    let one = declaration(sig, first);
    let other = declaration(sig, second);
    if first == second {
        return false;
    }
    if one.ac || other.ac {
        return false;
    }
    have_one_sort(one, other)
}

// Whether both results have the same sort, which is no sort parameter.
fn have_one_sort(one: &SymInfo, other: &SymInfo) -> bool
    ensures { IsTrue result ↔ HaveOneSort one.now other.now }
{
    match (one.result, other.result) {
        (SortRef::Sort(a), SortRef::Sort(b)) => a == b,
        _ => false,
    }
}

// The declaration of a symbol.
fn declaration(sig: &Signature, symbol: SymId) -> &SymInfo
    requires { HasTotality sig.now symbol.0 }
    ensures { IsSymbol sig.now symbol.0 result.now }
{
    match sig.symbols.value(symbol.0 as usize) {
        Some(info) => info,
        None => unreachable!(),
    }
}
