// Whether a pattern is the image of an axiom about constructors or sorts.
ghost use Rattle.std.specs.Prelude.{◌≤◌, ◌^◌, length, IfOk};
ghost use Rattle.rule_core.specs.WellSorted.{IsSignature};
ghost use Rattle.ml_image.specs.Gained.{HasGained};
ghost use Rattle.assumed_texts.specs.AssumedTexts.{HasFewArguments};
ghost use Rattle.assumed_texts.specs.Deciding.{Decides};
ghost use Rattle.assumed_texts.specs.Kinds.{IsDifference, IsEither, IsFreedom, IsOfConstructors};
ghost use Rattle.assumed_texts.specs.Kinds.{IsOfSorts, IsStructural};

use crate::constructors::{says_apart, says_free, says_total};
use crate::subsorts::{says_collapse, says_subsort};
use ml_pat::{MPat, Names};
use rule_core::Signature;
use std::alloc::{AllocError, Global};

// Whether the pattern is the image of an axiom about constructors or sorts.
pub(crate) fn says_structure(
    alloc: Global,
    sig: &Signature,
    names: &mut Names,
    pat: &MPat,
) -> Result<bool, AllocError>
    requires signature { IsSignature sig.now }
    requires sorts { length sig.now.sorts ≤ 2 ^ 32 }
    requires symbols { length sig.now.symbols ≤ 2 ^ 32 }
    requires arguments { HasFewArguments sig.now }
    ensures answer { IfOk result
        (Decides sig.now names.old names.new (IsStructural sig.now) pat.now) }
    ensures names { HasGained sig.now names.old names.new }
{
    if says_of_constructors(alloc, sig, names, pat)? {
        return Ok(true);
    }
    says_of_sorts(alloc, sig, names, pat)
}

// Whether it says something of constructors.
fn says_of_constructors(
    alloc: Global,
    sig: &Signature,
    names: &mut Names,
    pat: &MPat,
) -> Result<bool, AllocError>
    requires signature { IsSignature sig.now }
    requires symbols { length sig.now.symbols ≤ 2 ^ 32 }
    requires arguments { HasFewArguments sig.now }
    ensures answer { IfOk result
        (Decides sig.now names.old names.new (IsOfConstructors sig.now) pat.now) }
    ensures names { HasGained sig.now names.old names.new }
{
    if says_total(alloc, sig, names, pat)? {
        return Ok(true);
    }
    says_apart_or_free(alloc, sig, names, pat)
}

// Whether it says that constructors have different results, or that one is free.
fn says_apart_or_free(
    alloc: Global,
    sig: &Signature,
    names: &mut Names,
    pat: &MPat,
) -> Result<bool, AllocError>
    requires signature { IsSignature sig.now }
    requires symbols { length sig.now.symbols ≤ 2 ^ 32 }
    requires arguments { HasFewArguments sig.now }
    ensures answer { IfOk result
        (Decides sig.now names.old names.new
        (IsEither (IsDifference sig.now) (IsFreedom sig.now)) pat.now) }
    ensures names { HasGained sig.now names.old names.new }
{
    if says_apart(alloc, sig, names, pat)? {
        return Ok(true);
    }
    says_free(alloc, sig, names, pat)
}

// Whether it says something of sorts.
fn says_of_sorts(
    alloc: Global,
    sig: &Signature,
    names: &mut Names,
    pat: &MPat,
) -> Result<bool, AllocError>
    requires signature { IsSignature sig.now }
    requires sorts { length sig.now.sorts ≤ 2 ^ 32 }
    ensures answer { IfOk result (Decides sig.now names.old names.new (IsOfSorts sig.now) pat.now) }
    ensures names { HasGained sig.now names.old names.new }
{
    if says_subsort(alloc, sig, names, pat)? {
        return Ok(true);
    }
    says_collapse(alloc, sig, names, pat)
}
