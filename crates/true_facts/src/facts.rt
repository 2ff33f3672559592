// Whether a pattern is the image of a true fact.
ghost use Rattle.std.specs.Prelude.{◌≡◌, ◌↔◌, ◌≤◌, ◌^◌, ℕ, IfOk, IsTrue, length};
ghost use Rattle.term_core.specs.Terms.{DomainValue};
ghost use Rattle.ml_image.specs.Sentences.{IsImageOf};
ghost use Rattle.ml_image.specs.TrueFacts.{IsTrueFact, SaysValue};

use crate::hook_facts::is_hook_fact;
use crate::injections::is_injective_fact;
use crate::shapes::as_fun;
use crate::tokens::is_sort;
use crate::unequal::is_unequal_fact;
use crate::values::value_at;
use ml_pat::{MPat, Names};
use rule_core::Signature;
use std::alloc::{AllocError, Global};

/// Whether the pattern is the image of a true fact: that a value is one element of its sort, that a
/// function with a hook has the value that the hook computes, that two patterns without a common
/// instance are not equal, or that an injection is injective. The names say what the numbers in the
/// pattern stand for. The signature has at most 2^32 sorts, as many as a `SortId` can number. An
/// error: out of memory. It costs at most a few times the size of the pattern and of the tokens in
/// it, with a look-up for each token.
pub fn is_true_fact(
    alloc: Global,
    sig: &Signature,
    names: &Names,
    pattern: &MPat,
) -> Result<bool, AllocError>
    requires { length sig.now.sorts ≤ 2 ^ 32 }
    ensures { IfOk result
        (λ yes. IsTrue yes ↔ IsImageOf sig.now names.now (IsTrueFact sig.now) pattern.now) }
{
    if is_value_fact(alloc, sig, names, pattern)? {
        return Ok(true);
    }
    if is_hook_fact(alloc, sig, names, pattern)? {
        return Ok(true);
    }
    if is_unequal_fact(alloc, sig, names, pattern)? {
        return Ok(true);
    }
    is_injective_fact(alloc, sig, names, pattern)
}

// Whether the pattern states that a value is one element of its sort.
fn is_value_fact(
    alloc: Global,
    sig: &Signature,
    names: &Names,
    pattern: &MPat,
) -> Result<bool, AllocError>
    requires { length sig.now.sorts ≤ 2 ^ 32 }
    ensures { IfOk result (λ yes. IsTrue yes
        ↔ ((s : ℕ) × (v : DomainValue)
        × IsImageOf sig.now names.now (SaysValue sig.now s v) pattern.now)) }
{
    let Some((of, sort)) = as_fun(pattern) else {
        return Ok(false);
    };
    let Some(typed) = value_at(alloc, sig, names, of)? else {
        return Ok(false);
    };
    Ok(is_sort(sig, names, sort, typed.sort))
}
