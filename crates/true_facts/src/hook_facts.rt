// The fact that a function with a hook has the value that the hook computes.
ghost use Rattle.std.specs.Prelude.{◌≡◌, ◌↔◌, ◌≤◌, ◌^◌, [], ◌∷◌, ℕ, List, length, map, IfOk};
ghost use Rattle.std.specs.Prelude.{IsTrue};
ghost use Rattle.std.specs.Prelude.{Some, Ok, ◌≢◌, MatchOption};
ghost use Rattle.term_core.specs.declared.values.Scalar.{Scalar};
ghost use Rattle.term_core.specs.Terms.{DomainValue};
ghost use Rattle.term_core.specs.RulePatterns.{sort_numbers};
ghost use Rattle.term_core.specs.Values.{scalar_value, value_of};
ghost use Rattle.term_core.specs.HookValues.{hook_value};
ghost use Rattle.ml_image.specs.OwnAxioms.{sort_numbered};
ghost use Rattle.ml_image.specs.Sentences.{IsImageOf};
ghost use Rattle.ml_image.specs.TrueFacts.{SaysHook};
ghost use Rattle.true_facts.specs.Only.{IsOnly};
ghost use Rattle.true_facts.specs.Hooks.{number_found, IsNumberAt, IsComputed};
ghost use Rattle.true_facts.specs.Hooks.{IsHooked, hook_found};

use crate::shapes::{as_app, as_constant, as_equal};
use crate::tokens::symbol_of;
use crate::values::value_at;
use hook_table::{apply, fits};
use ml_pat::{MPat, Names};
use rule_core::{Signature, SortRef, SymKind};
use std::alloc::{AllocError, Global};
use term_core::{HookNo, Scalar, SortId, Value};

// A whole number or a truth value of a sort.
#[derive(Clone, Copy)]
pub(crate) struct Sorted {
    pub(crate) sort: SortId,
    pub(crate) scalar: Scalar,
}

// Whether the pattern states that a function with a hook, applied to values, equals the value that
// the hook computes. A hook has one argument or two.
pub(crate) fn is_hook_fact(
    alloc: Global,
    sig: &Signature,
    names: &Names,
    pattern: &MPat,
) -> Result<bool, AllocError>
    requires { length sig.now.sorts ≤ 2 ^ 32 }
    ensures { IfOk result (λ yes. IsTrue yes
        ↔ ((f : ℕ) × (vs : List DomainValue)
        × IsImageOf sig.now names.now (SaysHook sig.now f vs) pattern.now)) }
{
    let Some((call, made)) = as_equal(pattern) else {
        return Ok(false);
    };
    let Some(value) = number_at(alloc, sig, names, made)? else {
        return Ok(false);
    };
    let Some((rest, arg)) = as_app(call) else {
        return Ok(false);
    };
    let Some(last) = number_at(alloc, sig, names, arg)? else {
        return Ok(false);
    };
    let Some((head, arg)) = as_app(rest) else {
        return Ok(computes_one(sig, names, rest, last, value));
    };
    let Some(first) = number_at(alloc, sig, names, arg)? else {
        return Ok(false);
    };
    Ok(computes_two(sig, names, head, first, last, value))
}

// The whole number or truth value whose image is the pattern, and its sort.
fn number_at(
    alloc: Global,
    sig: &Signature,
    names: &Names,
    pattern: &MPat,
) -> Result<Option<Sorted>, AllocError>
    requires { length sig.now.sorts ≤ 2 ^ 32 }
    ensures { IfOk result
        (λ r. IsOnly (IsNumberAt sig.now names.now pattern.now) (number_found r)) }
{
    let Some(typed) = value_at(alloc, sig, names, pattern)? else {
        return Ok(None);
    };
    match scalar_of(&typed.value) {
        Some(scalar) => Ok(Some(Sorted {
            sort: typed.sort,
            scalar,
        })),
        None => Ok(None),
    }
}

// The value, if it is a whole number or a truth value.
fn scalar_of(value: &Value) -> Option<Scalar>
    ensures { MatchOption result ((s : Scalar) → value_of value.now ≢ scalar_value s)
        (λ s. value_of value.now ≡ scalar_value s) }
{
    match value {
        Value::Int(n) => Some(Scalar::Int(*n)),
        Value::Bool(b) => Some(Scalar::Bool(*b)),
        Value::Text(_) => None,
    }
}

// Whether the pattern is the constant of a function with a hook that computes the value from the
// argument.
fn computes_one(sig: &Signature, names: &Names, head: &MPat, arg: Sorted, value: Sorted) -> bool
    ensures { IsTrue result
        ↔ IsComputed sig.now names.now head.now (arg.sort.0 ∷ []) (scalar_value arg.scalar ∷ [])
        value.sort.0 (scalar_value value.scalar) }
{
    match hook_at(sig, names, head, &[arg.sort], value.sort) {
        Some(hook) => answers(hook, &[arg.scalar], value.scalar),
        None => false,
    }
}

// The same from two arguments.
fn computes_two(
    sig: &Signature,
    names: &Names,
    head: &MPat,
    first: Sorted,
    second: Sorted,
    value: Sorted,
) -> bool
    ensures { IsTrue result
        ↔ IsComputed sig.now names.now head.now (first.sort.0 ∷ (second.sort.0 ∷ []))
        (scalar_value first.scalar ∷ (scalar_value second.scalar ∷ []))
        value.sort.0 (scalar_value value.scalar) }
{
    match hook_at(sig, names, head, &[first.sort, second.sort], value.sort) {
        Some(hook) => answers(hook, &[first.scalar, second.scalar], value.scalar),
        None => false,
    }
}

// The hook of the function from these sorts to this one whose constant is the pattern.
fn hook_at(
    sig: &Signature,
    names: &Names,
    head: &MPat,
    sorts: &[SortId],
    result_sort: SortId,
) -> Option<HookNo>
    ensures { IsOnly
        (IsHooked sig.now names.now head.now (sort_numbers sorts.now) result_sort.0)
        (hook_found result) }
{
    let Some(number) = as_constant(head) else {
        return None;
    };
    let Some(symbol) = symbol_of(sig, names, number) else {
        return None;
    };
    let Some(info) = sig.symbols.value(symbol) else {
        return None;
    };
    let SymKind::Hooked(hook) = info.kind else {
        return None;
    };
    if takes(&info.args, sorts) && refers_to(info.result, result_sort) {
        Some(hook)
    } else {
        None
    }
}

// Whether the references are to these sorts.
fn takes(refs: &[SortRef], sorts: &[SortId]) -> bool
    ensures { IsTrue result ↔ (refs.now ≡ map sort_numbered (sort_numbers sorts.now)) }
{
    if refs.len() != sorts.len() {
        return false;
    }
    for (of, sort) in refs.iter().zip(sorts) {
        if !refers_to(*of, *sort) {
            return false;
        }
    }
    true
}

// Whether the reference is to this sort.
fn refers_to(of: SortRef, sort: SortId) -> bool
    ensures { IsTrue result ↔ (of ≡ sort_numbered sort.0) }
{
    match of {
        SortRef::Sort(named) => named == sort,
        SortRef::Param(_) => false,
    }
}

// Whether the hook computes this value from the arguments.
fn answers<const N: usize>(hook: HookNo, args: &[Scalar; N], value: Scalar) -> bool
    ensures { IsTrue result
        ↔ (hook_value hook.0 (map scalar_value args.now) ≡ Some (Ok (scalar_value value))) }
{
    fits(hook, args) && apply(hook, args) == Ok(value)
}
