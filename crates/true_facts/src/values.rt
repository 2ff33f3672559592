// The values that tokens stand for.
ghost use Rattle.std.specs.Prelude.{◌≡◌, ◌≢◌, ◌≤◌, ◌<◌, ◌^◌, ◌∷◌, ◌++◌, ℕ, ℤ, List, length, IfOk};
ghost use Rattle.std.specs.Prelude.{IsTrue, ◌↔◌, option_map, MatchOption, slice_get, Some};
ghost use Rattle.std.specs.Fmt.{signed_decimal};
ghost use Rattle.std.specs.Str.{is_utf8};
ghost use Rattle.term_core.specs.Terms.{DomainValue, truth, text as words_value};
ghost use Rattle.term_core.specs.Values.{value_of};
ghost use Rattle.term_core.specs.ValueTexts.{value_text};
ghost use Rattle.term_core.specs.HookValues.{is_in_range};
ghost use Rattle.rule_core.specs.Sorting.{IsValueOf};
ghost use Rattle.ml_image.specs.Tokens.{hexadecimal};
ghost use Rattle.true_facts.specs.Only.{IsOnly};
ghost use Rattle.true_facts.specs.Tokens.{IsValueToken};
ghost use Rattle.true_facts.specs.Values.{typed_found, value_found, IsValueAt, IsKindAt};
ghost use Rattle.true_facts.specs.Values.{HasValueText};
ghost use Rattle.rule_core.specs.declared.signature.SortKind.TheVariants as kind;
ghost use Rattle.true_facts.specs.Digits.{HasNoColon};

use crate::hexadecimal::bytes_of;
use crate::shapes::as_constant;
use crate::tokens::named;
use itoa::Buffer;
use ml_pat::{ConstNo, MPat, Names};
use rule_core::{Signature, SortKind};
use std::alloc::{AllocError, Global};
use std::rc::RcStr;
use term_core::{SortId, Value};

// A value of a sort.
#[derive(Drop)]
pub(crate) struct Typed {
    pub(crate) sort: SortId,
    pub(crate) value: Value,
}

/// Whether the token is that of a value of a sort. It takes time in its length. An error: out of
/// memory.
pub fn is_value_token(alloc: Global, sig: &Signature, token: &str) -> Result<bool, AllocError>
    requires { length sig.now.sorts ≤ 2 ^ 32 }
    ensures { IfOk result (λ b. IsTrue b ↔ IsValueToken sig.now token.now) }
{
    let mut names = Names::new(alloc);
    let number = ConstNo(names.number(token)?);
    let pattern = MPat::constant(alloc, number)?;
    Ok(value_at(alloc, sig, &names, &pattern)?.is_some())
}

// The value whose image is the pattern, and its sort.
pub(crate) fn value_at(
    alloc: Global,
    sig: &Signature,
    names: &Names,
    pattern: &MPat,
) -> Result<Option<Typed>, AllocError>
    requires { length sig.now.sorts ≤ 2 ^ 32 }
    ensures { IfOk result (λ r. IsOnly (IsValueAt sig.now names.now pattern.now) (typed_found r)) }
{
    names.tokens_differ();
    sig.sorts.names_differ();
    let Some(number) = as_constant(pattern) else {
        return Ok(None);
    };
    let Some(rest) = named(names, number.0, "d:") else {
        return Ok(None);
    };
    let Some((name, digits)) = at_last_colon(rest) else {
        return Ok(None);
    };
    let Some(place) = sig.sorts.number(name) else {
        return Ok(None);
    };
    let Some(value) = value_spelled(alloc, kind_at(sig, place), digits)? else {
        return Ok(None);
    };
    Ok(Some(Typed {
        sort: SortId(place as u32),
        value,
    }))
}

// The parts of a text before and after its last colon.
fn at_last_colon(text: &str) -> Option<(&str, &str)>
    ensures { MatchOption result ((x y : List ℕ) → text.now ≢ x ++ 58 ∷ y)
        (λ r. (text.now ≡ r.0.now ++ 58 ∷ r.1.now) × HasNoColon r.1.now) }
{
    text.rsplit_once(':')
}

// What the values of a sort are.
fn kind_at(sig: &Signature, place: usize) -> SortKind
    requires { place < length sig.now.sorts }
    ensures { IsKindAt sig.now place result }
{
    let Some(info) = sig.sorts.value(place) else {
        unreachable!()
    };
    info.kind
}

// The value of a sort of this kind whose text has these hexadecimal digits.
fn value_spelled(alloc: Global, kind: SortKind, digits: &str) -> Result<Option<Value>, AllocError>
    ensures { IfOk result
        (λ r. IsOnly (λ v. IsValueOf kind v × (digits.now ≡ hexadecimal (value_text v)))
        (value_found r)) }
{
    let Some(bytes) = bytes_of(alloc, digits.as_bytes())? else {
        return Ok(None);
    };
    match std::str::from_utf8(&bytes) {
        Ok(text) => value_in(alloc, kind, text),
        Err(_) => Ok(None),
    }
}

// The value of a sort of this kind whose text this is.
fn value_in(alloc: Global, kind: SortKind, text: &str) -> Result<Option<Value>, AllocError>
    ensures { IfOk result
        (λ r. IsOnly (HasValueText kind text.now) (value_found r)) }
{
    match kind {
        SortKind::Int => Ok(integer_in(text)),
        SortKind::Bool => Ok(truth_in(text)),
        SortKind::Map | SortKind::Other => Ok(Some(words(alloc, text)?)),
    }
}

// The integer whose canonical text this is, as a value.
fn integer_in(text: &str) -> Option<Value>
    ensures { IsOnly (HasValueText kind.Int text.now) (value_found result) }
{
    match integer_of(text) {
        Some(number) => Some(Value::Int(number)),
        None => None,
    }
}

// The truth value whose name this is, as a value.
fn truth_in(text: &str) -> Option<Value>
    ensures { IsOnly (HasValueText kind.Bool text.now) (value_found result) }
{
    match truth_of(text) {
        Some(truth) => Some(Value::Bool(truth)),
        None => None,
    }
}

// The integer whose canonical text this is.
fn integer_of(text: &str) -> Option<i128>
    ensures { IsOnly (λ (z : ℤ). IsTrue (is_in_range z) × (signed_decimal z ≡ text.now)) result }
{
    let Ok(number) = text.parse::<i128>() else {
        return None;
    };
    if Buffer::new().format(number) == text {
        Some(number)
    } else {
        None
    }
}

// The truth value whose name this is.
fn truth_of(text: &str) -> Option<bool>
    ensures { IsOnly (λ b. value_text (truth b) ≡ text.now) result }
{
    match text {
        "true" => Some(true),
        "false" => Some(false),
        _ => None,
    }
}

// The text as a value.
fn words(alloc: Global, text: &str) -> Result<Value, AllocError>
    ensures { IfOk result (λ v. (value_of v ≡ words_value text.now) × IsTrue (is_utf8 text.now)) }
{
    Ok(Value::Text(RcStr::from_str(alloc, text)?))
}
