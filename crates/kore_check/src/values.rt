// The values that texts of domain values stand for.
ghost use Rattle.std.specs.Prelude.{◌≡◌, ◌++◌, IfOk, Some, option_map, is_some};
ghost use Rattle.std.specs.Option.{option_and_then};
ghost use Rattle.term_core.specs.Values.{value_of};
ghost use Rattle.kore_ast.specs.Plain.{plain_sort};
ghost use Rattle.kore_sig.specs.SortReferences.{sort_number};
ghost use Rattle.kore_check.specs.ValueTexts.{integer_of_text, truth_of_text, value_of_words};
ghost use Rattle.kore_check.specs.ValueTexts.{value_of_text};
ghost use Rattle.kore_check.specs.PatternSorts.{sort_kind};
ghost use Rattle.kore_check.specs.PatternFaults.{sort_faults, text_faults};
ghost use Rattle.kore_check.specs.Notes.{kept_fault, after, sort_no};
ghost use Rattle.kore_sig.specs.Numbered.{IsNumbered};

use crate::notes::note;
use crate::sorts::check_sort;
use crate::{FaultKind, PatternFault};
use kore_ast::{Sort, Text};
use rule_core::{Signature, SortKind};
use std::alloc::{AllocError, Global};
use std::rc::RcStr;
use term_core::{SortId, Value};

// The integer that a text stands for.
pub(crate) fn integer_of(text: &Text) -> Option<i128>
    ensures { result ≡ integer_of_text text.now }
{
    text.as_str().parse::<i128>().ok()
}

// The truth value that a text stands for.
pub(crate) fn truth_of(text: &Text) -> Option<bool>
    ensures { result ≡ truth_of_text text.now }
{
    match text.as_str() {
        "true" => Some(true),
        "false" => Some(false),
        _ => None,
    }
}

// Whether a text stands for a value of a sort of this kind.
pub(crate) fn is_value(kind: SortKind, text: &Text) -> bool
    ensures { result ≡ is_some (value_of_text kind text.now) }
{
    match kind {
        SortKind::Int => integer_of(text).is_some(),
        SortKind::Bool => truth_of(text).is_some(),
        SortKind::Map | SortKind::Other => is_utf8(text),
    }
}

// Whether a text is valid UTF-8. Every `Text` is.
fn is_utf8(text: &Text) -> bool
    ensures { result ≡ is_some (value_of_words text.now) }
{
    let _words = text.as_str();
    true
}

// The value that a text stands for in a sort of this kind.
pub(crate) fn value_in(
    alloc: Global,
    kind: SortKind,
    text: &Text,
) -> Result<Option<Value>, AllocError>
    ensures { IfOk result (λ value. option_map value_of value ≡ value_of_text kind text.now) }
{
    match kind {
        SortKind::Int => Ok(integer_of(text).map(Value::Int)),
        SortKind::Bool => Ok(truth_of(text).map(Value::Bool)),
        SortKind::Map | SortKind::Other => Ok(Some(words(alloc, text)?)),
    }
}

// The text as a value.
fn words(alloc: Global, text: &Text) -> Result<Value, AllocError>
    ensures { IfOk result (λ value. Some (value_of value) ≡ value_of_words text.now) }
{
    Ok(Value::Text(RcStr::from_str(alloc, text.as_str())?))
}

// The kind of a declared sort.
pub(crate) fn kind_of(sig: &Signature, sort: SortId) -> Option<SortKind>
    ensures { result ≡ sort_kind sig.now sort.0 }
{
    let sort = sig.sorts.value(sort.0 as usize)?;
    Some(sort.kind)
}

// Returns the sort of a domain value. It notes a sort that is not declared, and at `at` a text that
// is not a value of the sort.
pub(crate) fn check_value(
    sig: &Signature,
    sort: &Sort,
    text: &Text,
    at: u32,
    first: &mut Option<PatternFault>,
) -> Option<SortId>
    requires { IsNumbered sig.now }
    ensures sort { option_map sort_no result ≡ sort_number sig.now.sorts (plain_sort sort.now) }
    ensures first { kept_fault first.new ≡ after first.old
        (sort_faults sig.now (plain_sort sort.now)
        ++ text_faults
        (option_and_then (sort_kind sig.now) (sort_number sig.now.sorts (plain_sort sort.now)))
        text.now
        at) }
{
    let found = check_sort(sig, sort, first)?;
    if let Some(kind) = kind_of(sig, found)
        && !is_value(kind, text)
    {
        note(first, FaultKind::BadValue, at);
    }
    Some(found)
}
