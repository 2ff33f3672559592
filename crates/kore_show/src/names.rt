// The names of sorts and symbols, and the texts of values.
ghost use Rattle.std.specs.Prelude.{◌≡◌, ℕ, List, IsSome, IfOk, IfSome, IfNone, None, Some, map};
ghost use Rattle.std.specs.Prelude.{slice_get};
ghost use Rattle.kore_ast.specs.Plain.{plain_sort};
ghost use Rattle.term_core.specs.Values.{value_of};
ghost use Rattle.term_core.specs.RulePatterns.{sort_numbers};
ghost use Rattle.kore_show.specs.KorePatterns.{declared_name, injection_name, kore_sort};
ghost use Rattle.kore_show.specs.KorePatterns.{kore_sorts};
ghost use Rattle.term_core.specs.ValueTexts.{value_text};
ghost use Rattle.rule_core.specs.KindTests.{is_injection};
ghost use Rattle.rule_core.specs.declared.signature.SymInfo.{SymInfo};

use itoa::Buffer;
use kore_ast::{Sort, SortForm, Text};
use rule_core::{Signature, SymInfo, SymKind, Table};
use std::alloc::{AllocError, Global};
use term_core::{SortId, Value};

// The number of the injection symbol, if there is one. It looks at each symbol up to that one.
pub(crate) fn injection_symbol(symbols: &Table<SymInfo>) -> Option<usize>
    ensures found { IfSome result (λ n. declared_name symbols.now n ≡ injection_name symbols.now) }
    ensures none { IfNone result (injection_name symbols.now ≡ None) }
{
    for n in 0..symbols.len() {
        if injects(symbols, n) {
            return Some(n);
        }
    }
    None
}

// Whether the symbol with this number is an injection symbol.
fn injects(symbols: &Table<SymInfo>, n: usize) -> bool
    ensures { (name : List ℕ) (info : SymInfo) → slice_get symbols.now n ≡ Some (name, info)
        → result
        ≡ is_injection info.kind }
{
    symbols
        .value(n)
        .is_some_and(|info| matches!(info.kind, SymKind::Injection))
}

// The name with this number.
pub(crate) fn name_of<V: Drop>(
    alloc: Global,
    table: &Table<V>,
    n: usize,
) -> Result<Text, AllocError>
    requires { IsSome (declared_name table.now n) }
    ensures { IfOk result (λ name. declared_name table.now n ≡ Some name) }
{
    let Some(name) = table.name(n) else {
        unreachable!()
    };
    Ok(Text::new(String::from_str(alloc, name)?))
}

// A declared sort.
pub(crate) fn sort_of(alloc: Global, sig: &Signature, sort: SortId) -> Result<Sort, AllocError>
    requires { IsSome (kore_sort sig.now sort.0) }
    ensures { IfOk result (λ s. kore_sort sig.now sort.0 ≡ Some (plain_sort s)) }
{
    let name = name_of(alloc, &sig.sorts, sort.0 as usize)?;
    Ok(Sort {
        at: 0,
        form: SortForm::App(name, Vec::new(alloc)),
    })
}

// Declared sorts.
pub(crate) fn sorts_of(
    alloc: Global,
    sig: &Signature,
    sorts: &[SortId],
) -> Result<Vec<Sort>, AllocError>
    requires { IsSome (kore_sorts sig.now (sort_numbers sorts.now)) }
    ensures { IfOk result
        (λ ss. kore_sorts sig.now (sort_numbers sorts.now) ≡ Some (map plain_sort ss.items)) }
{
    let mut named = Vec::with_capacity(alloc, sorts.len())?;
    for sort in sorts {
        named.push(sort_of(alloc, sig, *sort)?)?;
    }
    Ok(named)
}

// The text of a value in canonical form.
pub(crate) fn text_of(alloc: Global, value: &Value) -> Result<Text, AllocError>
    ensures { IfOk result (λ t. t ≡ value_text (value_of value.now)) }
{
    match value {
        Value::Int(n) => Ok(Text::new(String::from_str(alloc, Buffer::new().format(*n))?)),
        Value::Bool(true) => Ok(Text::new(String::from_str(alloc, "true")?)),
        Value::Bool(false) => Ok(Text::new(String::from_str(alloc, "false")?)),
        Value::Text(words) => Ok(Text::new(String::from_str(alloc, words.as_str())?)),
    }
}
