// What the symbols of a definition are used for, after its axioms are read.
ghost use Rattle.std.specs.Prelude.{◌≡◌, map, option_map, option_copied, slice_get, string_bytes};
ghost use Rattle.std.specs.Prelude.{Some, IfOk};
ghost use Rattle.std.specs.List.{AllZip};
ghost use Rattle.hook_table.specs.Rows.{plain_kind, plain_row};
ghost use Rattle.kore_check.specs.PatternSorts.{sort_kind};
ghost use Rattle.kore_rules.specs.AxiomsRead.{is_marked as is_set};
ghost use Rattle.kore_rules.specs.ScalarSorts.{is_of_kind as is_one_of_kind};
ghost use Rattle.kore_rules.specs.ScalarSorts.{refers_to as does_refer, fits_row as does_fit};
ghost use Rattle.kore_rules.specs.ScalarSorts.{refer_to as do_refer};
ghost use Rattle.kore_rules.specs.ScalarSorts.{kind_in_row as the_kind_in_row};
ghost use Rattle.kore_rules.specs.ScalarSorts.{kind_of_number as the_kind_of_number, hook_row};
ghost use Rattle.kore_rules.specs.ScalarSorts.{row_at};
ghost use Rattle.kore_rules.specs.ScalarSorts.{kind_by_hook as the_kind_by_hook};
ghost use Rattle.kore_rules.specs.ScalarSorts.{final_kind as the_final_kind};
ghost use Rattle.kore_rules.specs.ScalarSorts.{kind_of_function as the_kind_of_function, IsFinal};

use hook_table::{HookRow, ScalarKind, find, hook_rows};
use rule_core::{Signature, SortKind, SortRef, SymInfo, SymKind, Table, TextHasher};
use std::alloc::{AllocError, Global};
use term_core::HookNo;

/// The symbols with what they are used for. `with_terms` marks the sorts that have terms other than
/// values. `unreadable` marks the symbols with an equation that is not readable. It looks at each
/// symbol once, and copies it.
pub(crate) fn final_symbols(
    alloc: Global,
    hasher: TextHasher,
    sig: &Signature,
    with_terms: &[bool],
    unreadable: &[bool],
) -> Result<Table<SymInfo>, AllocError>
    ensures { IfOk result (AllZip (IsFinal sig.now with_terms.now unreadable.now) sig.now.symbols) }
{
    sig.symbols.names_differ();
    let mut symbols = Table::hashed_by(alloc, hasher);
    for number in 0..sig.symbols.len() {
        let (Some(name), Some(symbol)) = (sig.symbols.name(number), sig.symbols.value(number))
        else {
            unreachable!()
        };
        let kind = final_kind(sig, with_terms, symbol, is_marked(unreadable, number));
        let name = String::from_str(alloc, name)?;
        symbols.insert(name, with_kind(alloc, symbol, kind)?)?;
    }
    Ok(symbols)
}

/// A copy of a symbol with this kind.
fn with_kind(alloc: Global, symbol: &SymInfo, kind: SymKind) -> Result<SymInfo, AllocError>
    ensures kind { IfOk result (λ made. made.kind ≡ kind) }
    ensures params { IfOk result (λ made. made.params ≡ symbol.now.params) }
    ensures args { IfOk result (λ made. made.args.items ≡ symbol.now.args.items) }
    ensures value { IfOk result (λ made. made.result ≡ symbol.now.result) }
    ensures hook { IfOk result
        (λ made. option_map string_bytes made.hook ≡ option_map string_bytes symbol.now.hook) }
    ensures ac { IfOk result (λ made. made.ac ≡ symbol.now.ac) }
{
    Ok(SymInfo {
        kind,
        params: symbol.params,
        args: Vec::from_slice(alloc, &symbol.args)?,
        result: symbol.result,
        hook: copy_of(&symbol.hook)?,
        ac: symbol.ac,
    })
}

fn copy_of(text: &Option<String>) -> Result<Option<String>, AllocError>
    ensures { IfOk result
        (λ copy. option_map string_bytes copy ≡ option_map string_bytes text.now) }
{
    match text {
        Some(text) => Ok(Some(text.clone()?)),
        None => Ok(None),
    }
}

/// Whether the mark with this number is set.
fn is_marked(marks: &[bool], number: usize) -> bool
    ensures { result ≡ is_set marks.now number }
{
    marks.get(number).copied().unwrap_or(false)
}

/// What a symbol is used for. A function without sort parameters has the values of its hook if the
/// hook fits. It has the values of its equations if it has no hook and each of its equations is
/// readable. Otherwise nothing gives its values. Any other symbol keeps its kind.
fn final_kind(sig: &Signature, with_terms: &[bool], symbol: &SymInfo, unreadable: bool) -> SymKind
    ensures { result ≡ the_final_kind sig.now with_terms.now symbol.now unreadable }
{
    if symbol.kind == SymKind::Equations {
        kind_of_function(sig, with_terms, symbol, unreadable)
    } else {
        symbol.kind
    }
}

fn kind_of_function(
    sig: &Signature,
    with_terms: &[bool],
    symbol: &SymInfo,
    unreadable: bool,
) -> SymKind
    ensures { result ≡ the_kind_of_function sig.now with_terms.now symbol.now unreadable
        (option_map string_bytes symbol.now.hook) }
{
    match &symbol.hook {
        Some(name) => kind_by_hook(sig, with_terms, symbol, name.as_str()),
        None if unreadable => SymKind::Closed,
        None => SymKind::Equations,
    }
}

/// The kind of a function whose hook has this name.
fn kind_by_hook(sig: &Signature, with_terms: &[bool], symbol: &SymInfo, name: &str) -> SymKind
    ensures { result ≡ the_kind_by_hook sig.now with_terms.now symbol.now name.now }
{
    match find(name.as_bytes()) {
        Some(number) => kind_of_number(sig, with_terms, symbol, number),
        None => SymKind::Closed,
    }
}

/// The kind of a function whose hook has this number.
fn kind_of_number(sig: &Signature, with_terms: &[bool], symbol: &SymInfo, number: HookNo) -> SymKind
    ensures { result ≡ the_kind_of_number sig.now with_terms.now symbol.now (Some number.0) }
{
    match row_of(number) {
        Some(row) => kind_in_row(sig, with_terms, symbol, number, row),
        None => SymKind::Closed,
    }
}

/// The row of the table with this number.
fn row_of(number: HookNo) -> Option<&'static HookRow>
    ensures { option_map row_at result ≡ hook_row number.0 }
{
    row_in(hook_rows(), number.0 as usize)
}

fn row_in(rows: &[HookRow], place: usize) -> Option<&HookRow>
    ensures { option_copied result ≡ slice_get rows.now place }
{
    let row = rows.get(place)?;
    Some(row)
}

/// The kind of a function whose hook has this number and this row of the table.
fn kind_in_row(
    sig: &Signature,
    with_terms: &[bool],
    symbol: &SymInfo,
    number: HookNo,
    row: &HookRow,
) -> SymKind
    ensures { result
        ≡ the_kind_in_row sig.now with_terms.now symbol.now number.0 (Some (plain_row row.now)) }
{
    if fits_row(sig, with_terms, row, symbol) {
        SymKind::Hooked(number)
    } else {
        SymKind::Closed
    }
}

/// Whether a function has no sort parameters, and has the sorts of a row of the table.
fn fits_row(sig: &Signature, with_terms: &[bool], row: &HookRow, symbol: &SymInfo) -> bool
    ensures { result ≡ does_fit sig.now with_terms.now (plain_row row.now) symbol.now }
{
    symbol.params == 0
        && refer_to(sig, with_terms, row.args, &symbol.args)
        && refers_to(sig, with_terms, row.result, symbol.result)
}

fn refer_to(sig: &Signature, with_terms: &[bool], kinds: &[ScalarKind], sorts: &[SortRef]) -> bool
    ensures { result ≡ do_refer sig.now with_terms.now (map plain_kind kinds.now) sorts.now }
{
    if kinds.len() != sorts.len() {
        return false;
    }
    for i in 0..kinds.len() {
        if !refers_to(sig, with_terms, kinds[i], sorts[i]) {
            return false;
        }
    }
    true
}

/// Whether this is a sort of this kind that has no terms other than values.
fn refers_to(sig: &Signature, with_terms: &[bool], kind: ScalarKind, sort: SortRef) -> bool
    ensures { result ≡ does_refer sig.now with_terms.now (plain_kind kind) sort }
{
    match sort {
        SortRef::Sort(sort) => {
            is_of_kind(sig, kind, sort.0 as usize) && !is_marked(with_terms, sort.0 as usize)
        }
        SortRef::Param(_) => false,
    }
}

fn is_of_kind(sig: &Signature, kind: ScalarKind, sort: usize) -> bool
    ensures { result ≡ is_one_of_kind (plain_kind kind) (sort_kind sig.now sort) }
{
    match (sig.sorts.value(sort), kind) {
        (Some(info), ScalarKind::Int) => info.kind == SortKind::Int,
        (Some(info), ScalarKind::Bool) => info.kind == SortKind::Bool,
        (None, _) => false,
    }
}
