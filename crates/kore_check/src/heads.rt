// The head of an application: its symbol and its sort arguments.
ghost use Rattle.std.specs.Prelude.{◌≡◌, ◌==◌, ◌&&◌, ◌++◌, map, flat_map, length, option_map};
ghost use Rattle.std.specs.Prelude.{option_copied};
ghost use Rattle.kore_ast.specs.Plain.{plain_sort};
ghost use Rattle.kore_sig.specs.FirstFault.{when, unless};
ghost use Rattle.kore_check.specs.PatternSorts.{sort_numbers, result_sort, symbol_named};
ghost use Rattle.kore_check.specs.PatternFaults.{sort_faults, symbol_faults, is_bad_injection};
ghost use Rattle.rule_core.specs.KindTests.{is_injection, has_no_kind};
ghost use Rattle.kore_check.specs.Notes.{kept_fault, after, sort_no};
ghost use Rattle.kore_sig.specs.Numbered.{IsNumbered};

use crate::notes::note;
use crate::sorts::{check_sorts, declared_sort, sort_of_symbol};
use crate::{FaultKind, PatternFault};
use kore_ast::{Sort, Text};
use rule_core::{Signature, SymInfo, SymKind};
use term_core::SortId;

// The declaration of the symbol with this name.
pub(crate) fn symbol<'a>(sig: &'a Signature, name: &Text) -> Option<&'a SymInfo>
    ensures { option_copied result ≡ symbol_named sig.now name.now }
{
    let number = sig.symbols.number(name.as_str())?;
    sig.symbols.value(number)
}

// Whether these are the two declared sorts of an injection, and the first is not below the second.
fn has_bad_injection(sig: &Signature, sorts: &[Sort]) -> bool
    requires { IsNumbered sig.now }
    ensures { result ≡ is_bad_injection sig.now (sort_numbers sig.now (map plain_sort sorts.now)) }
{
    if sorts.len() != 2 {
        return false;
    }
    let from = declared_sort(sig, &sorts[0]);
    let to = declared_sort(sig, &sorts[1]);
    match (from, to) {
        (Some(from), Some(to)) => !sig.subsorts.below(from, to),
        _ => false,
    }
}

// Notes the faults of the head of an application with `args` arguments, and returns its sort. The
// faults are at `at`, the byte of the symbol, and at the sorts.
pub(crate) fn check_head(
    sig: &Signature,
    at: u32,
    symbol: Option<&SymInfo>,
    sorts: &[Sort],
    args: usize,
    first: &mut Option<PatternFault>,
) -> Option<SortId>
    requires { IsNumbered sig.now }
    ensures sort { option_map sort_no result
        ≡ result_sort (option_copied symbol.entry) (map plain_sort sorts.now)
        (sort_numbers sig.now (map plain_sort sorts.now)) }
    ensures first { kept_fault first.new ≡ after first.old
        (flat_map (sort_faults sig.now) (map plain_sort sorts.now)
        ++ symbol_faults sig.now at (option_copied symbol.entry) (map plain_sort sorts.now) args) }
{
    let all_declared = check_sorts(sig, sorts, first);
    check_symbol(sig, at, symbol, sorts, args, first);
    sort_of_symbol(sig, symbol, sorts, all_declared)
}

// Notes the faults at a symbol.
fn check_symbol(
    sig: &Signature,
    at: u32,
    symbol: Option<&SymInfo>,
    sorts: &[Sort],
    args: usize,
    first: &mut Option<PatternFault>,
)
    requires { IsNumbered sig.now }
    ensures { kept_fault first.new
        ≡ after first.old
        (symbol_faults sig.now at (option_copied symbol.entry) (map plain_sort sorts.now) args) }
{
    match symbol {
        None => note(first, FaultKind::UnknownSymbol, at),
        Some(symbol) => {
            check_arity(at, symbol, sorts, args, first);
            check_injection(sig, at, symbol, sorts, first);
            check_kind(at, symbol, first);
        }
    }
}

// Notes a wrong number of sort arguments or of arguments.
fn check_arity(
    at: u32,
    symbol: &SymInfo,
    sorts: &[Sort],
    args: usize,
    first: &mut Option<PatternFault>,
)
    ensures { kept_fault first.new ≡ after first.old
        (unless ((length (map plain_sort sorts.now) == symbol.now.params)
        && (args == length symbol.now.args.items)) 8
        at) }
{
    let fits = sorts.len() == symbol.params as usize && args == symbol.args.len();
    if !fits {
        note(first, FaultKind::Arity, at);
    }
}

// Notes an injection whose first sort is not below the second.
fn check_injection(
    sig: &Signature,
    at: u32,
    symbol: &SymInfo,
    sorts: &[Sort],
    first: &mut Option<PatternFault>,
)
    requires { IsNumbered sig.now }
    ensures { kept_fault first.new ≡ after first.old
        (when (is_injection symbol.now.kind
        && is_bad_injection sig.now (sort_numbers sig.now (map plain_sort sorts.now))) 9
        at) }
{
    if is_injection(symbol.kind) && has_bad_injection(sig, sorts) {
        note(first, FaultKind::SortClash, at);
    }
}

// Whether the symbol is the injection.
fn is_injection(kind: SymKind) -> bool
    ensures { result ≡ is_injection kind }
{
    matches!(kind, SymKind::Injection)
}

// Notes a symbol that has no kind.
fn check_kind(at: u32, symbol: &SymInfo, first: &mut Option<PatternFault>)
    ensures { kept_fault first.new ≡ after first.old (when (has_no_kind symbol.now.kind) 25 at) }
{
    if matches!(symbol.kind, SymKind::NoKind) {
        note(first, FaultKind::NoKind, at);
    }
}
