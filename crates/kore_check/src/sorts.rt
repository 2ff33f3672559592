// The declared sorts that the sorts in patterns name.
ghost use Rattle.std.specs.Prelude.{◌≡◌, IsTrue, map, flat_map, is_some, length, slice_get};
ghost use Rattle.std.specs.Prelude.{option_map, option_copied, Some, None};
ghost use Rattle.std.specs.Option.{option_and_then};
ghost use Rattle.kore_ast.specs.Plain.{plain_sort};
ghost use Rattle.kore_sig.specs.SortReferences.{sort_number as number_of_sort};
ghost use Rattle.kore_check.specs.PatternSorts.{sort_numbers, result_sort, wanted_sort};
ghost use Rattle.kore_check.specs.PatternFaults.{sort_faults, clash_faults};
ghost use Rattle.kore_check.specs.Notes.{kept_fault, after, sort_no};
ghost use Rattle.kore_sig.specs.Numbered.{IsNumbered};

use crate::notes::note;
use crate::{FaultKind, PatternFault};
use kore_ast::Sort;
use kore_sig::sort_number;
use rule_core::{Signature, SortRef, SymInfo};
use term_core::SortId;

// The number of a sort, or None if it is not declared, has arguments, or is a sort parameter.
pub(crate) fn declared_sort(sig: &Signature, sort: &Sort) -> Option<SortId>
    requires { IsNumbered sig.now }
    ensures { option_map sort_no result ≡ number_of_sort sig.now.sorts (plain_sort sort.now) }
{
    let number = sort_number(&sig.sorts, sort)?;
    Some(SortId(number as u32))
}

// The number of a sort, or None. It notes a sort that is not declared.
pub(crate) fn check_sort(
    sig: &Signature,
    sort: &Sort,
    first: &mut Option<PatternFault>,
) -> Option<SortId>
    requires { IsNumbered sig.now }
    ensures sort { option_map sort_no result ≡ number_of_sort sig.now.sorts (plain_sort sort.now) }
    ensures first { kept_fault first.new
        ≡ after first.old (sort_faults sig.now (plain_sort sort.now)) }
{
    let found = declared_sort(sig, sort);
    if found.is_none() {
        note(first, FaultKind::UnknownSort, sort.at);
    }
    found
}

// Whether all of these are declared sorts. It notes each one that is not.
pub(crate) fn check_sorts(sig: &Signature, sorts: &[Sort], first: &mut Option<PatternFault>) -> bool
    requires { IsNumbered sig.now }
    ensures all { result ≡ is_some (sort_numbers sig.now (map plain_sort sorts.now)) }
    ensures first { kept_fault first.new
        ≡ after first.old (flat_map (sort_faults sig.now) (map plain_sort sorts.now)) }
{
    let mut all_declared = true;
    for sort in sorts {
        if check_sort(sig, sort, first).is_none() {
            all_declared = false;
        }
    }
    all_declared
}

// The sort of a symbol with these sort arguments. `all_declared` says whether all of them are
// declared.
pub(crate) fn sort_of_symbol(
    sig: &Signature,
    symbol: Option<&SymInfo>,
    sorts: &[Sort],
    all_declared: bool,
) -> Option<SortId>
    requires numbered { IsNumbered sig.now }
    requires all { all_declared ≡ is_some (sort_numbers sig.now (map plain_sort sorts.now)) }
    ensures { option_map sort_no result
        ≡ result_sort (option_copied symbol.entry) (map plain_sort sorts.now)
        (sort_numbers sig.now (map plain_sort sorts.now)) }
{
    let symbol = symbol?;
    if !all_declared || sorts.len() != symbol.params as usize {
        return None;
    }
    wanted(sig, sorts, symbol.result)
}

// The sort that a place wants if its symbol has these sort arguments.
pub(crate) fn wanted(sig: &Signature, sorts: &[Sort], of: SortRef) -> Option<SortId>
    requires { IsNumbered sig.now }
    ensures { option_map sort_no result ≡ wanted_sort sig.now (map plain_sort sorts.now) of }
{
    match of {
        SortRef::Param(number) => {
            let sort = sorts.get(number as usize)?;
            declared_sort(sig, sort)
        }
        SortRef::Sort(sort) => Some(sort),
    }
}

// Notes a clash if the sort is not the one that is wanted. There is no clash if one of the two is
// missing.
pub(crate) fn check_clash(
    at: u32,
    own: Option<SortId>,
    wanted: Option<SortId>,
    first: &mut Option<PatternFault>,
)
    ensures { kept_fault first.new
        ≡ after first.old (clash_faults at (option_map sort_no own) (option_map sort_no wanted)) }
{
    if let (Some(own), Some(wanted)) = (own, wanted)
        && own != wanted
    {
        note(first, FaultKind::SortClash, at);
    }
}
