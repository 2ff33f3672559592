// The sorts that a definition names.
ghost use Rattle.std.specs.Prelude.{◌≡◌, ◌<◌, ◌^◌, ◌++◌, ◌∷◌, [], length, map, flat_map};
ghost use Rattle.std.specs.Prelude.{option_map, None, Option, ℕ};
ghost use Rattle.kore_ast.specs.Plain.{plain_sort};
ghost use Rattle.kore_sig.specs.SortReferences.{declared_number as the_declared};
ghost use Rattle.kore_sig.specs.SortReferences.{sort_number as the_number};
ghost use Rattle.kore_sig.specs.SortReferences.{parameter_place as the_place};
ghost use Rattle.kore_sig.specs.SortReferences.{sort_reference as the_reference};
ghost use Rattle.kore_sig.specs.SortReferences.{sort_place as the_sort_place};
ghost use Rattle.kore_sig.specs.SignatureFaults.{reference_faults};
ghost use Rattle.kore_sig.specs.Noted.{noted, leads_by_number, first_by_number};
ghost use Rattle.kore_sig.specs.UnknownSorts.{unknown_sort_at};

use kore_ast::{Sort, SortForm, Text};
use rule_core::{SortInfo, SortRef, Table};
use term_core::SortId;

/// The number of a sort that is declared and has no arguments. None for any other sort.
pub fn sort_number(sorts: &Table<SortInfo>, sort: &Sort) -> Option<usize>
    ensures { result ≡ the_number sorts.now (plain_sort sort.now) }
{
    match &sort.form {
        SortForm::Param(_) => None,
        SortForm::App(name, args) => declared_number(sorts, name, args),
    }
}

fn declared_number(sorts: &Table<SortInfo>, name: &Text, args: &[Sort]) -> Option<usize>
    ensures { result ≡ the_declared sorts.now name.now (map plain_sort args.now) }
{
    match args {
        [] => sorts.number(name.as_str()),
        [_, ..] => None,
    }
}

/// The place of the first sort parameter with this name.
fn parameter_place(params: &[Text], name: &Text) -> Option<usize>
    ensures { result ≡ the_place params.now name.now }
{
    for (i, param) in params.iter().enumerate() {
        if name.as_str() == param.as_str() {
            return Some(i);
        }
    }
    None
}

/// What a sort means with these sorts and sort parameters. None if it is neither a parameter nor a
/// declared sort without arguments.
pub(crate) fn sort_reference(
    sorts: &Table<SortInfo>,
    params: &[Text],
    sort: &Sort,
) -> Option<SortRef>
    requires sorts { length sorts.now < 2 ^ 32 }
    requires params { length params.now < 2 ^ 32 }
    ensures { result ≡ the_reference sorts.now params.now (plain_sort sort.now) }
{
    match &sort.form {
        SortForm::Param(name) => {
            let place = parameter_place(params, name)?;
            Some(SortRef::Param(place as u32))
        }
        SortForm::App(name, args) => {
            let number = declared_number(sorts, name, args)?;
            Some(SortRef::Sort(SortId(number as u32)))
        }
    }
}

/// The byte of a sort's name.
pub(crate) fn sort_place(sort: &Sort) -> u32
    ensures { result ≡ the_sort_place (plain_sort sort.now) }
{
    sort.at
}

/// The smallest byte of a sort that means nothing.
pub(crate) fn first_unknown(
    sorts: &Table<SortInfo>,
    params: &[Text],
    args: &[Sort],
    value: &Sort,
) -> Option<u32>
    requires sorts { length sorts.now < 2 ^ 32 }
    requires params { length params.now < 2 ^ 32 }
    ensures { unknown_sort_at result
        ≡ first_by_number (flat_map (reference_faults sorts.now params.now) (map plain_sort args.now
        ++ plain_sort value.now ∷ [])) }
{
    let mut first = None;
    for arg in args {
        note_unknown(sorts, params, arg, &mut first);
    }
    note_unknown(sorts, params, value, &mut first);
    first
}

/// Keeps the byte of a sort that means nothing, unless a smaller one is kept.
fn note_unknown(sorts: &Table<SortInfo>, params: &[Text], sort: &Sort, first: &mut Option<u32>)
    requires sorts { length sorts.now < 2 ^ 32 }
    requires params { length params.now < 2 ^ 32 }
    ensures { unknown_sort_at first.new
        ≡ noted leads_by_number (unknown_sort_at first.old)
        (reference_faults sorts.now params.now (plain_sort sort.now)) }
{
    if sort_reference(sorts, params, sort).is_some() {
        return;
    }
    match *first {
        Some(byte) if byte <= sort.at => {}
        _ => *first = Some(sort.at),
    }
}
