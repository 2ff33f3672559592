// The quantifiers in front of a pattern, and the variables that they bind.
ghost use Rattle.std.specs.Prelude.{◌≡◌, ◌≤◌, ◌+◌, ◌++◌, ◌^◌, ℕ, List, length, map, IfOk};
ghost use Rattle.ml_pat.specs.Patterns.{and, var};
ghost use Rattle.term_core.specs.RulePatterns.{sort_numbers};
ghost use Rattle.rule_core.specs.Sorting.{AreSorts};
ghost use Rattle.rule_core.specs.ProgramView.{sorts_of};
ghost use Rattle.ml_image.specs.OwnAxioms.{sort_numbered};
ghost use Rattle.ml_image.specs.Closing.{Closes, ClosesSome};
ghost use Rattle.ml_image.specs.Counted.{at_variables, at_pairs};
ghost use Rattle.ml_image.specs.Gained.{HasGained};

use crate::tokens::sort_number;
use ml_pat::{MPat, Names, VarNo};
use rule_core::{Signature, SortRef, VarInfo};
use std::alloc::{AllocError, Global};
use term_core::SortId;

// The pattern, universally quantified over variables of these sorts. The variables are numbered
// from 0, and the first one is the outermost.
pub(crate) fn close(
    alloc: Global,
    sig: &Signature,
    names: &mut Names,
    sorts: &[SortId],
    body: MPat,
) -> Result<MPat, AllocError>
    requires sorts { AreSorts sig.now (sort_numbers sorts.now) }
    requires few { length sorts.now ≤ 2 ^ 32 }
    ensures image { IfOk result
        (Closes sig.now names.old names.new (sort_numbers sorts.now) body) }
    ensures names { HasGained sig.now names.old names.new }
{
    let mut made = body;
    for i in (0..sorts.len()).rev() {
        let sort = sort_number(alloc, sig, names, sorts[i])?;
        made = MPat::all(alloc, VarNo(i as u32), sort, &made)?;
    }
    Ok(made)
}

// The pattern, existentially quantified over variables of these sorts. The variables are numbered
// from `first`, and the first one is the outermost.
pub(crate) fn close_some(
    alloc: Global,
    sig: &Signature,
    names: &mut Names,
    first: u32,
    sorts: &[SortId],
    body: MPat,
) -> Result<MPat, AllocError>
    requires sorts { AreSorts sig.now (sort_numbers sorts.now) }
    requires few { first + length sorts.now ≤ 2 ^ 32 }
    ensures image { IfOk result
        (ClosesSome sig.now names.old names.new first (sort_numbers sorts.now) body) }
    ensures names { HasGained sig.now names.old names.new }
{
    let mut made = body;
    for i in (0..sorts.len()).rev() {
        let sort = sort_number(alloc, sig, names, sorts[i])?;
        made = MPat::ex(alloc, VarNo(first + i as u32), sort, &made)?;
    }
    Ok(made)
}

// The pattern, universally quantified over variables of the first sorts, and then over variables of
// the other sorts.
pub(crate) fn close_both(
    alloc: Global,
    sig: &Signature,
    names: &mut Names,
    first: Vec<SortId>,
    others: &[SortId],
    body: MPat,
) -> Result<MPat, AllocError>
    requires first { AreSorts sig.now (sort_numbers first.items) }
    requires others { AreSorts sig.now (sort_numbers others.now) }
    requires few { length first.items + length others.now ≤ 2 ^ 32 }
    ensures image { IfOk result
        (Closes sig.now names.old names.new
        (sort_numbers first.items ++ sort_numbers others.now) body) }
    ensures names { HasGained sig.now names.old names.new }
{
    let mut sorts = first;
    sorts.extend_from_slice(others)?;
    close(alloc, sig, names, &sorts, body)
}

// The sorts of variables, in order.
pub(crate) fn variable_sorts(alloc: Global, vars: &[VarInfo]) -> Result<Vec<SortId>, AllocError>
    ensures { IfOk result (λ v. sort_numbers v.items ≡ sorts_of vars.now) }
{
    let mut sorts = Vec::with_capacity(alloc, vars.len())?;
    for var in vars {
        sorts.push(var.sort)?;
    }
    Ok(sorts)
}

// The sorts that the references name, in order.
pub(crate) fn named_sorts(alloc: Global, refs: &[SortRef]) -> Result<Vec<SortId>, AllocError>
    requires { (sorts : List ℕ) × (refs.now ≡ map sort_numbered sorts) }
    ensures { IfOk result (λ v. refs.now ≡ map sort_numbered (sort_numbers v.items)) }
{
    let mut sorts = Vec::with_capacity(alloc, refs.len())?;
    for of in refs {
        match of {
            SortRef::Sort(sort) => sorts.push(*sort)?,
            SortRef::Param(_) => unreachable!(),
        }
    }
    Ok(sorts)
}

// The pattern applied to `count` variables, numbered from `first`.
pub(crate) fn at_variables(
    alloc: Global,
    head: MPat,
    first: u32,
    count: u32,
) -> Result<MPat, AllocError>
    requires { first + count ≤ 2 ^ 32 }
    ensures { IfOk result (λ p. p ≡ at_variables head first count) }
{
    let mut made = head;
    for i in 0..count {
        made = MPat::app(alloc, &made, &MPat::var(alloc, VarNo(first + i))?)?;
    }
    Ok(made)
}

// The pattern applied to `count` conjunctions. Each is of a variable numbered from `first` and one
// numbered from `second`.
pub(crate) fn at_pairs(
    alloc: Global,
    head: MPat,
    first: u32,
    second: u32,
    count: u32,
) -> Result<MPat, AllocError>
    requires first { first + count ≤ 2 ^ 32 }
    requires second { second + count ≤ 2 ^ 32 }
    ensures { IfOk result (λ p. p ≡ at_pairs head first second count) }
{
    let mut made = head;
    for i in 0..count {
        let pair = both_variables(alloc, first + i, second + i)?;
        made = MPat::app(alloc, &made, &pair)?;
    }
    Ok(made)
}

// The conjunction of two variables.
fn both_variables(alloc: Global, x: u32, y: u32) -> Result<MPat, AllocError>
    ensures { IfOk result (λ p. p ≡ and (var x) (var y)) }
{
    MPat::and(
        alloc,
        &MPat::var(alloc, VarNo(x))?,
        &MPat::var(alloc, VarNo(y))?,
    )
}
