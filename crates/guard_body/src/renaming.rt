// Patterns and names with other variables.
ghost use Rattle.std.specs.Prelude.{◌≡◌, ◌≤◌, ◌<◌, ◌+◌, ◌++◌, ◌^◌, ℕ, All, IfOk, length, replicate};
ghost use Rattle.term_core.specs.RulePatterns.{plain_pattern, sort_numbers};
ghost use Rattle.term_core.specs.PatternLists.{plain_patterns};
ghost use Rattle.rule_core.specs.Matching.{OccursIn};
ghost use Rattle.rule_core.specs.MatchSearch.{UseFirst};
ghost use Rattle.rule_core.specs.ProgramView.{name_of, names_of, sorts_of};
ghost use Rattle.ml_image.specs.HasImages.{AreNamesBelow};
ghost use Rattle.ml_image.specs.Images.{renamed, all_renamed};
ghost use Rattle.ml_image.specs.LastResorts.{sorts_at};
ghost use Rattle.ml_image.specs.PartNames.{names_renamed};
ghost use Rattle.ml_image.specs.Premises.{renamed_name};
ghost use Rattle.guard_body.specs.Renaming.{ListsNumbers, at_zero, begins_with, names_at};
ghost use Rattle.guard_body.specs.Renaming.{number_in, sorts_from};

use rule_core::{Named, VarInfo};
use std::alloc::{AllocError, Global};
use term_core::{RulePat, SortId};

// The numbers of `count` variables, if those that are listed are numbered from `first` and all
// others are 0.
pub(crate) fn listed_numbers(
    alloc: Global,
    first: u32,
    order: &[u32],
    count: usize,
) -> Result<Vec<u32>, AllocError>
    requires order { All (λ x. x < count) order.now }
    requires few { first + length order.now ≤ 2 ^ 32 }
    ensures { IfOk result (λ v. ListsNumbers first order.now count v.items) }
{
    let mut numbers = Vec::new(alloc);
    numbers.resize(count, 0)?;
    for i in (0..order.len()).rev() {
        numbers[order[i] as usize] = first + i as u32;
    }
    Ok(numbers)
}

// The sorts of the listed variables by their numbers, which begin with `first`. Those of the
// numbers below are of no account.
pub(crate) fn sorts_from(
    alloc: Global,
    first: u32,
    order: &[u32],
    vars: &[VarInfo],
) -> Result<Vec<SortId>, AllocError>
    requires { All (λ x. x < length vars.now) order.now }
    ensures { IfOk result
        (λ v. sort_numbers v.items ≡ sorts_from first (sorts_of vars.now) order.now) }
{
    match vars.first() {
        Some(var) => padded_sorts(alloc, var.sort, first, order, vars),
        None => Ok(Vec::new(alloc)),
    }
}

// The sorts of the listed variables, after this sort for each number below `first`.
fn padded_sorts(
    alloc: Global,
    pad: SortId,
    first: u32,
    order: &[u32],
    vars: &[VarInfo],
) -> Result<Vec<SortId>, AllocError>
    requires { All (λ x. x < length vars.now) order.now }
    ensures { IfOk result (λ v. sort_numbers v.items
        ≡ replicate first pad.0 ++ sorts_at (sorts_of vars.now) order.now) }
{
    let mut sorts = Vec::new(alloc);
    for _ in 0..first {
        sorts.push(pad)?;
    }
    for number in order {
        sorts.push(vars[*number as usize].sort)?;
    }
    Ok(sorts)
}

// The pattern with these numbers for its variables.
#[cycle(renamed)]
pub(crate) fn renamed(alloc: Global, pat: &RulePat, numbers: &[u32]) -> Result<RulePat, AllocError>
    requires { (x : ℕ) → OccursIn x (plain_pattern pat.now) → x < length numbers.now }
    ensures { IfOk result
        (λ p. plain_pattern p ≡ renamed (number_in numbers.now) (plain_pattern pat.now)) }
{
    match pat {
        RulePat::Var(x) => Ok(RulePat::Var(numbers[*x as usize])),
        RulePat::Value(sort, value) => Ok(RulePat::Value(*sort, value.share()?)),
        RulePat::Ctor(symbol, args) => {
            Ok(RulePat::Ctor(*symbol, all_renamed(alloc, args, numbers)?))
        }
        RulePat::Inj(from, to, below) => {
            let below = renamed(alloc, below, numbers)?;
            Ok(RulePat::Inj(*from, *to, Box::new(alloc, below)?))
        }
        RulePat::Call(symbol, sorts, args) => {
            let args = all_renamed(alloc, args, numbers)?;
            Ok(RulePat::Call(*symbol, copied(alloc, sorts)?, args))
        }
    }
}

// The same sorts.
fn copied(alloc: Global, sorts: &[SortId]) -> Result<Vec<SortId>, AllocError>
    ensures { IfOk result (λ v. v.items ≡ sorts.now) }
{
    let mut own = Vec::new(alloc);
    own.extend_from_slice(sorts)?;
    Ok(own)
}

// The same for patterns, in order.
#[cycle(renamed)]
fn all_renamed(alloc: Global, pats: &[RulePat], numbers: &[u32]) -> Result<Vec<RulePat>, AllocError>
    requires { UseFirst (length numbers.now) (plain_patterns pats.now) }
    ensures { IfOk result (λ ps. plain_patterns ps.items
        ≡ all_renamed (number_in numbers.now) (plain_patterns pats.now)) }
{
    let mut made = Vec::with_capacity(alloc, pats.len())?;
    for pat in pats {
        made.push(renamed(alloc, pat, numbers)?)?;
    }
    Ok(made)
}

// The names of parts of the argument at this place, with these numbers for their variables. Their
// places begin with 0.
pub(crate) fn renamed_names(
    alloc: Global,
    named: &[Named],
    numbers: &[u32],
    place: usize,
) -> Result<Vec<Named>, AllocError>
    requires { AreNamesBelow (length numbers.now) (names_of named.now) }
    ensures { IfOk result (λ v. names_of v.items
        ≡ names_at place (names_renamed (number_in numbers.now) (names_of named.now))) }
{
    let mut made = Vec::new(alloc);
    for name in named {
        if begins_with(&name.at, place) {
            made.push(renamed_name(alloc, name, numbers)?)?;
        }
    }
    Ok(made)
}

// Whether the place begins with this number.
fn begins_with(at: &[u32], place: usize) -> bool
    ensures { result ≡ begins_with place at.now }
{
    match at {
        [first, ..] => *first as usize == place,
        [] => false,
    }
}

// The name with this number for its variable. Its place begins with 0.
fn renamed_name(alloc: Global, name: &Named, numbers: &[u32]) -> Result<Named, AllocError>
    requires { name.now.var < length numbers.now }
    ensures { IfOk result (λ n. name_of n
        ≡ at_zero (renamed_name (number_in numbers.now) (name_of name.now))) }
{
    let mut at = name.at.clone()?;
    if !at.is_empty() {
        at[0] = 0;
    }
    Ok(Named {
        var: numbers[name.var as usize],
        at,
        first: name.first,
    })
}
