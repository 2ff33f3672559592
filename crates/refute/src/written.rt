// The variables of a pattern whose parts have names, as it is written.
ghost use Rattle.std.specs.Prelude.{◌≡◌, IfOk};
ghost use Rattle.term_core.specs.PatternLists.{plain_patterns};
ghost use Rattle.term_core.specs.RulePatterns.{plain_pattern};
ghost use Rattle.ml_image.specs.NamedSides.{left_sentence, of_whole};
ghost use Rattle.ml_image.specs.PartNames.{part_names, part_sentence};
ghost use Rattle.refute.specs.NamedRefutations.{and_new_in, variables_as_written};
ghost use Rattle.refute.specs.Written.{and_new_in_all, with_first_names, with_last_names};

use crate::variables::{add_variable, add_variables};
use ml_image::{PartName, names_in};
use std::alloc::{AllocError, Global};
use term_core::RulePat;

// The variables of a pattern whose parts have these names, in the order in which they first occur as
// it is written.
pub(crate) fn variables_as_written(
    alloc: Global,
    pat: &RulePat,
    names: &[PartName<'_>],
) -> Result<Vec<u32>, AllocError>
    ensures { IfOk result (λ xs. xs.items
        ≡ variables_as_written (part_names names.now) (plain_pattern pat.now)) }
{
    let mut variables = Vec::new(alloc);
    add_written(alloc, pat, names, &mut variables)?;
    Ok(variables)
}

// Adds the variables that are not in the list, in that order.
#[cycle(add_written)]
fn add_written(
    alloc: Global,
    pat: &RulePat,
    names: &[PartName<'_>],
    variables: &mut Vec<u32>,
) -> Result<(), AllocError>
    ensures { IfOk result (λ u. variables.new.items ≡ and_new_in variables.old.items
        (left_sentence (part_names names.now) (plain_pattern pat.now))) }
{
    add_first_names(names, variables)?;
    add_part(alloc, pat, names, variables)?;
    add_last_names(names, variables)
}

// The same without the names of the whole pattern.
#[cycle(add_written)]
fn add_part(
    alloc: Global,
    pat: &RulePat,
    names: &[PartName<'_>],
    variables: &mut Vec<u32>,
) -> Result<(), AllocError>
    ensures { IfOk result (λ u. variables.new.items ≡ and_new_in variables.old.items
        (part_sentence (part_names names.now) (plain_pattern pat.now))) }
{
    match pat {
        RulePat::Ctor(_, args) => add_all_written(alloc, args, names, variables),
        RulePat::Inj(_, _, below) => {
            let inside = names_in(alloc, names, 0)?;
            add_written(alloc, below, &inside, variables)
        }
        RulePat::Var(_) | RulePat::Value(..) | RulePat::Call(..) => add_variables(pat, variables),
    }
}

// The same for the arguments of a symbol, in order.
#[cycle(add_written)]
fn add_all_written(
    alloc: Global,
    args: &[RulePat],
    names: &[PartName<'_>],
    variables: &mut Vec<u32>,
) -> Result<(), AllocError>
    ensures { IfOk result (λ u. variables.new.items ≡ and_new_in_all variables.old.items
        (part_names names.now) 0 (plain_patterns args.now)) }
{
    for i in 0..args.len() {
        let inside = names_in(alloc, names, i)?;
        add_written(alloc, &args[i], &inside, variables)?;
    }
    Ok(())
}

// Adds those names of the whole pattern that are written before it, the last one first.
fn add_first_names(names: &[PartName<'_>], variables: &mut Vec<u32>) -> Result<(), AllocError>
    ensures { IfOk result (λ u. variables.new.items
        ≡ with_first_names variables.old.items (of_whole (part_names names.now))) }
{
    let mut left = names.len();
    while 0 < left {
        left -= 1;
        let name = &names[left];
        if name.way.is_empty() && name.first {
            add_variable(name.var, variables)?;
        }
    }
    Ok(())
}

// Adds those that are written behind it, in order.
fn add_last_names(names: &[PartName<'_>], variables: &mut Vec<u32>) -> Result<(), AllocError>
    ensures { IfOk result (λ u. variables.new.items
        ≡ with_last_names variables.old.items (of_whole (part_names names.now))) }
{
    for name in names {
        if name.way.is_empty() && !name.first {
            add_variable(name.var, variables)?;
        }
    }
    Ok(())
}
