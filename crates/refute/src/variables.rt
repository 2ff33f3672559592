// The variables of a pattern.
ghost use Rattle.std.specs.Prelude.{◌≡◌, IfOk};
ghost use Rattle.term_core.specs.PatternLists.{plain_patterns};
ghost use Rattle.term_core.specs.RulePatterns.{plain_pattern};
ghost use Rattle.refute.specs.Refutations.{is_one_of, variables_in_order, and_new};
ghost use Rattle.refute.specs.Refutations.{and_new_of, and_new_of_all};

use std::alloc::{AllocError, Global};
use term_core::RulePat;

// The variables of a pattern, in the order in which they first occur. Each occurrence is looked for
// among the variables before it.
pub(crate) fn variables_in_order(alloc: Global, pat: &RulePat) -> Result<Vec<u32>, AllocError>
    ensures { IfOk result (λ xs. xs.items ≡ variables_in_order (plain_pattern pat.now)) }
{
    let mut variables = Vec::new(alloc);
    add_variables(pat, &mut variables)?;
    Ok(variables)
}

// Adds the variables of the pattern that are not in the list, in that order.
#[cycle(add_variables)]
pub(crate) fn add_variables(pat: &RulePat, variables: &mut Vec<u32>) -> Result<(), AllocError>
    ensures { IfOk result
        (λ u. variables.new.items ≡ and_new_of variables.old.items (plain_pattern pat.now)) }
{
    match pat {
        RulePat::Var(x) => add_variable(*x, variables),
        RulePat::Value(..) => Ok(()),
        RulePat::Ctor(_, args) => add_all_variables(args, variables),
        RulePat::Inj(_, _, below) => add_variables(below, variables),
        RulePat::Call(_, _, args) => add_all_variables(args, variables),
    }
}

// The same for patterns, in order.
#[cycle(add_variables)]
fn add_all_variables(pats: &[RulePat], variables: &mut Vec<u32>) -> Result<(), AllocError>
    ensures { IfOk result (λ u. variables.new.items
        ≡ and_new_of_all variables.old.items (plain_patterns pats.now)) }
{
    for pat in pats {
        add_variables(pat, variables)?;
    }
    Ok(())
}

// Adds the variable if it is not in the list.
pub(crate) fn add_variable(x: u32, variables: &mut Vec<u32>) -> Result<(), AllocError>
    ensures { IfOk result (λ u. variables.new.items ≡ and_new variables.old.items x) }
{
    if !is_one_of(x, variables) {
        variables.push(x)?;
    }
    Ok(())
}

// Whether the variable is in the list.
fn is_one_of(x: u32, variables: &[u32]) -> bool
    ensures { result ≡ is_one_of x variables.now }
{
    for y in variables {
        if x == *y {
            return true;
        }
    }
    false
}
