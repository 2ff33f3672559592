// The variables of a proof: those that occur in what is written for its derivation. What is still
// to be searched is on a stack, so a deep derivation needs no deep stack of calls.
ghost use Rattle.std.specs.Prelude.{◌≡◌, IfOk, OnOk, flat_map};
ghost use Rattle.ml_kernel.specs.StepView.{instance_of, instances_of, numbers_of};
ghost use Rattle.ml_kernel.specs.Theorems.{derivations};
ghost use Rattle.mm_claims.specs.AddedVariables.{added};
ghost use Rattle.mm_render.specs.ListedVariables.{listed};
ghost use Rattle.mm_render.specs.NeededView.{PutsDerivations, StepIsTaken};
ghost use Rattle.mm_claims.specs.OpenVariables.{variables_at, variables_for, variables_of};
ghost use Rattle.mm_render.specs.PlaceTable.{found_at};
ghost use Rattle.mm_claims.specs.Variables.{AreNumbered};
ghost use Rattle.mm_render.specs.VariablesView.{plain_variables, variable_of};

use crate::places::{StatementContext, found};
use crate::variables::{Variable, VariableList};
use ml_kernel::{Deriv, DerivStep, Inst, renamed};
use ml_pat::{MPat, VarNo};
use std::alloc::{AllocError, Global};

/// Some variables, and after them the other variables of a derivation, each once. Their numbers fit
/// in 64 bits.
pub(crate) fn needed_variables(
    alloc: Global,
    at: &StatementContext<'_>,
    variables: &[Variable],
    derivation: &Deriv,
) -> Result<Vec<Variable>, AllocError>
    ensures needed { IfOk result
        (λ all. plain_variables all.items ≡ added (plain_variables variables.now)
        (variables_of (found_at at.now) derivation.now)) }
    ensures numbered { OnOk result (AreNumbered (variables_of (found_at at.now) derivation.now)) }
{
    let mut list = VariableList::from_variables(alloc, variables)?;
    let mut stack = Vec::new(alloc);
    stack.push(derivation)?;
    while let Some(next) = stack.pop() {
        take_step(alloc, at, &mut list, &mut stack, next)?;
    }
    Ok(list.into_variables())
}

/// Adds the variables of a step, and puts the derivations below it on a stack, the first on top.
fn take_step<'a>(
    alloc: Global,
    at: &StatementContext<'_>,
    list: &mut VariableList,
    stack: &mut Vec<&'a Deriv>,
    derivation: &'a Deriv,
) -> Result<(), AllocError>
    ensures { OnOk result
        (StepIsTaken (found_at at.now) derivation.now stack.old.items stack.new.items
        (listed list.old) (listed list.new)) }
{
    match derivation.step() {
        DerivStep::Hyp(_) => Ok(()),
        DerivStep::Axiom(_, p, new) => {
            let cited = found(alloc, at, &[], p)?;
            add_values(alloc, list, cited.variables, new, &[])
        }
        DerivStep::ByRule(_, instances, parts) => {
            add_instances(alloc, list, instances)?;
            put_derivations(stack, parts)
        }
        DerivStep::Cited(lemma, patterns, parts) => {
            let cited = found(alloc, at, lemma.hypotheses(), lemma.conclusion())?;
            add_values(alloc, list, cited.variables, &[], patterns)?;
            put_derivations(stack, parts)
        }
    }
}

/// Adds the variables of what is substituted for the variables of a claim.
fn add_values(
    alloc: Global,
    list: &mut VariableList,
    variables: &[Variable],
    new: &[VarNo],
    patterns: &[MPat],
) -> Result<(), AllocError>
    ensures { OnOk result (listed list.new ≡ added (listed list.old)
        (flat_map (variables_at (numbers_of new.now) patterns.now)
        (plain_variables variables.now))) }
{
    for variable in variables {
        add_value(alloc, list, *variable, new, patterns)?;
    }
    Ok(())
}

/// Adds the variables of what is substituted for a variable of a claim.
fn add_value(
    alloc: Global,
    list: &mut VariableList,
    variable: Variable,
    new: &[VarNo],
    patterns: &[MPat],
) -> Result<(), AllocError>
    ensures { OnOk result (listed list.new
        ≡ added (listed list.old)
        (variables_at (numbers_of new.now) patterns.now (variable_of variable))) }
{
    match variable {
        Variable::Object(x) => list.add(Variable::Object(renamed(new, x))),
        Variable::Pattern(i) => match patterns.get(i as usize) {
            Some(pattern) => list.add_all(alloc, pattern),
            None => list.add(variable),
        },
    }
}

/// Adds the variables of what is substituted for the variables of a rule.
fn add_instances(
    alloc: Global,
    list: &mut VariableList,
    instances: &[Inst],
) -> Result<(), AllocError>
    ensures { OnOk result (listed list.new
        ≡ added (listed list.old) (flat_map variables_for (instances_of instances.now))) }
{
    for instance in instances {
        add_instance(alloc, list, instance)?;
    }
    Ok(())
}

/// Adds the variables of what is substituted for a variable of a rule.
fn add_instance(alloc: Global, list: &mut VariableList, instance: &Inst) -> Result<(), AllocError>
    ensures { OnOk result
        (listed list.new ≡ added (listed list.old) (variables_for (instance_of instance.now))) }
{
    match instance {
        Inst::Pat(p) => list.add_all(alloc, p),
        Inst::Var(x) => list.add(Variable::Object(*x)),
        Inst::Sort(_) => Ok(()),
    }
}

/// Puts derivations on a stack, the first on top.
fn put_derivations<'a>(stack: &mut Vec<&'a Deriv>, parts: &'a [Deriv]) -> Result<(), AllocError>
    ensures { OnOk result
        (PutsDerivations (derivations parts.now) stack.old.items stack.new.items) }
{
    for part in parts.iter().rev() {
        stack.push(part)?;
    }
    Ok(())
}
