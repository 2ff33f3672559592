// Rules: what is substituted for their variables, and their judgements.
ghost use Rattle.std.specs.Prelude.{◌≡◌, ◌≤◌, ◌+◌, List, [], ◌∷◌, OnOk, length, map};
ghost use Rattle.ml_pat.specs.Patterns.{bot};
ghost use Rattle.ml_kernel.specs.Rules.{Instance};
ghost use Rattle.ml_kernel.specs.StepView.{instances_of};
ghost use Rattle.mm_proof.specs.Tokens.{Naming};
ghost use Rattle.mm_proof.specs.Labels.{own_labels};
ghost use Rattle.mm_proof.specs.Listings.{Builds};
ghost use Rattle.mm_proof.specs.Trees.{instance_tree, pattern_at, trees_before, trees_after};
ghost use Rattle.mm_proof.specs.Trees.{variable_at};

use crate::table::ProofTable;
use crate::words::Label;
use crate::works::{Goal, prove_goal, prove_goals};
use ml_kernel::{Inst, Rule};
use ml_pat::{MPat, VarNo};
use std::alloc::AllocError;

/// Builds the proofs of what is substituted for the variables of a rule.
pub fn prove_instances(table: &mut ProofTable, instances: &[Inst]) -> Result<(), AllocError>
    ensures { OnOk result
        (Builds (λ k. map (instance_tree (own_labels k)) (instances_of instances.now)) table.old
        table.new) }
{
    for instance in instances {
        prove_instance(table, instance)?;
    }
    Ok(())
}

/// Builds the proof of what is substituted for a variable of a rule.
fn prove_instance(table: &mut ProofTable, instance: &Inst) -> Result<(), AllocError>
    ensures { OnOk result
        (Builds (λ k. map (instance_tree (own_labels k)) (instances_of (instance.now ∷ [])))
        table.old table.new) }
{
    match instance {
        Inst::Pat(p) => prove_goal(table, Goal::Syntax(p)),
        Inst::Var(x) => prove_goal(table, Goal::Leaf(Label::Object(x.0))),
        Inst::Sort(s) => prove_goal(table, Goal::Leaf(Label::Declared(s.0))),
    }
}

/// Builds the judgements of a rule that come before the proofs of its premises. A missing pattern is
/// taken to be nothing.
pub fn prove_before(
    table: &mut ProofTable,
    rule: Rule,
    instances: &[Inst],
    nothing: &MPat,
) -> Result<(), AllocError>
    requires { nothing.now ≡ bot }
    ensures { OnOk result
        (Builds (λ k. trees_before (own_labels k) rule (instances_of instances.now)) table.old
        table.new) }
{
    match rule {
        Rule::Inst => {
            let p = pattern_at(instances, 0, nothing);
            let q = pattern_at(instances, 1, nothing);
            let r = pattern_at(instances, 2, nothing);
            let judged = Goal::Substituted(variable_at(instances, 3), q, p, r);
            prove_goal(table, judged)
        }
        Rule::EqEl => {
            let p = pattern_at(instances, 0, nothing);
            let q = pattern_at(instances, 1, nothing);
            let r = pattern_at(instances, 2, nothing);
            let t = pattern_at(instances, 3, nothing);
            let u = pattern_at(instances, 4, nothing);
            let x = variable_at(instances, 5);
            let judged = [Goal::Substituted(x, p, r, t), Goal::Substituted(x, q, r, u)];
            prove_goals(table, &judged)
        }
        Rule::MemNo | Rule::AppL | Rule::AppR => {
            let judged = Goal::Predicate(pattern_at(instances, 2, nothing));
            prove_goal(table, judged)
        }
        _ => Ok(()),
    }
}

/// How many judgements a rule has, before and after the proofs of its premises.
pub fn judgements(rule: Rule) -> usize
    ensures judged { (l : Naming) (is : List Instance) →
        result ≡ length (trees_before l rule is) + length (trees_after l rule is) }
    ensures few { result ≤ 2 }
{
    match rule {
        Rule::EqEl => 2,
        Rule::Inst | Rule::MemNo | Rule::AppL | Rule::AppR | Rule::ExEl => 1,
        _ => 0,
    }
}

/// The pattern that is substituted for the variable of a rule at a place, or `nothing` if there is
/// no pattern at that place.
pub fn pattern_at<'a>(instances: &'a [Inst], at: usize, nothing: &'a MPat) -> &'a MPat
    requires { nothing.now ≡ bot }
    ensures { result.now ≡ pattern_at (instances_of instances.now) at }
{
    match instances.get(at) {
        Some(Inst::Pat(p)) => p,
        _ => nothing,
    }
}

/// The object variable that is substituted for the variable of a rule at a place.
pub fn variable_at(instances: &[Inst], at: usize) -> VarNo
    ensures { result.0 ≡ variable_at (instances_of instances.now) at }
{
    match instances.get(at) {
        Some(Inst::Var(x)) => *x,
        _ => VarNo(0),
    }
}
