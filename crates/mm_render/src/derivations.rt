// The proof by a derivation. What is still to be built is on a stack, so a deep derivation needs no
// deep stack of calls.
ghost use Rattle.std.specs.Prelude.{◌≡◌, ◌+◌, ◌*◌, [], ◌∷◌, ◌++◌, OnOk, map};
ghost use Rattle.ml_pat.specs.Patterns.{bot};
ghost use Rattle.ml_kernel.specs.StepView.{instances_of, numbers_of};
ghost use Rattle.ml_kernel.specs.StepsIn.{all_steps};
ghost use Rattle.ml_kernel.specs.Theorems.{derivations};
ghost use Rattle.mm_proof.specs.Labels.{own_labels};
ghost use Rattle.mm_proof.specs.Listings.{Builds};
ghost use Rattle.mm_proof.specs.Trees.{instance_tree, rule_tree, trees_after, trees_before};
ghost use Rattle.mm_claims.specs.CitedAt.{claim_tree};
ghost use Rattle.mm_render.specs.ClaimView.{plain_claim};
ghost use Rattle.mm_render.specs.Parts.{PartIsTaken, PutsOver, PutsTrees, StepIsTaken};
ghost use Rattle.mm_render.specs.Parts.{WritesProofOf, citing_in, proof_by, proofs_by, value_trees};
ghost use Rattle.mm_render.specs.PlaceTable.{found_at};
ghost use Rattle.mm_render.specs.VariablesView.{variable_of};

use crate::claims::Claim;
use crate::mandatory::mandatory_labels;
use crate::places::{StatementContext, found, premise_of};
use crate::variables::Variable;
use ml_kernel::{Deriv, DerivStep, Inst, Rule, renamed};
use ml_pat::{MPat, VarNo};
use mm_proof::{
    Goal, Label, ProofTable, judgements, pattern_at, prove_before, prove_goal, prove_instances,
    variable_at,
};
use std::alloc::AllocError;

/// A part of a proof that is still to be built.
#[derive(Clone, Copy)]
pub(crate) enum Part<'a> {
    /// The proof of a goal.
    Goal(Goal<'a>),
    /// A label over this many proofs.
    Cite(Label, usize),
    /// The proof by a derivation.
    Derived(&'a Deriv),
}

/// Writes the proof of a claim by a derivation, in the statement `at`. The old trees in `table` are
/// dropped.
pub(crate) fn write_derivation(
    to: &mut Vec<u8>,
    table: &mut ProofTable,
    at: &StatementContext<'_>,
    claim: &Claim,
    derivation: &Deriv,
) -> Result<(), AllocError>
    ensures { OnOk result (WritesProofOf at.now (plain_claim claim.now) derivation.now
        to.old.items to.new.items) }
{
    table.start(at.serial);
    prove_derivation(table, at, derivation)?;
    let mandatory = mandatory_labels(table.allocator(), claim)?;
    table.push_proof(to, &mandatory)
}

/// Builds the proof by a derivation, in the statement `at`.
fn prove_derivation(
    table: &mut ProofTable,
    at: &StatementContext<'_>,
    derivation: &Deriv,
) -> Result<(), AllocError>
    ensures { OnOk result
        (Builds (λ k. proof_by k at.now derivation.now ∷ []) table.old table.new) }
{
    let alloc = table.allocator();
    let nothing = MPat::bot(alloc)?;
    let mut stack = Vec::new(alloc);
    stack.push(Part::Derived(derivation))?;
    while let Some(next) = stack.pop() {
        take_part(table, at, &nothing, &mut stack, next)?;
    }
    Ok(())
}

/// Builds a part, or splits a derivation.
fn take_part<'a>(
    table: &mut ProofTable,
    at: &StatementContext<'_>,
    nothing: &'a MPat,
    stack: &mut Vec<Part<'a>>,
    part: Part<'a>,
) -> Result<(), AllocError>
    requires { nothing.now ≡ bot }
    ensures { OnOk result (PartIsTaken at.now part.entry stack.old.items stack.new.items table.old
        table.new) }
{
    match part {
        Part::Goal(goal) => prove_goal(table, goal),
        Part::Cite(label, takes) => table.cite(label, takes),
        Part::Derived(derivation) => take_step(table, at, nothing, stack, derivation),
    }
}

/// Builds a derivation without parts, or splits a step of a derivation.
fn take_step<'a>(
    table: &mut ProofTable,
    at: &StatementContext<'_>,
    nothing: &'a MPat,
    stack: &mut Vec<Part<'a>>,
    derivation: &'a Deriv,
) -> Result<(), AllocError>
    requires { nothing.now ≡ bot }
    ensures { OnOk result (StepIsTaken at.now derivation.now stack.old.items stack.new.items
        table.old table.new) }
{
    match derivation.step() {
        DerivStep::Hyp(p) => cite_premise(table, at, p),
        DerivStep::Axiom(_, p, new) => start_citation(table, at, stack, &[], p, new, &[], &[]),
        DerivStep::Cited(lemma, patterns, parts) => start_citation(
            table,
            at,
            stack,
            lemma.hypotheses(),
            lemma.conclusion(),
            &[],
            patterns,
            parts,
        ),
        DerivStep::ByRule(rule, instances, parts) => {
            prove_instances(table, instances)?;
            prove_before(table, *rule, instances, nothing)?;
            put_rule(stack, *rule, instances, nothing, parts)
        }
    }
}

/// Builds the proof of a hypothesis.
fn cite_premise(
    table: &mut ProofTable,
    at: &StatementContext<'_>,
    pattern: &MPat,
) -> Result<(), AllocError>
    ensures { OnOk result
        (Builds (λ k. (citing_in k at.now).premise pattern.now ∷ []) table.old table.new) }
{
    let place = premise_of(table.allocator(), at, pattern)?;
    prove_goal(table, Goal::Leaf(Label::Premise(place)))
}

/// Builds the proofs of what is substituted for the variables of a claim that is cited; object
/// variables get new numbers. Puts on a stack what is left of the citation: the proofs of its
/// hypotheses and its label.
fn start_citation<'a>(
    table: &mut ProofTable,
    at: &StatementContext<'_>,
    stack: &mut Vec<Part<'a>>,
    hypotheses: &[MPat],
    conclusion: &MPat,
    new: &[VarNo],
    patterns: &[MPat],
    parts: &'a [Deriv],
) -> Result<(), AllocError>
    ensures values { OnOk result
        (Builds (λ k. value_trees k (numbers_of new.now) patterns.now
        (found_at at.now hypotheses.now conclusion.now).claim.variables) table.old table.new) }
    ensures stack { OnOk result (PutsOver
        (λ k s. value_trees k (numbers_of new.now) patterns.now
        (found_at at.now hypotheses.now conclusion.now).claim.variables)
        (λ k s. claim_tree (own_labels k) (found_at at.now hypotheses.now conclusion.now)
        (numbers_of new.now) patterns.now (proofs_by k s (derivations parts.now)))
        (3 * all_steps (derivations parts.now) + 1) stack.old.items stack.new.items) }
{
    let cited = found(table.allocator(), at, hypotheses, conclusion)?;
    for variable in cited.variables {
        prove_value(table, *variable, new, patterns)?;
    }
    let takes = cited.variables.len() + parts.len();
    stack.push(Part::Cite(Label::Stated(cited.number), takes))?;
    put_derived(stack, parts)
}

/// Builds the proof of what is substituted for a variable of a claim that is cited at some object
/// variables and patterns.
fn prove_value(
    table: &mut ProofTable,
    variable: Variable,
    new: &[VarNo],
    patterns: &[MPat],
) -> Result<(), AllocError>
    ensures { OnOk result
        (Builds (λ k. value_trees k (numbers_of new.now) patterns.now (variable_of variable ∷ []))
        table.old table.new) }
{
    match variable {
        Variable::Object(x) => prove_goal(table, Goal::Leaf(Label::Object(renamed(new, x).0))),
        Variable::Pattern(i) => match patterns.get(i as usize) {
            Some(pattern) => prove_goal(table, Goal::Syntax(pattern)),
            None => prove_goal(table, Goal::Leaf(Label::Meta(i))),
        },
    }
}

/// Puts derivations on a stack, the first on top.
fn put_derived<'a>(stack: &mut Vec<Part<'a>>, parts: &'a [Deriv]) -> Result<(), AllocError>
    ensures { OnOk result
        (PutsTrees (λ k s. proofs_by k s (derivations parts.now))
        (3 * all_steps (derivations parts.now)) stack.old.items stack.new.items) }
{
    for part in parts.iter().rev() {
        stack.push(Part::Derived(part))?;
    }
    Ok(())
}

/// Puts on a stack what is left of a rule: the proofs of its premises, the judgement after them,
/// and its label.
fn put_rule<'a>(
    stack: &mut Vec<Part<'a>>,
    rule: Rule,
    instances: &'a [Inst],
    nothing: &'a MPat,
    parts: &'a [Deriv],
) -> Result<(), AllocError>
    requires { nothing.now ≡ bot }
    ensures { OnOk result (PutsOver
        (λ k s. map (instance_tree (own_labels k)) (instances_of instances.now)
        ++ trees_before (own_labels k) rule (instances_of instances.now))
        (λ k s. rule_tree (own_labels k) rule (instances_of instances.now)
        (proofs_by k s (derivations parts.now)))
        (3 * all_steps (derivations parts.now) + 2) stack.old.items stack.new.items) }
{
    let takes = instances.len() + judgements(rule) + parts.len();
    stack.push(Part::Cite(Label::Row(rule.label()), takes))?;
    put_after(stack, rule, instances, nothing)?;
    put_derived(stack, parts)
}

/// Puts on a stack the judgement of a rule that comes after the proofs of its premises, if it has
/// one.
fn put_after<'a>(
    stack: &mut Vec<Part<'a>>,
    rule: Rule,
    instances: &'a [Inst],
    nothing: &'a MPat,
) -> Result<(), AllocError>
    requires { nothing.now ≡ bot }
    ensures { OnOk result
        (PutsTrees (λ k s. trees_after (own_labels k) rule (instances_of instances.now)) 1
        stack.old.items stack.new.items) }
{
    match rule {
        Rule::ExEl => {
            let judged = Goal::Fresh(variable_at(instances, 2), pattern_at(instances, 1, nothing));
            stack.push(Part::Goal(judged))?;
            Ok(())
        }
        _ => Ok(()),
    }
}
