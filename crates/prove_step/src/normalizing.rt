// From the step of a rule as it is written to the step with normal terms. Injections of injections
// are made one, and the right side is replaced by its value.
ghost use Rattle.std.specs.Prelude.{ℕ, List, IfOk};
ghost use Rattle.term_core.specs.Instances.{FitsWithin};
ghost use Rattle.term_core.specs.Patterns.{more_patterns, no_pattern};
ghost use Rattle.term_core.specs.RulePatterns.{plain_pattern};
ghost use Rattle.rule_core.specs.Evaluation.{most_height};
ghost use Rattle.rule_core.specs.Matching.{RespectsSorts};
ghost use Rattle.rule_core.specs.ProgramView.{names_of};
ghost use Rattle.rule_core.specs.RecordView.{plain_step};
ghost use Rattle.rule_core.specs.Sorting.{HasSort};
ghost use Rattle.rule_core.specs.WellSorted.{IsSignature};
ghost use Rattle.ml_image.specs.NamedSides.{of_child};
ghost use Rattle.prove_term.specs.Contexts.{HasGrown, StaysIn};
ghost use Rattle.prove_term.specs.FilledSides.{AreBoundToParts, SaysNamedImage};
ghost use Rattle.prove_fun.specs.KeptLemmas.{IsKeptIn};
ghost use Rattle.prove_step.specs.Applying.{IsStepOf, SaysFilledAt};
ghost use Rattle.prove_step.specs.KeptSides.{AreSideLemmas};
ghost use Rattle.prove_step.specs.Normalizing.{SaysStepOf};

use crate::meeting::meet_in;
use crate::side_lemmas::{Side, SideLemmas};
use crate::turning::turned;
use ml_kernel::Thm;
use prove_fun::{LemmaPlaces, eval_eq};
use prove_term::{Cx, inj_eq_named};
use rule_core::{Rule, StepRecord};
use std::alloc::{AllocError, Global};
use term_core::Subst;

// Proves the recorded step, from the theorem that says it of the rule's sides with terms in place
// of the variables.
pub(crate) fn normalized(
    alloc: Global,
    cx: &mut Cx<'_>,
    kept: &mut LemmaPlaces,
    lemmas: &mut SideLemmas,
    step: &StepRecord,
    written: Thm,
) -> Result<Thm, AllocError>
    requires step { IsStepOf cx.old.program (plain_step step.now) }
    requires says { SaysFilledAt cx.old step.now.rule step.now.subst written.conclusion }
    requires stays { StaysIn cx.old written }
    requires kept { IsKeptIn cx.old kept.old }
    requires lemmas { AreSideLemmas cx.old lemmas.old }
    ensures says { IfOk result (λ thm. SaysStepOf cx.new (plain_step step.now) thm.conclusion) }
    ensures stays { IfOk result (StaysIn cx.new) }
    ensures grown { HasGrown cx.old cx.new }
    ensures kept { IsKeptIn cx.new kept.new }
    ensures lemmas { AreSideLemmas cx.new lemmas.new }
{
    let rule = &cx.program().rules[step.rule as usize];
    let left = compared(alloc, cx, rule, &step.subst)?;
    let right = eval_eq(alloc, cx, kept, &rule.right, &step.subst, &step.right)?;
    let from = turned(alloc, cx, lemmas, Side::Left, &left, written)?;
    turned(alloc, cx, lemmas, Side::Right, &right, from)
}

// Proves that the image of what the left side of a rule becomes as it is written, with the names of
// its parts, equals the image of its normal form. If no part has a name and no two injections meet,
// no theorem is made.
fn compared(
    alloc: Global,
    cx: &mut Cx<'_>,
    rule: &Rule,
    subst: &Subst,
) -> Result<Option<Thm>, AllocError>
    requires signature { IsSignature cx.old.program.sig }
    requires sorted { (variables : List ℕ) × (sort : ℕ)
        × HasSort cx.old.program.sig variables (plain_pattern rule.now.left) sort
        × RespectsSorts cx.old.program.sig variables subst.now }
    requires fits { FitsWithin most_height subst.now (plain_pattern rule.now.left) }
    requires named { AreBoundToParts subst.now
        (more_patterns (plain_pattern rule.now.left) no_pattern) (names_of rule.now.named.items) }
    ensures says { IfOk result
        (SaysNamedImage cx.new subst.now (of_child 0 (names_of rule.now.named.items))
        (plain_pattern rule.now.left)) }
    ensures grown { HasGrown cx.old cx.new }
{
    if rule.named.is_empty() && !meet_in(&rule.left, subst) {
        return Ok(None);
    }
    inj_eq_named(alloc, cx, &rule.left, &rule.named, 0, subst)
}
