// A rule as a lemma, with a pattern variable for each variable of the rule.
ghost use Rattle.std.specs.Prelude.{◌≡◌, IfOk};
ghost use Rattle.ml_derived.specs.Implications.{HasCondition};
ghost use Rattle.prove_schema.specs.Assumptions.{HoldsByParts};
ghost use Rattle.prove_term.specs.Contexts.{HasGrown, IsLemmaIn};
ghost use Rattle.prove_term.specs.RuleAxioms.{HasImageAt};
ghost use Rattle.prove_step.specs.RuleLemmas.{IsCondition, IsConditional, SaysSchemaAt};

use ml_derived::{assume, free_of_condition, top};
use ml_kernel::Thm;
use ml_pat::{MForm, MPat};
use prove_schema::schema;
use prove_term::Cx;
use std::alloc::{AllocError, Global};

// Turns the rule at a place into a lemma. It assumes that each pattern variable is one element of
// the sort of the rule's variable, and that the rule's condition holds, if there is one.
pub(crate) fn rule_schema(alloc: Global, cx: &mut Cx<'_>, rule: u32) -> Result<Thm, AllocError>
    requires { HasImageAt cx.old.program rule }
    ensures says { IfOk result (SaysSchemaAt cx.new rule) }
    ensures lemma { IfOk result (IsLemmaIn cx.new) }
    ensures grown { HasGrown cx.old cx.new }
{
    let axiom = cx.rule_axiom(alloc, rule)?;
    let whole = schema(alloc, axiom)?;
    let held = assumed(alloc, condition(whole.conclusion()))?;
    free_of_condition(alloc, &whole, &held)
}

// Proves what a condition says by assuming it. The condition `top` is not assumed.
fn assumed(alloc: Global, condition: &MPat) -> Result<Thm, AllocError>
    requires { IsCondition condition.now }
    ensures conclusion { IfOk result (λ t. t.conclusion ≡ condition.now) }
    ensures stays { IfOk result (HoldsByParts condition.now) }
{
    match condition.form() {
        MForm::Top => top(alloc),
        _ => assume(alloc, condition.share()?),
    }
}

// Returns the condition under which something follows.
fn condition(rule: &MPat) -> &MPat
    requires { IsConditional rule.now }
    ensures { HasCondition result.now rule.now }
{
    let MForm::Imp(from, _) = rule.form() else {
        unreachable!()
    };
    let MForm::And(_, condition) = from.form() else {
        unreachable!()
    };
    condition
}
