// The condition of a rule that matches a configuration and is not used.
ghost use Rattle.std.specs.Prelude.{◌≡◌, IfOk, Some, []};
ghost use Rattle.term_core.specs.RulePatterns.{plain_pattern};
ghost use Rattle.rule_core.specs.FirstRule.{Matches};
ghost use Rattle.rule_core.specs.ProgramView.{rewrite_rule, theory_of};
ghost use Rattle.rule_core.specs.RecordView.{plain_record};
ghost use Rattle.rule_core.specs.WellSorted.{IsRuleOf};
ghost use Rattle.ml_image.specs.Premises.{is_true, sort_of};
ghost use Rattle.ml_image.specs.Sentences.{not, sentence_image};
ghost use Rattle.prove_term.specs.Contexts.{HasGrown, StaysIn};
ghost use Rattle.prove_term.specs.Filling.{filled};
ghost use Rattle.prove_fun.specs.KeptLemmas.{IsKeptIn};
ghost use Rattle.term_core.specs.Patterns.{Pattern};
ghost use Rattle.stuck_prove.specs.Settings.{DeniesBody, IsSettingOf};
ghost use Rattle.stuck_prove.specs.Trials.{AreOfOneSort, IsPassed, IsShowable, IsUntrue};

use crate::bodies::{condition_in, equations_in};
use crate::settings::Setting;
use fun_eval::{Budget, Engine, EvalEnd, MAX_NESTING};
use ml_image::sort_of;
use ml_kernel::Thm;
use prove_fun::{LemmaPlaces, value_eq};
use prove_term::Cx;
use refute::{inversion_named, not_true};
use refute_body::{conjuncts, denied_by, filled, sides, weaker};
use rule_core::{EvalRecord, Rule};
use std::alloc::{AllocError, Global};
use term_core::{Subst, Term};

// The record of the evaluation of a rule's condition, which fails.
pub(crate) fn evaluated(
    alloc: Global,
    engine: &Engine<'_>,
    rule: &Rule,
    subst: &Subst,
    config: &Term,
    budget: &mut Budget,
) -> Result<EvalRecord, AllocError>
    requires sorted { AreOfOneSort engine.now (rewrite_rule rule.now) config.now }
    requires matches { Matches (theory_of engine.now) (rewrite_rule rule.now) config.now subst.now }
    requires passed { (d : _) × IsPassed (theory_of engine.now) (rewrite_rule rule.now) config.now
        budget.old.calls d }
    ensures untrue { IfOk result
        (λ r. IsUntrue (theory_of engine.now) (rewrite_rule rule.now) subst.now (plain_record r)) }
    ensures passed { IfOk result (λ _. (d : _)
        → IsPassed (theory_of engine.now) (rewrite_rule rule.now) config.now budget.old.calls d
        → budget.new.calls ≡ d) }
{
    let Some(condition) = &rule.cond else {
        unreachable!()
    };
    // The program is well sorted, and the configuration is not too high.
    let _program = engine.program();
    let _high = config.height();
    match engine.eval(alloc, condition, subst, budget, MAX_NESTING) {
        Ok(record) => Ok(record),
        Err(EvalEnd::Memory) => Err(AllocError),
        Err(EvalEnd::Blocked(_)) => unreachable!(),
    }
}

// Proves that the body does not hold, as the rule matches the configuration and its condition is not
// true.
pub(crate) fn by_condition(
    alloc: Global,
    cx: &mut Cx<'_>,
    kept: &mut LemmaPlaces,
    rule: &Rule,
    setting: &Setting,
    config: &Term,
    subst: &Subst,
    evaluation: &EvalRecord,
) -> Result<Thm, AllocError>
    requires showable { IsShowable cx.old.program }
    requires sorted { AreOfOneSort cx.old.program (rewrite_rule rule.now) config.now }
    requires setting { IsSettingOf cx.old (rewrite_rule rule.now) setting.now }
    requires matches { Matches (theory_of cx.old.program) (rewrite_rule rule.now) config.now
        subst.now }
    requires untrue { IsUntrue (theory_of cx.old.program) (rewrite_rule rule.now) subst.now
        (plain_record evaluation.now) }
    requires kept { IsKeptIn cx.old kept.old }
    ensures denied { IfOk result
        (DeniesBody cx.new (rewrite_rule rule.now) config.now setting.now) }
    ensures grown { HasGrown cx.old cx.new }
    ensures kept { IsKeptIn cx.new kept.new }
{
    let rule_at = inversion_named(
        alloc,
        cx,
        &setting.sorts,
        &rule.left,
        &rule.named,
        subst,
        config,
    )?;
    let (premise, _) = sides(rule_at.conclusion());
    let (h, both) = conjuncts(premise);
    let (g, c) = (&setting.given.hypothesis, &setting.condition);
    let weaker = weaker(alloc, cx, &setting.sorts, &setting.given, h)?;
    let equations = equations_in(alloc, g, c, &rule_at, &weaker)?;
    let start = condition_in(alloc, g, both, c)?;
    let present = filled(alloc, equations, start)?;
    let denial = untrue(alloc, cx, kept, rule, config, subst, evaluation)?;
    denied_by(alloc, &present, &denial)
}

// Proves that the condition, with the terms of the substitution in place of its variables, is not
// true.
fn untrue(
    alloc: Global,
    cx: &mut Cx<'_>,
    kept: &mut LemmaPlaces,
    rule: &Rule,
    config: &Term,
    subst: &Subst,
    evaluation: &EvalRecord,
) -> Result<Thm, AllocError>
    requires showable { IsShowable cx.old.program }
    requires sorted { AreOfOneSort cx.old.program (rewrite_rule rule.now) config.now }
    requires matches { Matches (theory_of cx.old.program) (rewrite_rule rule.now) config.now
        subst.now }
    requires untrue { IsUntrue (theory_of cx.old.program) (rewrite_rule rule.now) subst.now
        (plain_record evaluation.now) }
    requires kept { IsKeptIn cx.old kept.old }
    ensures says { IfOk result (λ t. (q : Pattern) (s : _)
        → (rewrite_rule rule.now).condition ≡ Some q
        → sort_of cx.new.program.sig (rewrite_rule rule.now).variables q ≡ Some s
        → sentence_image cx.new.program.sig cx.new.names (not (is_true (filled subst.now q) s))
        ≡ Some t.conclusion) }
    ensures stays { IfOk result (StaysIn cx.new) }
    ensures grown { HasGrown cx.old cx.new }
    ensures kept { IsKeptIn cx.new kept.new }
{
    let Some(condition) = &rule.cond else {
        unreachable!()
    };
    let Some(sort) = sort_of(&cx.program().sig, &rule.vars, condition) else {
        unreachable!()
    };
    // The terms of the substitution are not too high.
    let _high = config.height();
    let value = value_eq(alloc, cx, kept, condition, subst, evaluation)?;
    not_true(alloc, cx, &value, evaluation.result(), sort)
}
