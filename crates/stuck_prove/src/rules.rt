// One rule that is not used at a configuration.
ghost use Rattle.std.specs.Prelude.{◌≡◌, IfOk};
ghost use Rattle.rule_core.specs.Matching.{NoneMatches};
ghost use Rattle.rule_core.specs.ProgramView.{rewrite_rule, theory_of};
ghost use Rattle.term_core.specs.Terms.{more_trees, no_tree};
ghost use Rattle.term_core.specs.Patterns.{more_patterns, no_pattern};
ghost use Rattle.prove_term.specs.Contexts.{HasGrown};
ghost use Rattle.prove_fun.specs.KeptLemmas.{IsKeptIn};
ghost use Rattle.stuck_prove.specs.RefutedRules.{SaysNotMet};
ghost use Rattle.stuck_prove.specs.Settings.{DeniesBody, IsSettingOf};
ghost use Rattle.stuck_prove.specs.Trials.{AreOfOneSort, IsPassed, IsShowable};

use crate::bodies::none_in;
use crate::conditions::{by_condition, evaluated};
use crate::matching::found;
use crate::settings::{Setting, setting_of};
use fun_eval::{Budget, Engine};
use ml_derived::to_not;
use ml_kernel::Thm;
use prove_fun::LemmaPlaces;
use prove_term::Cx;
use refute::mismatch_named;
use refute_body::{closed, sides, weaker};
use rule_core::Rule;
use std::alloc::{AllocError, Global};
use term_core::Term;

// Proves that the configuration does not meet the rule. The condition takes its calls from the
// budget.
pub(crate) fn rule_not_met(
    alloc: Global,
    cx: &mut Cx<'_>,
    kept: &mut LemmaPlaces,
    engine: &Engine<'_>,
    rule: &Rule,
    config: &Term,
    budget: &mut Budget,
) -> Result<Thm, AllocError>
    requires program { cx.old.program ≡ engine.now }
    requires showable { IsShowable cx.old.program }
    requires sorted { AreOfOneSort engine.now (rewrite_rule rule.now) config.now }
    requires passed { (d : _) × IsPassed (theory_of engine.now) (rewrite_rule rule.now) config.now
        budget.old.calls d }
    requires kept { IsKeptIn cx.old kept.old }
    ensures says { IfOk result (SaysNotMet cx.new config.now (rewrite_rule rule.now)) }
    ensures passed { IfOk result (λ _. (d : _)
        → IsPassed (theory_of engine.now) (rewrite_rule rule.now) config.now budget.old.calls d
        → budget.new.calls ≡ d) }
    ensures grown { HasGrown cx.old cx.new }
    ensures kept { IsKeptIn cx.new kept.new }
{
    let setting = setting_of(alloc, cx, rule)?;
    let none = body_denied(alloc, cx, kept, engine, rule, &setting, config, budget)?;
    let none = closed(alloc, none, rule.vars.len())?;
    let (some, _) = sides(none.conclusion());
    to_not(alloc, &none, some)
}

// Proves that the body does not hold under the hypothesis on the rule's variables.
fn body_denied(
    alloc: Global,
    cx: &mut Cx<'_>,
    kept: &mut LemmaPlaces,
    engine: &Engine<'_>,
    rule: &Rule,
    setting: &Setting,
    config: &Term,
    budget: &mut Budget,
) -> Result<Thm, AllocError>
    requires program { cx.old.program ≡ engine.now }
    requires showable { IsShowable cx.old.program }
    requires sorted { AreOfOneSort engine.now (rewrite_rule rule.now) config.now }
    requires setting { IsSettingOf cx.old (rewrite_rule rule.now) setting.now }
    requires passed { (d : _) × IsPassed (theory_of engine.now) (rewrite_rule rule.now) config.now
        budget.old.calls d }
    requires kept { IsKeptIn cx.old kept.old }
    ensures denied { IfOk result
        (DeniesBody cx.new (rewrite_rule rule.now) config.now setting.now) }
    ensures passed { IfOk result (λ _. (d : _)
        → IsPassed (theory_of engine.now) (rewrite_rule rule.now) config.now budget.old.calls d
        → budget.new.calls ≡ d) }
    ensures grown { HasGrown cx.old cx.new }
    ensures kept { IsKeptIn cx.new kept.new }
{
    match found(alloc, engine.program(), rule, config)? {
        None => by_mismatch(alloc, cx, rule, setting, config),
        Some(subst) => {
            let record = evaluated(alloc, engine, rule, &subst, config, budget)?;
            by_condition(alloc, cx, kept, rule, setting, config, &subst, &record)
        }
    }
}

// Proves that the body does not hold, as the rule does not match the configuration.
fn by_mismatch(
    alloc: Global,
    cx: &mut Cx<'_>,
    rule: &Rule,
    setting: &Setting,
    config: &Term,
) -> Result<Thm, AllocError>
    requires showable { IsShowable cx.old.program }
    requires sorted { AreOfOneSort cx.old.program (rewrite_rule rule.now) config.now }
    requires setting { IsSettingOf cx.old (rewrite_rule rule.now) setting.now }
    requires none { NoneMatches cx.old.program.sig (rewrite_rule rule.now).variables
        (more_patterns (rewrite_rule rule.now).left no_pattern)
        (more_trees config.now no_tree) }
    ensures denied { IfOk result
        (DeniesBody cx.new (rewrite_rule rule.now) config.now setting.now) }
    ensures grown { HasGrown cx.old cx.new }
{
    let none = mismatch_named(alloc, cx, &setting.sorts, &rule.left, &rule.named, config)?;
    let (h, _) = sides(none.conclusion());
    let weaker = weaker(alloc, cx, &setting.sorts, &setting.given, h)?;
    none_in(
        alloc,
        &setting.given.hypothesis,
        &setting.condition,
        &none,
        &weaker,
    )
}
