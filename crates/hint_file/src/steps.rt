// A step by a rule that a line names.
ghost use Rattle.std.specs.Prelude.{◌≡◌, IfOk, MatchOption, Some, slice_get};
ghost use Rattle.rule_core.specs.FirstRule.{Matches, IsUnmatched};
ghost use Rattle.rule_core.specs.ProgramView.{theory_of, rewrite_rule};
ghost use Rattle.rewriter.specs.Configurations.{IsConfiguration};
ghost use Rattle.term_core.specs.RulePatterns.{plain_pattern};
ghost use Rattle.std.specs.Prelude.{option_map};
ghost use Rattle.hint_file.specs.ReadAnswers.{TestsCondition, TakesStepBy};

use fun_eval::{Budget, Engine, EvalEnd, MAX_NESTING, is_true};
use rule_core::{EvalRecord, Rule, StepRecord, first_match, with_names};
use std::alloc::{AllocError, Global};
use std::slice::from_ref;
use term_core::{Subst, Term};

// The step by a rule from a configuration, with the calls that it leaves, if the rule makes one.
pub(crate) fn step_by(
    alloc: Global,
    engine: &Engine<'_>,
    number: u32,
    rule: &Rule,
    config: &Term,
    calls: u32,
) -> Result<Option<(StepRecord, u32)>, EvalEnd>
    requires config { IsConfiguration (theory_of engine.now) config.now }
    requires rule { slice_get (theory_of engine.now).rules number ≡ Some (rewrite_rule rule.now) }
    ensures { TakesStepBy (theory_of engine.now) (rewrite_rule rule.now) number config.now calls
        result }
{
    let _program = engine.program();
    let _high = config.height();
    let Some(subst) = match_rule(alloc, engine, number, rule, config)? else {
        return Ok(None);
    };
    let Some((cond, left)) = test_condition(alloc, engine, number, rule, config, &subst, calls)?
    else {
        return Ok(None);
    };
    let mut budget = Budget { calls: left };
    let right = engine.eval(alloc, &rule.right, &subst, &mut budget, MAX_NESTING)?;
    let made = StepRecord {
        rule: number,
        subst,
        cond,
        right,
    };
    Ok(Some((made, budget.calls)))
}

// The substitution by which a rule matches a term, if there is one.
fn match_rule(
    alloc: Global,
    engine: &Engine<'_>,
    number: u32,
    rule: &Rule,
    config: &Term,
) -> Result<Option<Subst>, AllocError>
    requires config { IsConfiguration (theory_of engine.now) config.now }
    requires rule { slice_get (theory_of engine.now).rules number ≡ Some (rewrite_rule rule.now) }
    ensures { IfOk result (λ found. MatchOption found
        (IsUnmatched (theory_of engine.now) (rewrite_rule rule.now) config.now)
        (Matches (theory_of engine.now) (rewrite_rule rule.now) config.now)) }
{
    let program = engine.program();
    // The height of the term is at most the greatest height.
    let _high = config.height();
    let rules = from_ref(rule);
    let Some((_, subst)) = first_match(alloc, rules, &program.sig.subsorts, 0, config)? else {
        return Ok(None);
    };
    let subst = with_names(alloc, from_ref(&rule.left), &rule.named, subst)?;
    Ok(Some(subst))
}

// Whether the condition of a rule that matches holds. If so, it returns the condition's record and
// the calls that are left.
fn test_condition(
    alloc: Global,
    engine: &Engine<'_>,
    number: u32,
    rule: &Rule,
    config: &Term,
    subst: &Subst,
    calls: u32,
) -> Result<Option<(Option<EvalRecord>, u32)>, EvalEnd>
    requires config { IsConfiguration (theory_of engine.now) config.now }
    requires rule { slice_get (theory_of engine.now).rules number ≡ Some (rewrite_rule rule.now) }
    requires matches { Matches (theory_of engine.now) (rewrite_rule rule.now) config.now subst.now }
    ensures { TestsCondition (theory_of engine.now) subst.now
        (option_map plain_pattern rule.now.cond) calls result }
{
    let Some(cond) = &rule.cond else {
        return Ok(Some((None, calls)));
    };
    // The height of the term is at most the greatest height.
    let _high = config.height();
    let mut budget = Budget { calls };
    let tested = engine.eval(alloc, cond, subst, &mut budget, MAX_NESTING)?;
    if is_true(tested.result()) {
        Ok(Some((Some(tested), budget.calls)))
    } else {
        Ok(None)
    }
}
