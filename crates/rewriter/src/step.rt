// A step by the first rule that applies.
ghost use Rattle.std.specs.Prelude.{◌≡◌, IfOk};
ghost use Rattle.rule_core.specs.ProgramView.{theory_of};
ghost use Rattle.match_tree.specs.Programs.{IsRuleTree};
ghost use Rattle.match_tree.specs.SlotView.{HasRoom};
ghost use Rattle.rewriter.specs.Configurations.{IsConfiguration};
ghost use Rattle.rewriter.specs.Stepping.{Advances};
ghost use Rattle.rewriter.specs.Keeping.{KeepsFurther};

use crate::rules::{Choice, choose_rule, rule_of};
use fun_eval::{Answer, Budget, Engine, EvalEnd, MAX_NESTING, Recording};
use match_tree::{Slots, Tree};
use std::alloc::Global;
use term_core::{Subst, Term};

/// A step, like a `StepRecord`, with what is recorded of its evaluations.
#[derive(Drop)]
pub struct Made<R> {
    /// The number of the rule.
    pub rule: u32,
    /// The substitution that makes the rule's left side the term.
    pub subst: Subst,
    /// What is recorded of its condition, if it has one.
    pub cond: Option<R>,
    /// What is recorded of its right side.
    pub right: R,
}

// A step, the next configuration, and how many calls are left.
#[derive(Drop)]
pub(crate) struct Further<R> {
    pub(crate) made: Made<R>,
    pub(crate) config: Term,
    pub(crate) calls: u32,
}

// The step from a configuration, if a rule applies.
pub(crate) fn advance<R: Recording>(
    alloc: Global,
    engine: &Engine<'_>,
    tree: &Tree<'_>,
    slots: &mut Slots,
    config: &Term,
    calls: u32,
) -> Result<Option<Further<R>>, EvalEnd>
    requires config { IsConfiguration (theory_of engine.now) config.now }
    requires tree { IsRuleTree (theory_of engine.now) tree.now }
    requires room { HasRoom tree.now slots.old }
    ensures advances { Advances R.tells (theory_of engine.now) config.now calls result }
    ensures kept { IfOk result (KeepsFurther tree.now config.now slots.new) }
    ensures room { HasRoom tree.now slots.new }
{
    let (chosen, left) = choose_rule::<R>(alloc, engine, tree, slots, config, calls)?;
    let Some(chosen) = chosen else {
        return Ok(None);
    };
    let Choice {
        number,
        subst,
        cond,
    } = chosen;
    let rule = rule_of(engine, number);
    // The program is well-sorted, and the height of the configuration is at most the greatest one.
    let _program = engine.program();
    let _high = config.height();
    let mut budget = Budget { calls: left };
    let answer = engine.eval_as::<R>(alloc, &rule.right, &subst, &mut budget, MAX_NESTING)?;
    let Answer { term, recorded } = answer;
    let made = Made {
        rule: number,
        subst,
        cond,
        right: recorded,
    };
    Ok(Some(Further {
        made,
        config: term,
        calls: budget.calls,
    }))
}
