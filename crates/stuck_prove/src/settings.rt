// What is proved of a rule's variables and its condition, before the rule is compared with a term.
ghost use Rattle.std.specs.Prelude.{◌≡◌, IfOk, Some, option_map};
ghost use Rattle.term_core.specs.RulePatterns.{plain_pattern, sort_numbers};
ghost use Rattle.rule_core.specs.ProgramView.{rewrite_rule, sorts_of};
ghost use Rattle.rule_core.specs.WellSorted.{IsRuleOf};
ghost use Rattle.ml_image.specs.Premises.{condition_sentence};
ghost use Rattle.ml_image.specs.Sentences.{Sentence, sentence_image};
ghost use Rattle.prove_term.specs.Contexts.{HasGrown};
ghost use Rattle.stuck_prove.specs.Settings.{IsSettingOf};
ghost use Rattle.stuck_prove.specs.Trials.{IsShowable};

use ml_image::{condition_laws, sort_of};
use ml_pat::MPat;
use prove_open::{Given, first_new};
use prove_term::Cx;
use rule_core::{Rule, VarInfo};
use std::alloc::{AllocError, Global};
use term_core::{RulePat, SortId, Value};

/// A rule's variables as a hypothesis, and the rule's condition.
#[derive(Drop)]
pub(crate) struct Setting {
    /// The sort of each variable.
    pub(crate) sorts: Vec<SortId>,
    /// Each variable is one element of its sort, the last one first.
    pub(crate) given: Given,
    /// The image of the condition.
    pub(crate) condition: MPat,
}

// The setting of a rule.
pub(crate) fn setting_of(alloc: Global, cx: &mut Cx<'_>, rule: &Rule) -> Result<Setting, AllocError>
    requires showable { IsShowable cx.old.program }
    requires rule { (sort : _) × IsRuleOf cx.old.program.sig sort (rewrite_rule rule.now) }
    ensures setting { IfOk result (IsSettingOf cx.new (rewrite_rule rule.now)) }
    ensures grown { HasGrown cx.old cx.new }
{
    let sorts = sorts_of(alloc, &rule.vars)?;
    let count = first_new(&sorts)?;
    let mut variables = Vec::with_capacity(alloc, sorts.len())?;
    for x in (0..count).rev() {
        variables.push(x)?;
    }
    let condition = condition_image(alloc, cx, rule)?;
    let given = Given::of(alloc, cx, &sorts, &variables)?;
    Ok(Setting {
        sorts,
        given,
        condition,
    })
}

// The sorts of variables.
fn sorts_of(alloc: Global, vars: &[VarInfo]) -> Result<Vec<SortId>, AllocError>
    ensures { IfOk result (λ v. sort_numbers v.items ≡ sorts_of vars.now) }
{
    let mut sorts = Vec::with_capacity(alloc, vars.len())?;
    for variable in vars {
        sorts.push(variable.sort)?;
    }
    Ok(sorts)
}

// The image of a rule's condition.
fn condition_image(alloc: Global, cx: &mut Cx<'_>, rule: &Rule) -> Result<MPat, AllocError>
    requires showable { IsShowable cx.old.program }
    requires rule { (sort : _) × IsRuleOf cx.old.program.sig sort (rewrite_rule rule.now) }
    ensures image { IfOk result (λ p. (c : Sentence)
        × (condition_sentence cx.new.program.sig (sorts_of rule.now.vars.items)
        (option_map plain_pattern rule.now.cond) ≡ Some c)
        × (sentence_image cx.new.program.sig cx.new.names c ≡ Some p)) }
    ensures grown { HasGrown cx.old cx.new }
{
    condition_laws();
    let Some(condition) = &rule.cond else {
        return MPat::top(alloc);
    };
    let Some(sort) = sort_of(&cx.program().sig, &rule.vars, condition) else {
        unreachable!()
    };
    // Each variable has a number below 2^32.
    if rule.vars.len() > u32::MAX as usize {
        return Err(AllocError);
    }
    let held = cx.image(alloc, condition)?;
    let truth = cx.image(alloc, &RulePat::Value(sort, Value::Bool(true)))?;
    MPat::equal(alloc, &held, &truth)
}
