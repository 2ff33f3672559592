// The conditions of rules.
ghost use Rattle.std.specs.Prelude.{IfOk};
ghost use Rattle.rule_core.specs.RecordView.{plain_step};
ghost use Rattle.prove_term.specs.Contexts.{HasGrown};
ghost use Rattle.prove_fun.specs.KeptLemmas.{IsKeptIn};
ghost use Rattle.prove_step.specs.Applying.{IsStepOf, SaysConditionAt};

use ml_kernel::Thm;
use prove_fun::{LemmaPlaces, value_eq};
use prove_term::Cx;
use rule_core::StepRecord;
use std::alloc::{AllocError, Global};

// Proves that the condition of the used rule holds, if it has one.
pub(crate) fn condition_held(
    alloc: Global,
    cx: &mut Cx<'_>,
    kept: &mut LemmaPlaces,
    step: &StepRecord,
) -> Result<Option<Thm>, AllocError>
    requires step { IsStepOf cx.old.program (plain_step step.now) }
    requires kept { IsKeptIn cx.old kept.old }
    ensures says { IfOk result (SaysConditionAt cx.new step.now.rule step.now.subst) }
    ensures grown { HasGrown cx.old cx.new }
    ensures kept { IsKeptIn cx.new kept.new }
{
    let rule = &cx.program().rules[step.rule as usize];
    match (&rule.cond, &step.cond) {
        (Some(pat), Some(evaluation)) => {
            Ok(Some(value_eq(alloc, cx, kept, pat, &step.subst, evaluation)?))
        }
        (None, _) => Ok(None),
        (Some(_), None) => unreachable!(),
    }
}
