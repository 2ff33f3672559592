// A run goes one step further, by the record of the step.
ghost use Rattle.std.specs.Prelude.{IfOk};
ghost use Rattle.rule_core.specs.Records.{result_of};
ghost use Rattle.rule_core.specs.RecordView.{plain_step};
ghost use Rattle.prove_run.specs.Going.{MayGoOn, ExtendsRun};

use crate::further::reach_further;
use ml_kernel::{Lemma, Thm};
use prove_step::Prover;
use rule_core::StepRecord;
use std::alloc::{AllocError, Global};

// Proves that a start reaches the result of the step. The last theorem says that it reaches the
// term before the step.
pub(crate) fn goes_further(
    alloc: Global,
    prover: &mut Prover<'_>,
    last: &Lemma,
    reach: &Lemma,
    step: &StepRecord,
) -> Result<Thm, AllocError>
    requires { MayGoOn prover.old last.now reach.now (plain_step step.now) }
    ensures { IfOk result
        (ExtendsRun prover.old prover.new last.now (result_of (plain_step step.now).right)) }
{
    let moved = prover.step(alloc, step)?;
    let sofar = Thm::use_lemma(alloc, last, &[], &[])?;
    reach_further(alloc, reach, &sofar, &moved)
}
