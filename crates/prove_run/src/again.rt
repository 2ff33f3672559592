// The last theorem of a run, once more.
ghost use Rattle.std.specs.Prelude.{◌≡◌, [], IfOk};
ghost use Rattle.ml_kernel.specs.Lemmas.{HasNoMeta};
ghost use Rattle.prove_run.specs.Again.{CitesLast};

use ml_kernel::{Lemma, Thm};
use std::alloc::{AllocError, Global};

// Proves by the last theorem what it says.
pub(crate) fn once_more(alloc: Global, last: &Lemma) -> Result<Thm, AllocError>
    requires metas { HasNoMeta last.now.conclusion }
    requires hypotheses { last.now.hypotheses ≡ [] }
    ensures says { IfOk result (λ t. t.conclusion ≡ last.now.conclusion) }
    ensures stays { IfOk result (CitesLast last.now) }
{
    Thm::use_lemma(alloc, last, &[], &[])
}
