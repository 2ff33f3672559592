// Assumptions and citations of lemmas.
ghost use Rattle.std.specs.Prelude.{◌≡◌, ◌∷◌, [], length, IfOk};
ghost use Rattle.ml_kernel.specs.Lemmas.{instance, instances, IsMetaBelow, AreMetasBelow};
ghost use Rattle.ml_kernel.specs.Lemmas.{HaveNoVariables};
ghost use Rattle.ml_kernel.specs.Theorems.{conclusions};
ghost use Rattle.ml_derived.specs.Scopes.{AssumesWithin, CitesWithin};

use ml_kernel::{Lemma, Thm};
use ml_pat::MPat;
use std::alloc::{AllocError, Global};

/// A pattern, from itself. An error: out of memory.
pub fn assume(alloc: Global, hyp: MPat) -> Result<Thm, AllocError>
    ensures conclusion { IfOk result (λ t. t.conclusion ≡ hyp) }
    ensures hypotheses { IfOk result (λ t. t.hypotheses ≡ hyp ∷ []) }
    ensures stays { IfOk result (AssumesWithin hyp) }
{
    Thm::assume(alloc, hyp)
}

/// The conclusion of a lemma with these patterns substituted for its pattern variables, from proofs
/// of its hypotheses with the same patterns substituted. An error: out of memory.
pub fn use_lemma(
    alloc: Global,
    lemma: &Lemma,
    metas: &[MPat],
    proofs: &[Thm],
) -> Result<Thm, AllocError>
    requires hypotheses_metas { AreMetasBelow (length metas.now) lemma.now.hypotheses }
    requires conclusion_metas { IsMetaBelow (length metas.now) lemma.now.conclusion }
    requires no_variables { HaveNoVariables metas.now }
    requires proofs { conclusions proofs.now ≡ instances metas.now lemma.now.hypotheses }
    ensures conclusion { IfOk result (λ t. t.conclusion ≡ instance metas.now lemma.now.conclusion) }
    ensures stays { IfOk result (CitesWithin lemma.now metas.now proofs.now) }
{
    Thm::use_lemma(alloc, lemma, metas, proofs)
}
