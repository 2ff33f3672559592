// The derivation of a lemma, for contracts only. It takes no memory. So a lemma does not keep its
// derivation at run time, and neither does a theorem that cites the lemma.
//
// Code cannot state which derivation this is. The proofs of the two functions choose it. So it is
// made only when a lemma is closed or shared.
ghost use Rattle.std.specs.Prelude.{◌≡◌};
ghost use base.Fml.{ftrue};
ghost use Rattle.ml_kernel.specs.Theorems.{Derivation};
ghost use Rattle.ml_kernel.specs.TheoremCode.{derivation_code};

use crate::derivations::Deriv;
use std::marker::Model;

#[derive(Drop)]
pub(crate) struct ErasedDerivation {
    pub(crate) ghost derivation: { Derivation } by { derivation_code },
}

impl Model for ErasedDerivation {
    ghost also_owns = { λ _. ftrue };
}

impl ErasedDerivation {
    // This derivation.
    pub(crate) fn of(_derivation: &Deriv) -> ErasedDerivation
        ensures { result.derivation ≡ _derivation.now }
    {
        ErasedDerivation {}
    }

    // The same derivation again.
    pub(crate) fn again(&self) -> ErasedDerivation
        ensures { result.derivation ≡ self.now.derivation }
    {
        ErasedDerivation {}
    }
}
