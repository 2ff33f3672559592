// What is stated, with the variables that occur in it.
ghost use Rattle.std.specs.Prelude.{◌≡◌, IfOk, OnOk};
ghost use Rattle.mm_claims.specs.Blocks.{needs_block};
ghost use Rattle.mm_claims.specs.ClaimVariables.{claim_of, claim_variables};
ghost use Rattle.mm_render.specs.ClaimView.{plain_claim};
ghost use Rattle.mm_claims.specs.Variables.{AreNumbered};
ghost use Rattle.mm_render.specs.VariablesView.{plain_variables};

use crate::variables::{Variable, variables_of_claim};
use ml_pat::MPat;
use std::alloc::{AllocError, Global};

/// A conclusion under hypotheses, with the variables that occur in them, each once.
#[derive(Drop)]
pub(crate) struct Claim {
    pub(crate) variables: Vec<Variable>,
    pub(crate) hypotheses: Vec<MPat>,
    pub(crate) conclusion: MPat,
}

/// A claim that was stated, with the number of its label.
#[derive(Drop)]
pub(crate) struct Stated {
    pub(crate) number: u64,
    pub(crate) claim: Claim,
}

/// The claim of a conclusion under hypotheses. Its patterns are shared. The numbers of its
/// variables fit in 64 bits.
pub(crate) fn claim_of(
    alloc: Global,
    hypotheses: &[MPat],
    conclusion: &MPat,
) -> Result<Claim, AllocError>
    ensures claim { IfOk result
        (λ claim. plain_claim claim ≡ claim_of hypotheses.now conclusion.now) }
    ensures numbered { OnOk result (AreNumbered (claim_variables hypotheses.now conclusion.now)) }
{
    let variables = variables_of_claim(alloc, hypotheses, conclusion)?;
    let mut shared = Vec::with_capacity(alloc, hypotheses.len())?;
    for hypothesis in hypotheses {
        shared.push(hypothesis.share()?)?;
    }
    Ok(Claim {
        variables,
        hypotheses: shared,
        conclusion: conclusion.share()?,
    })
}

/// Whether a statement with these variables and hypotheses needs a block of its own.
pub(crate) fn needs_block(variables: &[Variable], hypotheses: &[MPat]) -> bool
    ensures { result ≡ needs_block (plain_variables variables.now) hypotheses.now }
{
    !variables.is_empty() || !hypotheses.is_empty()
}
