// The mandatory labels of a claim.
ghost use Rattle.std.specs.Prelude.{List, IfOk, OnOk, map};
ghost use Rattle.mm_database.specs.ProofText.{mandatory_labels};
ghost use Rattle.mm_text.specs.Bytes.{Token};
ghost use Rattle.mm_claims.specs.PremiseLabels.{premise_labels};
ghost use Rattle.mm_claims.specs.Blocks.{open_frame};
ghost use Rattle.mm_claims.specs.Variables.{variable_label};
ghost use Rattle.mm_render.specs.ClaimView.{plain_claim};
ghost use Rattle.mm_render.specs.MandatoryLabels.{AddsLabelsOf, AreLabelsOf, IsLabelOf};
ghost use Rattle.mm_render.specs.VariablesView.{plain_variables, variable_of};

use crate::claims::Claim;
use crate::variables::Variable;
use ml_pat::MPat;
use mm_proof::Label;
use std::alloc::{AllocError, Global};

/// The labels of the mandatory hypotheses of a claim: those of its variables, and then those of its
/// hypotheses.
pub(crate) fn mandatory_labels(alloc: Global, claim: &Claim) -> Result<Vec<Label>, AllocError>
    ensures { (names : List Token) → IfOk result (λ ls. AreLabelsOf
        (λ k. mandatory_labels (open_frame names k (plain_claim claim.now))) ls.items) }
{
    let mut labels = Vec::new(alloc);
    push_variable_labels(&mut labels, &claim.variables)?;
    push_premise_labels(&mut labels, &claim.hypotheses)?;
    Ok(labels)
}

/// Adds the labels of variables.
fn push_variable_labels(labels: &mut Vec<Label>, variables: &[Variable]) -> Result<(), AllocError>
    ensures { OnOk result (AddsLabelsOf
        (λ k. map (variable_label k) (plain_variables variables.now)) labels.old.items
        labels.new.items) }
{
    for variable in variables {
        labels.push(label_of(*variable))?;
    }
    Ok(())
}

/// Adds the labels of hypotheses.
fn push_premise_labels(labels: &mut Vec<Label>, hypotheses: &[MPat]) -> Result<(), AllocError>
    ensures { OnOk result (AddsLabelsOf (λ k. premise_labels k 0 hypotheses.now) labels.old.items
        labels.new.items) }
{
    for (no, _) in hypotheses.iter().enumerate() {
        labels.push(Label::Premise(no as u64))?;
    }
    Ok(())
}

/// The label under which a variable is typed.
pub(crate) fn label_of(variable: Variable) -> Label
    ensures { IsLabelOf (λ k. variable_label k (variable_of variable)) result }
{
    match variable {
        Variable::Object(x) => Label::Object(x.0),
        Variable::Pattern(i) => Label::Meta(i),
    }
}
