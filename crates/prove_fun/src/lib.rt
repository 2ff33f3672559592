// Evaluations as theorems: the image of a pattern under a substitution equals the image of its
// value. The proof follows the record of the evaluation.
#![tactic(auto, using(crate::proofs::KeptLaws::growing))]

mod denying;
mod equating;
mod equations;
mod evaluating;
mod hooks;
mod lemma_places;
mod parts;

pub use evaluating::{eval_eq, value_eq};
pub use lemma_places::LemmaPlaces;
