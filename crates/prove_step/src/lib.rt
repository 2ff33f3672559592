// One step of a run as a theorem. The rule that applies is a lemma, made once. The step is its
// instance, with injections of injections made one, and with the right side replaced by its value.
// The same context also serves the theorems that a stuck run meets no rule.
#![tactic(auto, using(crate::proofs::GrowthLaws::growing))]

mod applying;
mod conditions;
mod meeting;
mod normalizing;
mod prover;
mod schemas;
mod side_lemmas;
mod turning;

pub use prover::Prover;
