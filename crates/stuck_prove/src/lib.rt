// Proofs that a run is stuck: its last configuration meets none of the rules.
//
// `not_met` proves of each rewrite rule that for no values of the rule's variables the configuration
// is an instance of the rule's left side and the rule's condition holds (specs/NotMet.antt). Either
// the left side does not match the configuration, or it matches and the condition is not true. The
// conditions are evaluated again, in the order of trial.
#![tactic(auto, using(prove_fun::proofs::KeptLaws::growing))]

mod bodies;
mod conditions;
mod matching;
mod rules;
mod settings;
mod stuck;

pub use stuck::not_met;
