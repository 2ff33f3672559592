// Theorems of matching logic. Only the calls of this crate make a `Thm`. Each call uses one rule of
// the logic, an axiom of a theory, a hypothesis or a lemma.
//
// The contract: each theorem has a derivation in matching logic (specs/Derivability.antt) from its
// own hypotheses and from the axioms that its derivation keeps. The rules are schemes over plain
// patterns (specs/Rules.antt), and src/rules.rt has one call for each. The precondition of a call
// is what its rule requires, so the call compares nothing at run time.
#![tactic(auto)]

mod derivations;
mod erased;
mod instances;
mod renaming;
mod rules;
mod theorems;
mod theory;

pub use derivations::{AxiomNo, Deriv, DerivStep, Inst, Lemma};
pub use renaming::renamed;
pub use rules::Rule;
pub use theorems::Thm;
pub use theory::Theory;
