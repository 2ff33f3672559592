//! Theorems of matching logic written as statements of a Metamath database, after a text that fits
//! (crate `mm_claims`).
//!
//! **What may follow what.** A text fits what a renderer keeps if it is valid and has declared and
//! stated that. `begin` appends the header, `declare` names, `axiom` an axiom, and `lemma` a
//! theorem with its proof. A text that fits still fits with these after it, and it has gained
//! exactly that axiom or theorem.
//!
//! **How it is written.** What of a derivation is still to be written, or to be searched for
//! variables, is on a stack, so deep derivations need no recursion (`specs/Parts`,
//! `specs/NeededView`). What was stated is found by its bytes in a table (`specs/Keys`,
//! `specs/KeyPlaces`).
#![tactic(auto)]

mod claims;
mod derivations;
mod heads;
mod mandatory;
mod needed;
mod places;
mod renderer;
mod statements;
mod variables;

pub use renderer::Renderer;
