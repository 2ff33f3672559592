//! What a proof file justifies has a derivation in matching logic. If a valid database has only
//! axioms of a program, and its last theorem says that one pattern reaches another, this is derived
//! from the images of what the program may assume. It does not matter who wrote the database.
//!
//! `specs/Assuming` defines these images as patterns, under any numbering of tokens, and which
//! programs assume only closed patterns. `specs/AdequacyLaws` has the laws.
//!
//! There is no code to run. The laws are clauses of a function that does nothing.
#![tactic(auto)]

mod laws;

pub use laws::adequacy_laws;
