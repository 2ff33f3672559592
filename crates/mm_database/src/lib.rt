//! What a valid Metamath database is, as definitions, and the laws on them.
//!
//! The definitions are in `specs/`. `Forms` defines what the tokens of a statement mean. `Frames`
//! and `Database` define what is active at a statement, and what the frame of an assertion is.
//! `Proofs` defines what proves a statement, `Steps` what the steps of a proof build, and
//! `ProofText` which steps the text of a proof means. `Validity` defines which fault of a text
//! comes first; a text without a fault is valid. `Stack` and `ComputedFault` compute the same. The
//! laws are clauses of functions that do nothing.
#![tactic(auto)]

mod laws;

pub use laws::{database_laws, proof_laws, tried};
