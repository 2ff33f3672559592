//! How the statements of a proof file are read as statements on patterns of matching logic, and why
//! each row of the header is sound under such readings. A theorem is sound too, if the assertions
//! that its proof may cite are.
//!
//! The definitions are in `specs/`. `Letters` and `Pieces` define how a statement is spelled and
//! read back. `Holding` defines when a text of letters holds, `Readings` what a reading of a frame
//! is and when the frame is sound, and `Proving` what a reading of a proof is. `ReadingLaws` and
//! `ProvingLaws` have the laws.
//!
//! There is no code to run. The laws are clauses of functions that do nothing.
#![tactic(auto)]

mod laws;

pub use laws::{proof_laws, row_laws, text_laws};
