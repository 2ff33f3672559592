//! Claims as statements of a Metamath database, and the texts that they fit: definitions, and the
//! laws on them.
//!
//! **What is written.** A claim is a conclusion under hypotheses, with the variables that occur in
//! them (`specs/Blocks`, `specs/ClaimVariables`). It is written as a `$a` or a `$p`. If it has
//! variables or hypotheses, it is in a block with its variables, the pairs that have to stay apart,
//! and its hypotheses. Its proof is that of its derivation (crate `mm_proof`). The proof cites
//! claims and hypotheses by the labels of their places (`specs/CitedAt`).
//!
//! **What fits what.** A text fits what was kept of it if it is valid and has declared and stated
//! what was kept (`specs/Rendered`, `specs/Keeping`, `specs/Claiming`). `specs/Keeping` and
//! `specs/Places` define which claims may be stated or proved after it, and what the text has then
//! gained.
//!
//! Nothing here depends on who writes such texts, or on what their names mean. The laws are clauses
//! of functions that do nothing.
#![tactic(auto)]

mod laws;

pub use laws::{
    citing_laws, claim_laws, closed_laws, fitting_laws, later_laws, statement_laws, tried,
};
