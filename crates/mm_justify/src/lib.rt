//! What justifies that one pattern reaches another, and so a run of a program: a valid Metamath
//! database. It assumes only the rows of the header, declarations, what the definition of the
//! program says, and true facts on its built-ins. Its last theorem says exactly that the one
//! pattern reaches the other (`specs/Justifying`; Chen and Rosu 2019).
//!
//! This crate uses claims and the texts that they fit (crate `mm_claims`), and the images of what a
//! definition says (crate `ml_image`). It does not depend on who writes a text. `justifying_laws`
//! says how a text that fits comes to justify a run by the statements that it gains. `image_laws`
//! says which names a text has to declare for an image. `stating_laws` says that the definitions of
//! statements here are those of `mm_claims`. The laws are clauses of functions that do nothing.
#![tactic(auto)]

mod laws;

pub use laws::{counting_laws, image_laws, justifying_laws, stating_laws, tried};
