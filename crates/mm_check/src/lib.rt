//! Whether a Metamath database justifies that one pattern reaches another, over a program.
//!
//! `check` returns the two patterns, and its clauses say that the database justifies this and that
//! it has a derivation in matching logic. Otherwise it returns the first fault of the database, or
//! what is wrong first in a valid one (`specs/Offences`). `offence_laws` says that one thing is
//! wrong first. `Checked::lines` is the text of what is justified.
#![tactic(auto)]

mod asserting;
mod axioms;
mod conclusion;
mod decision;
mod ends;
mod header;
mod laws;
mod lines;
mod notes;
mod object_types;
mod own_tokens;
mod pass;
mod row_tests;
mod rows;
mod stated;
mod steps;

pub use decision::check;
pub use ends::{CheckEnd, Checked, Offence};
pub use laws::offence_laws;
