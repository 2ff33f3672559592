//! Scopes, which take the statements of a Metamath database one after another.
//!
//! `Standing` says when scopes stand for what a database has declared (crate `mm_database`),
//! `TakesStatement` and `Proposing` what they do with one more statement, and `StandingLaws` what
//! the steps of a proof may rest on. Symbols have numbers (crate `mm_frame`).
#![tactic(auto)]

mod add;
mod common;
mod declare;
mod forms;
mod judge;
mod laws;
mod mandatory;
mod reads;
mod scopes;
mod theorem;

pub use declare::{Added, FrameEnd};
pub use forms::{Form, Keyword, Plain, read_form};
pub use laws::scope_laws;
pub use scopes::Scopes;
pub use theorem::Theorem;
