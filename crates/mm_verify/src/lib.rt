//! Whether a Metamath database is valid, and its first fault if it is not.
//!
//! `verify` reads a text statement by statement. `Checker` judges each statement: scopes take what
//! it declares, and its proof is read into steps (`proof_text`, `letters`) and run on a stack
//! (`machine`, `applying`, `checking`). The memory for checking proofs is kept from one proof to
//! the next (`room`). Symbols are numbers. An `Assertion` knows for each of its variables which
//! entry of the stack gives its text (`parts`), so that a step substitutes texts without a look-up.
//! A long statement is shared with the frame, which lists where each symbol stands
//! (`long_statement`), so that a step passes over empty texts (`present`). The contract of `verify`
//! is the definition of validity of the crate `mm_database`, in both directions.
#![tactic(auto)]

mod applying;
mod assertion;
mod checker;
mod checking;
mod citable;
mod conversions;
mod counting;
mod digits;
mod ends;
mod entries;
mod filling;
mod finding;
mod label_marks;
mod letters;
mod lists;
mod long_statement;
mod machine;
mod notes;
mod parts;
mod place;
mod present;
mod proof_fault;
mod proof_text;
mod room;
mod spreads;
mod stack;
mod statement;
mod stored;
mod together;
mod verdicts;

pub use ends::{Report, VerifyEnd};
pub use verdicts::verify;
