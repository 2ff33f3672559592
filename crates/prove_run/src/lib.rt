//! The proof of a run, written as the run goes (Chen and Rosu 2019).
//!
//! A `Proof` begins with `a -> ev b`. Here a is the image of the initial term, and b is the image
//! of its value. These differ if the term calls functions, or if injections meet in it. A step
//! concludes `a -> ev c` from `a -> ev b` and the theorem of the step, `b -> next c`. Each such
//! theorem is in the database, and the next one cites it. Both theorems are made from records, of
//! the evaluation and of the step. The contract is about texts that fit a proof. Such a text
//! justifies the run from the start to the present configuration, and has compressed proofs only.
//! If a text fits before a step, it fits after the step when the step's bytes are appended to it.
//! Each call appends its bytes to the created file of a desk. So after the beginning and after each
//! step that file is a proof of the run so far, and not only at the end of the run.
//!
//! A proof can be taken apart into its prover and the rest. The prover may make further theorems,
//! and the rest is then joined with it. Theorems can be added as lemmas. Then the file has their
//! proofs too, and the theorem of the run stays the last one.
//!
//! The text of a step has the names of the configurations in it, and each part of the terms that
//! are bound to the rule's variables. It is linear in the sizes of the configurations if these are
//! not deep, and at most quadratic. Each call of a function, in a condition or a right side, adds
//! the same for its arguments and its value. A rule or an equation is a lemma from its first use
//! on. A fact on a hook, a value or a symbol is stated once in a file. Later steps cite them.
#![tactic(auto)]

mod again;
mod ends;
mod further;
mod going;
mod proof;
mod starting;
mod summaries;
mod writing;

pub use ends::ProveEnd;
pub use proof::{Proof, Rest};
pub use starting::start_reaches;
pub use summaries::Summary;
