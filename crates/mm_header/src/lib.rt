//! The fixed head of each database that is written: 88 rows that say what a pattern of matching
//! logic is and what proves one.
//!
//! **The logic.** A pattern denotes a set of elements of one carrier. Sorts are parts of the
//! carrier. There is one application, `( \app p q )`: it applies each element of p to each element
//! of q. A symbol is a constant that is applied to its arguments one by one, and `( \at p s )`
//! gives it a sort argument. A quantifier names the sort of its variable, as in `( \all x s p )`.
//! `( \fun p s )` says that p is one element, of sort s, so that it may replace a variable.
//! `( \eq p q )` says that two patterns are the same set, and `( \mem p q )` that the element p is
//! in q. Such statements are everything or nothing, which `#Pred` says. `( \next p )` is the set of
//! configurations with a successor in p. `( \ev p )` is the set of configurations from which p is
//! reached in any number of steps.
//!
//! **The rows**, in this order:
//!
//! - 16 of syntax, `w.`: the connectives, each a row of its own and none an abbreviation.
//! - 16 of freshness, `fr.`, and 15 of substitution, `su.`: variables that are not free, and
//!   substitution without capture, as judgements of the database. They are side conditions of Rosu
//!   2017 and of Chen and Rosu 2019.
//! - 11 of predicates, `pr.`: the patterns that are everything or nothing (the predicate patterns
//!   of Rosu 2017). The judgement is this project's own.
//! - 30 of proof. The propositional rows, `mp` and `ex.el` are those of the Hilbert-style system
//!   (Chen and Rosu 2019). Equality and membership are those of Rosu 2017. These are those of Chen
//!   and Rosu 2019: framing by `app.l`, `app.r` and `next.in`; propagation of nothing by `bot.l`
//!   and `bot.r`; and `ev.1`, `ev.2` and `ev.kt` for a least fixed point with its induction. The
//!   project's own are the sorts in `inst`, `fun.ex` and `ex.el`, the premise `#Pred r` in
//!   `mem.no`, `app.l` and `app.r`, and `apart`, which says that different elements are disjoint.
//!
//! A rule `l => r` is an axiom `( \imp l ( \next r ) )`. A run from a to c is the theorem
//! `( \imp a ( \ev c ) )`, as in the proofs of runs of CAV 2021.
//!
//! **The contract.** `header_text` appends the text of the rows. `header_laws` says that this text
//! is a valid database, what it declares, and that its frames are exactly those of the rows. The
//! definitions are in `specs/`: `Header` has the rows as data, `HeaderRows` their frames,
//! `HeaderText` their text, and `HeaderContext` what they declare. `HeaderTable` reads the table of
//! the program.
#![tactic(auto)]

mod declarations;
mod laws;
mod rows;
mod text;

pub use declarations::{CONSTANTS, HeaderVariable, VARIABLE_NAMES, VARIABLES, variables};
pub use laws::header_laws;
pub use rows::{HEADER, HeaderRow, table};
pub use text::header_text;
