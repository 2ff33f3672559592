//! What is written in a Metamath database to prove that a pattern of matching logic is one, that a
//! judgement on it holds, and that a rule concludes what it does.
//!
//! **What is written.** A pattern is a list of tokens (`specs/Tokens`). The rows of the header
//! prove, form by form, that it is a pattern, and each judgement on it. A part in which the
//! variable of a judgement does not occur takes only one row. A rule is its label over the proofs
//! of its premises. A derivation is written by recursion (`specs/Trees`, `specs/Derivations`).
//! `proof_laws` says of patterns, judgements and rules that these are proofs in every database that
//! has the header and the declarations that they cite (`specs/Serving`, `specs/RenderLaws`).
//!
//! **How it is written.** A proof is built as a table of its distinct nodes (`ProofTable`), so what
//! occurs many times in it is held once. What is still to be built is on a stack of works. Each work
//! is split into smaller ones, so deep patterns need no recursion. The proof that a pattern is one is
//! kept, and found again where the pattern occurs again. `prove_goals` builds proofs on patterns.
//! `prove_instances` and `prove_before` build what a rule has before the proofs of its premises.
//! `push_proof` writes the proof that was built in compressed notation. `push_text` writes the text
//! of a statement.
#![tactic(auto)]

mod freshness;
mod known;
mod laws;
mod patterns;
mod rules;
mod searching;
mod shapes;
mod stacks;
mod substitution;
mod table;
mod texts;
mod words;
mod works;

pub use laws::{proof_laws, tried};
pub use rules::{judgements, pattern_at, prove_before, prove_instances, variable_at};
pub use table::ProofTable;
pub use texts::{TextPart, push_text};
pub use words::{Label, Word, push_word, push_words};
pub use works::{Goal, prove_goal, prove_goals};
