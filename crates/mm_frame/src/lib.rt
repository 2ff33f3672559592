//! Expressions, hypotheses and frames, whose symbols are numbers, and the structures that hold what
//! a database has declared.
//!
//! `Numbered` says which frames of tokens those of numbers are, and `NumberedSteps` what the steps
//! of a proof do to numbers. `Names`, `Hypotheses`, `Disjoint` and `HypTree` take the time that
//! they say, for any choice of tokens and symbols.
#![tactic(auto)]

mod asking;
mod counts;
mod disjoint;
mod entries;
mod expression;
mod frames;
mod hypotheses;
mod laws;
mod names;
mod numbers;
mod tree;

pub use asking::{Lists, Mandatory, Parts, own_labels};
pub use disjoint::{Disjoint, push_group};
pub use expression::Expression;
pub use frames::{Cited, Frame, Hyp};
pub use hypotheses::Hypotheses;
pub use laws::number_laws;
pub use names::{Name, Names};
pub use numbers::{ascending, is_among, push_if};
pub use tree::HypTree;
