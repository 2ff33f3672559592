// What an axiom of a definition is read as, and what is wrong with it.
#![tactic(auto)]

mod classes;
mod faults;
mod left_names;
mod parts;
mod priorities;
mod refusals;
mod rules;
mod sides;
mod uses;

pub use classes::{AxiomClass, class_of};
pub use faults::AxiomFault;
pub use left_names::has_bad_and;
pub use parts::{RuleParts, is_ill, over_bool, rule_parts, tested};
pub use priorities::{has_bad_priority, priority_of};
pub use refusals::Refusal;
pub use rules::{built_condition, checked_rule};
pub use sides::{is_faultless, is_faultless_condition};
pub use uses::{Symbols, has_symbol};
