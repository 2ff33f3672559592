// The shapes in which kompile writes the rules and equations of a definition.
#![tactic(auto)]

mod equations;
mod forms;
mod last_resorts;
mod shapes;
mod sorts;
mod statements;

pub use equations::{EquationParts, equation_parts};
pub use forms::{SoughtForms, has_binder, has_form};
pub use last_resorts::{GuardParts, LastResortParts, last_resort_parts};
pub use shapes::{Companion, Condition, Rewriting, Side, given_condition, rewriting_at, side_at};
pub use sorts::{is_variable, same_sort};
pub use statements::{Statement, statement_at};
