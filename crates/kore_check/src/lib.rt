// Patterns of a definition: their sorts, their faults, the rule patterns that they mean, and the names
// of parts in left sides.
#![tactic(auto)]

mod build;
mod check;
mod checked;
mod faults;
mod heads;
mod heights;
mod laws;
mod names;
mod notes;
mod pairs;
mod patterns;
mod sorts;
mod values;
mod variables;
mod written;

pub use checked::{build_pattern, check_left, check_pattern};
pub use faults::{CheckFault, FaultKind, PatternFault};
pub use heights::height_of;
pub use laws::sort_laws;
pub use names::add_names;
pub use pairs::is_pair;
pub use patterns::{note_clash, note_pattern, note_sort};
pub use variables::{Variables, as_number};
pub use written::{Variable, variable_of};
