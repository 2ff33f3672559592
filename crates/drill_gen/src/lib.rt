// The texts of a drill: a definition with as many rules as the run is to take steps, and the term
// that takes all of them.
//
// `drill` returns both, as defined in specs/Drill.antt. `drill_laws` says that they are short.
#![tactic(auto)]

mod laws;
#[cfg(test)]
mod tests;
mod text;

pub use laws::drill_laws;
pub use text::{DrillTexts, drill};
