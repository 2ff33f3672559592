// Acceptance: from the bytes of a definition to a program, or to its one first refusal.
//
// `accept` returns the program that a definition means (specs/Programs.antt). Its error is exactly
// the first fault by the order of refusals (specs/FirstRefusal.antt). The program is well-sorted,
// and its variables are bound. An equation of the last resort is read beside the other equations of
// its function (specs/EquationsAmong.antt). `accept_term` returns the pattern that a term of an accepted
// definition means, or why the term is refused (specs/Acceptance.antt). The pattern is a start of
// the program. `acceptance_laws` says that each text is accepted or refused, and that none is both.
#![tactic(auto)]

mod acceptance;
mod axioms;
mod declared;
mod equations;
mod ground;
mod kinds;
mod last_resorts;
mod laws;
mod order;
mod sorts;
mod start;
mod texts;

pub use acceptance::{accept, accept_term};
pub use kore_axioms::Refusal;
pub use laws::acceptance_laws;
