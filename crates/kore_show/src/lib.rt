// The Kore pattern of a pattern of a rule without variables.
//
// `shown` returns it, with the names that the signature declares. Symbols and sorts are written by
// their names, values by their text in canonical form, and an injection by the name of the
// injection symbol. The definition is in specs/KorePatterns.antt. `shown_laws` says that each
// well-sorted pattern without variables has a Kore pattern.
#![tactic(auto)]

mod laws;
mod names;
mod patterns;

pub use laws::shown_laws;
pub use patterns::shown;
