// The canonical text of Kore patterns.
//
// `print_pattern` returns the text without white space in which each token of the pattern's
// spelling is written in one way. The definitions are in `specs/`. `TokenText` and `CanonicalText`
// define the text. `Reading` defines which texts read as a pattern, except for places. `PrintLaws`
// has laws on these, which are the contract of `print_laws`. `Writing` has definitions that only
// private functions cite.
#![tactic(auto)]

mod laws;
mod print;
mod strings;

pub use laws::print_laws;
pub use print::print_pattern;
