// Guards of equations of the last resort at terms.
//
// Such a guard repeats another equation, with variables of its own. It says that there are values of
// these at which the equation's condition is true and the terms are in its arguments. `repeated` makes
// what it says of them (specs/Guarded.antt). `all_found` and `bound_twice` tell by which substitutions
// the arguments match the terms, and whether these agree (specs/Arguments.antt).
#![tactic(auto, using(prove_term::proofs::ContextLaws::grown_twice, prove_term::proofs::ContextLaws::grown_none))]

mod arguments;
mod guarded;
mod hypotheses;
mod images;
mod matches;
mod renaming;
mod repeating;

pub use arguments::Argument;
pub use guarded::Guarded;
pub use matches::{Twice, all_found, bound_twice};
pub use repeating::repeated;
