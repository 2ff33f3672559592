// Proofs that guards of equations of the last resort (K framework, attribute `owise`) do not hold.
//
// Such an equation is used if none of its guards holds. A guard says that there are values of the
// variables of another equation at which its condition is true and the terms are in its arguments.
// `guard_denied` proves that this is not so, from the reason why the other equation is not used:
// an argument that does not match its term, a variable that would have to be two different terms, or
// a condition that is not true (specs/Guards.antt). `no_guard` proves that none of several holds.
#![tactic(auto, using(refute::proofs::Growing::growing))]

mod bindings;
mod conditions;
mod guards;
mod members;
mod mismatched;
mod none;

pub use guards::{Missed, guard_denied};
pub use none::no_guard;
