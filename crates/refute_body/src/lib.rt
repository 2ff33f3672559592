// Proofs that a body does not hold under a hypothesis.
//
// The hypothesis says that variables are elements of their sorts, and the body is a pattern with
// these variables. `weaker` proves a hypothesis on some of them. `equation_of` finds the equation of
// a variable among equations that follow from the body, and `filled` puts terms in place of the
// variables of a condition that follows from it (specs/Conditions.antt). `denied_by` proves that the
// body does not hold, as the condition is not true. `closed` proves that then no values of the
// variables make the body true (specs/Implications.antt). `sides` and the like give the parts of a
// theorem's conclusion.
#![tactic(auto, using(refute::proofs::Growing::growing))]

mod closing;
mod conditions;
mod equations;
mod hypotheses;
mod parts;

pub use closing::closed;
pub use conditions::{concerns, denied_by, filled};
pub use equations::{conclusion, equation_of};
pub use hypotheses::weaker;
pub use parts::{conjuncts, denied, equals, sides};
