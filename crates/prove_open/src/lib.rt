// What holds of patterns with variables, under a hypothesis on the variables.
//
// A `Given` is a hypothesis that some variables are elements of their sorts, with these facts as
// theorems (specs/Givens.antt). Under such a hypothesis a pattern of variables, values,
// constructors and injections is one element of its sort; a constructor is free; an injection is
// injective; and patterns that differ at the root are not equal, or have nothing in common
// (specs/Under.antt, specs/Differences.antt).
#![tactic(auto, using(prove_term::proofs::ContextLaws::grown_twice, prove_term::proofs::ContextLaws::grown_none))]

mod differences;
mod elements;
mod fact_sides;
mod freedom;
mod givens;
mod injections;
mod instances;
mod known;

pub use differences::{Difference, difference_under};
pub use elements::{element_under, first_new};
pub use freedom::{freedom_under, injective_under};
pub use givens::Given;
