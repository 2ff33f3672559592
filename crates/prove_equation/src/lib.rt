// Equations of functions as lemmas, and what they say of the functions at terms.
//
// The contract: `equation_lemma` turns an equation's axiom into a lemma, with pattern variables for
// its variables (specs/EquationLemmas.antt). `equation_at` proves what that lemma says of the terms
// that the equation's arguments match: the function of the terms equals the right side, with its
// variables replaced.
#![tactic(auto)]

mod at_terms;
mod conditions;
mod direct;
mod lemmas;
mod parameters;

pub use at_terms::equation_at;
pub use conditions::given;
pub use lemmas::equation_lemma;
