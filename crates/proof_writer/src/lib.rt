// The text of a proof, written as the proof goes on.
//
// A `Writer` appends to a buffer what a context has gained: declarations of names, axioms and
// lemmas, and then the theorem that says how far a run has come. Its contract is about each text
// that has exactly what was written before. So the buffer may hold only the last statements.
#![tactic(auto)]

mod writer;

pub use writer::{ProofParts, Writer};
