// Sentences on all elements of sorts as lemmas with pattern variables, and the use of such lemmas
// at terms.
//
// The contract: `schema` turns a sentence for all elements into the same for pattern variables. The
// result assumes that these are elements of the variables' sorts (specs/Schemas.antt).
// `without_condition` assumes the condition of an implication too, and says what follows.
// `schema_at` concludes what such a lemma says of patterns, from proofs of its hypotheses
// (specs/Using.antt). `elements` makes the proofs of the hypotheses on sorts, for the terms that a
// substitution gives the variables.
#![tactic(auto)]

mod bindings;
mod opening;
mod using;

pub use bindings::{elements, term_elements};
pub use opening::{schema, without_condition};
pub use using::schema_at;
