// Patterns of matching logic, and the numbers of the names in them.
//
// An `MPat` is a shared tree. Contracts see it as a plain `Pattern` (specs/Patterns.antt). The
// rules of the logic need freshness, substitution, and the test for predicates. These are defined
// on plain patterns in specs/Judgements.antt. `Names` gives each token one number.
#![tactic(auto)]

mod fingerprints;
mod judgements;
mod names;
mod numbers;
mod patterns;
mod same;
mod substitution;

pub use judgements::{fresh, is_pred};
pub use names::Names;
pub use numbers::{ConstNo, MSort, VarNo};
pub use patterns::{MForm, MPat};
pub use substitution::{spine_part, subst};
