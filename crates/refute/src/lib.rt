// Why a pattern does not match a term, and proofs of it.
//
// A pattern and a term are compared from the root downwards (specs/Clashes.antt). If they clash, or
// a variable would have to be two different terms, they have nothing in common: `mismatch`. If the
// pattern matches, each variable equals its binding wherever they have something in common:
// `inversion`. Each theorem is under the hypothesis that the variables are elements of their sorts
// (specs/Refutations.antt). Two different terms of one sort are not equal: `differ`. `mismatch_named`
// and `inversion_named` say the same of a pattern some of whose parts have names, with its names
// (specs/NamedRefutations.antt).
#![tactic(auto, using(crate::proofs::Growing::growing))]

mod bindings;
mod choosing;
mod denying;
mod dropping;
mod inversions;
mod laws;
mod meetings;
mod mismatches;
mod named_inversions;
mod named_mismatches;
mod parts;
mod rising;
mod settings;
mod sides;
mod supposing;
mod truths;
mod variables;
mod without_names;
mod written;

pub use inversions::inversion;
pub use laws::clash_laws;
pub use mismatches::{differ, mismatch};
pub use named_inversions::inversion_named;
pub use named_mismatches::mismatch_named;
pub use truths::not_true;
