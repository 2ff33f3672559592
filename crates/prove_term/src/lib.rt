// Theorems about the terms of a program's runs, and what is kept for their proofs.
//
// A `Cx` keeps the names, the axioms and the lemmas of the proofs about one program. Contracts see
// it as a plain `Context` (specs/Contexts.antt). Each axiom and each lemma is made once, when it is
// first needed. A theorem that a call returns stays in the context as it is after the call, and
// contexts only grow (`StaysIn`, `HasGrown`).
#![tactic(auto, using(crate::proofs::ContextLaws::grown_twice, crate::proofs::ContextLaws::grown_none))]

mod calls;
mod collapsing;
mod comparing;
mod congruence;
mod conjunctions;
mod constructors;
mod context;
mod elements;
mod equalities;
mod equality_lemmas;
mod equations;
mod hooks;
mod injections;
mod joining;
mod naming;
mod open_axioms;
mod schemas;
mod sorts;
mod stated;
mod values;

pub use calls::call_eq;
pub use collapsing::collapse_eq;
pub use comparing::inj_eq;
pub use congruence::{Parts, applied, halves, taken_apart};
pub use context::Cx;
pub use elements::fun_of;
pub use equalities::{flip, join};
pub use naming::{call_eq_named, inj_eq_named};
