// A guard at terms.
use crate::arguments::Argument;
use ml_pat::MPat;
use prove_open::Given;
use term_core::SortId;

/// A guard at terms.
#[derive(Drop)]
pub struct Guarded<'t> {
    /// The sorts of its variables, by their numbers.
    pub sorts: Vec<SortId>,
    /// The arguments of the equation that it repeats.
    pub arguments: Vec<Argument<'t>>,
    /// The hypothesis that its variables are elements of their sorts, the last one first.
    pub given: Given,
    /// What it says of its variables: the condition, and that the terms are in the arguments.
    pub body: MPat,
}
