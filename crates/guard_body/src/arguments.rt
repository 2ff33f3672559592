// The arguments of an equation with the variables of a guard that repeats it.
use rule_core::Named;
use term_core::{RulePat, Term};

/// An argument of an equation, with the variables of a guard that repeats it.
#[derive(Drop)]
pub struct Argument<'t> {
    /// Its pattern.
    pub pat: RulePat,
    /// The names of its parts, whose places begin with 0.
    pub named: Vec<Named>,
    /// Its term.
    pub term: &'t Term,
}
