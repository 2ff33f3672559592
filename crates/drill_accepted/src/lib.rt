// What is proved of the texts of a drill: its definition and its term are accepted.
//
// `drill_acceptance_laws` says so (specs/DrillAcceptance.antt). Its proof makes the tokens of the
// definition line by line, and the tree that they spell, and finds no fault in that.
#![tactic(auto)]

mod laws;

pub use laws::drill_acceptance_laws;
