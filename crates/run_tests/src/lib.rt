//! Worked examples for the crates of terms, rules, runs and files: what no clause of theirs says.
//!
//! A check of a crate's tests proves the whole crate once more. So the tests of libraries are here,
//! with a module for each, and call what the library exports.
#![tactic(auto)]

#[cfg(test)]
mod desks;
#[cfg(test)]
mod evaluation;
#[cfg(test)]
mod hints;
#[cfg(test)]
mod hooks;
#[cfg(test)]
mod matching;
#[cfg(test)]
mod rewriting;
#[cfg(test)]
mod terms;
#[cfg(test)]
mod trees;
