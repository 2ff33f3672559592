//! Worked examples for the crates of patterns, theorems and databases. They show what no clause of
//! these crates says.
//!
//! A check of a crate's tests proves the whole crate once more. So the tests of libraries are here,
//! one module for each library. They call what the library exports.
#![tactic(auto)]

#[cfg(test)]
mod compressed;
#[cfg(test)]
mod derived;
#[cfg(test)]
mod entries;
#[cfg(test)]
mod frames;
#[cfg(test)]
mod header;
#[cfg(test)]
mod images;
#[cfg(test)]
mod kernel;
#[cfg(test)]
mod patterns;
#[cfg(test)]
mod render;
#[cfg(test)]
mod scope;
#[cfg(test)]
mod texts;
#[cfg(test)]
mod verdicts;
