//! Worked examples for the crates that read, check and print Kore. They show what no clause of
//! these crates says.
//!
//! A check of a crate's tests proves the whole crate again. So the tests of these libraries are
//! here. Each library has a module, which calls what the library exports.
#![tactic(auto)]

#[cfg(test)]
mod acceptance;
#[cfg(test)]
mod ast;
#[cfg(test)]
mod axioms;
#[cfg(test)]
mod build;
#[cfg(test)]
mod check;
#[cfg(test)]
mod equations;
#[cfg(test)]
mod last_resort_programs;
#[cfg(test)]
mod last_resort_readings;
#[cfg(test)]
mod last_resorts;
#[cfg(test)]
mod lex;
#[cfg(test)]
mod named_sides;
#[cfg(test)]
mod print;
#[cfg(test)]
mod shapes;
#[cfg(test)]
mod show;
#[cfg(test)]
mod signature_faults;
#[cfg(test)]
mod signatures;
#[cfg(test)]
mod text;
