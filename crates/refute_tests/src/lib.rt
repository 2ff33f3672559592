//! Proof files that refute left sides of rules, or say what their variables equal. They are what no
//! clause of `refute` says: that its calls succeed with ample memory, and what their theorems look
//! like in a file.
#![tactic(auto)]

#[cfg(test)]
mod accepted;
#[cfg(test)]
mod cases;
#[cfg(test)]
mod definitions;
#[cfg(test)]
mod left_sides;
#[cfg(test)]
mod proof_files;
#[cfg(test)]
mod truths;
