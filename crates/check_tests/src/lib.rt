//! What texts of patterns say over an accepted definition. They are what no clause says: that the
//! calls succeed with ample memory, and some answers as a reader expects them.
#![tactic(auto)]

#[cfg(test)]
mod facts;
