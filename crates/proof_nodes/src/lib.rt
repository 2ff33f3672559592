//! A proof as a table of distinct nodes, and its compressed text.
//!
//! A `ProofNodes` holds proof trees under construction, on a stack. A tree that occurs many times
//! is held once. Labels are numbers that the caller chose; contracts quantify over how they are
//! spelled (`specs/Tables`). `compress` gives the labels and letters of a compressed proof of the
//! only tree on the stack (`specs/Compression`). A node with parts that is used more than once is
//! saved at its first use and repeated at the others.
#![tactic(auto)]

mod letters;
mod nodes;
mod walk;

pub use letters::CompressedProof;
pub use nodes::{NodeNo, ProofNodes};
