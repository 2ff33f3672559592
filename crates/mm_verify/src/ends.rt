// How a database ends, and what its statements are.

use mm_text::MmFault;

/// How many statements a valid database has.
#[derive(Clone, Copy, PartialEq, Eq, Debug)]
pub struct Report {
    /// How many `$a` statements.
    pub axioms: u64,
    /// How many `$p` statements.
    pub theorems: u64,
}

/// Why a database was not found to be valid.
#[derive(Clone, Copy, PartialEq, Eq)]
pub enum VerifyEnd {
    /// It is not valid. This is its first fault.
    Invalid(MmFault),
    /// Out of memory.
    Memory,
}

/// What a statement is.
#[derive(Clone, Copy, PartialEq, Eq)]
pub(crate) enum Stated {
    /// A `$a`.
    Axiom,
    /// A `$p`.
    Theorem,
    /// Another statement.
    Nothing,
}
