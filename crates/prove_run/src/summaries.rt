// The counts of a proof of a run.

/// How many steps a proof has, and how many facts, statements and bytes its database has. Each
/// count stops at 2^64 - 1.
#[derive(Clone, Copy)]
pub struct Summary {
    /// How many steps the run has that it proves.
    pub steps: u64,
    /// How many of its `$a` statements are true facts on built-ins.
    pub facts: u64,
    /// How many `$a` and `$p` statements it has.
    pub statements: u64,
    /// How many bytes it has.
    pub bytes: u64,
}
