// Nodes of trees.
use crate::spots::SpotTwin;
use crate::testing::Test;

/// How many nodes a tree may have.
pub const MAX_NODES: usize = 100_000;

/// How many tests may come one after another. Below so many the rows are tried in order.
pub const MAX_TESTS: usize = 256;

// A node of a tree.
#[derive(Drop)]
pub(crate) enum Node {
    // No row is left.
    End,
    // The heads of a row were found.
    Hit(RowHit),
    // A position is tested.
    Test(Box<Test>),
    // All rows from this one on are tried in order.
    Try(usize),
}

// The hit of a row.
#[derive(Drop)]
pub(crate) struct RowHit {
    // The row.
    pub(crate) row: u32,
    // What stands for the places of its variables.
    pub(crate) spots: Vec<SpotTwin>,
    // The place to go on at.
    pub(crate) next: u32,
}
