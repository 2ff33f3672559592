// What a walk keeps.
ghost use Rattle.std.specs.Prelude.{◌≡◌, ◌≤◌, [], vec_capacity, IfOk};
ghost use Rattle.match_tree.specs.SlotView.{HasRoom, kept_of};

use crate::compiling::Tree;
use std::alloc::{AllocError, Global};

/// A place from which a walk begins or goes on.
#[derive(Clone, Copy)]
pub enum NodeNo {
    /// The start.
    Start,
    /// A node of the tree.
    Node(u32),
    /// All rows from this one on, in order.
    Rows(usize),
}

/// What a walk finds.
#[derive(Clone, Copy)]
pub enum Hit {
    /// The first row that matches, and the place from which a walk goes on to the next one.
    Row {
        /// The row's number.
        row: u32,
        /// The place.
        resume: NodeNo,
    },
    /// No row matches.
    None,
}

// The last hit.
#[derive(Clone, Copy)]
pub(crate) struct Kept {
    pub(crate) row: u32,
    pub(crate) resume: NodeNo,
}

/// What a walk keeps: the nodes that it passed since the start, and the last hit. A walk fills them
/// and takes no memory.
#[derive(Drop)]
pub struct Slots {
    pub(crate) path: Vec<u32>,
    pub(crate) hit: Option<Kept>,
}

impl Slots {
    /// Slots with room for each node of the tree. An error: out of memory.
    pub fn for_tree(alloc: Global, tree: &Tree<'_>) -> Result<Slots, AllocError>
        ensures room { IfOk result (HasRoom tree.now) }
    {
        Ok(Slots {
            path: Vec::with_capacity(alloc, tree.nodes.len())?,
            hit: None,
        })
    }

    // Keeps a hit, or none.
    pub(crate) fn keep(&mut self, hit: Hit) -> Hit
        ensures same { result ≡ hit }
        ensures hit { self.new.hit ≡ kept_of hit }
        ensures path { self.new.path.items ≡ self.old.path.items }
        ensures room { vec_capacity self.old.path ≤ vec_capacity self.new.path }
    {
        self.hit = match hit {
            Hit::Row { row, resume } => Some(Kept { row, resume }),
            Hit::None => None,
        };
        hit
    }

    // Keeps no node.
    pub(crate) fn clear(&mut self)
        ensures path { self.new.path.items ≡ [] }
        ensures room { vec_capacity self.old.path ≤ vec_capacity self.new.path }
        ensures hit { self.new.hit ≡ self.old.hit }
    {
        self.path.clear();
    }
}
