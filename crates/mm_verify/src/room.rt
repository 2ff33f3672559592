// The memory for checking proofs, one after another.

use crate::label_marks::Marks;
use crate::machine::Machine;
use std::alloc::{AllocError, Global};

/// A machine and marks. They keep their memory from one proof to the next. What an earlier proof
/// left in them has no effect on the result.
#[derive(Drop)]
pub(crate) struct Room {
    pub(crate) machine: Machine,
    pub(crate) marks: Marks,
}

impl Room {
    /// A machine and marks before the first proof.
    pub(crate) fn new(alloc: Global) -> Result<Room, AllocError> {
        Ok(Room {
            machine: Machine::new(alloc)?,
            marks: Marks::new(alloc)?,
        })
    }
}
