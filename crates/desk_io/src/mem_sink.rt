// A sink in memory.
ghost use Rattle.std.specs.Prelude.{◌≡◌, ◌<◌, []};

use crate::desk::DeskFault;
use crate::faults::{FaultPlan, raised};
use crate::sink::Sink;
use std::alloc::Global;

/// A sink that keeps its bytes, for tests. It tells them, takes a few bytes in each call, and fails
/// the calls that it is asked to fail.
pub struct MemSink {
    taken: Vec<u8>,
    most: usize,
    plan: FaultPlan,
    faults: u64,
    ghost some: { 0 < most },
}

// A sink is dropped by one call, and not field by field at each end of each call that owns one.
impl Drop for MemSink {
    fn drop(self) {
        let MemSink {
            taken: _,
            most: _,
            plan: _,
            faults: _,
        } = self;
    }
}

impl MemSink {
    ghost use Rattle.desk_io.specs.MemSink.{bytes_of};

    /// An empty sink. A call of `write` takes at most `most` bytes. The calls whose numbers,
    /// counted from 0, are in `fail_at` fail. The numbers stop at 2^64 - 1.
    pub fn new(alloc: Global, most: usize, fail_at: Vec<u64>) -> MemSink
        requires { 0 < most }
        ensures bytes { bytes_of result ≡ [] }
        ensures faults { (⟦<MemSink as Sink>⟧.state result).faults ≡ 0 }
    {
        MemSink {
            taken: Vec::new(alloc),
            most,
            plan: FaultPlan::new(fail_at),
            faults: 0,
        }
    }

    /// All bytes that it has taken.
    pub fn bytes(&self) -> &[u8]
        ensures { result.now ≡ bytes_of self.now }
    {
        self.taken.as_slice()
    }
}

impl Sink for MemSink {
    ghost use Rattle.desk_io.specs.MemSink.{told_bytes};

    ghost state = { λ sink. record { bytes = told_bytes sink; faults = sink.faults } };

    fn write(&mut self, piece: &[u8]) -> Result<usize, DeskFault> {
        if self.plan.is_to_fail() {
            self.faults = raised(self.faults);
            return Err(DeskFault::Failed);
        }
        let n = piece.len().min(self.most);
        match self.taken.extend_from_slice(&piece[..n]) {
            Ok(()) => Ok(n),
            Err(_) => Err(DeskFault::Memory),
        }
    }
}
