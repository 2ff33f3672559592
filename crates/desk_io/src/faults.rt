// Counts of faults, and faults that a test asks for.
ghost use Rattle.std.specs.Prelude.{◌≡◌, ◌+◌, ◌-◌, ◌^◌, ◌≤◌, ◌↔◌, min, IsTrue, nat_eq};
ghost use Rattle.std.specs.List.{list_any};
ghost use Rattle.std.specs.IoError.{error_kind};
ghost use Rattle.desk_io.specs.Counts.{CountRose};

use crate::desk::DeskFault;
use std::io::{self, ErrorKind};

/// One more than `count`. At the last value, `count` itself.
pub fn raised(count: u64) -> u64
    ensures rose { CountRose count result }
    ensures counts { count ≤ result }
{
    count.saturating_add(1)
}

/// The fault for an error of the system: `Memory` for an error of that kind, and `Failed` for each
/// other. It is counted, except if memory ran out.
pub fn counted(error: &io::Error, faults: &mut u64) -> DeskFault
    ensures memory { result ≡ DeskFault.Memory ↔ error_kind error.now ≡ ErrorKind.OutOfMemory }
    ensures uncounted { result ≡ DeskFault.Memory → faults.new ≡ faults.old }
    ensures failed { result ≡ DeskFault.Failed → CountRose faults.old faults.new }
    ensures counts { faults.old ≤ faults.new }
{
    if error.kind() == ErrorKind::OutOfMemory {
        return DeskFault::Memory;
    }
    *faults = raised(*faults);
    DeskFault::Failed
}

/// Which calls of a desk or a sink in memory fail: those whose numbers, counted from 0, are listed.
#[derive(Drop)]
pub struct FaultPlan {
    fail_at: Vec<u64>,
    calls: u64,
}

impl FaultPlan {
    pub fn new(fail_at: Vec<u64>) -> FaultPlan
        ensures plan { result.fail_at ≡ fail_at }
        ensures calls { result.calls ≡ 0 }
    {
        FaultPlan { fail_at, calls: 0 }
    }

    /// Counts a call, and returns whether it is to fail.
    pub fn is_to_fail(&mut self) -> bool
        ensures fails { result
            ≡ list_any (λ call. nat_eq call self.old.calls) self.old.fail_at.items }
        ensures calls { self.new.calls ≡ min (self.old.calls + 1) (2 ^ 64 - 1) }
        ensures plan { self.new.fail_at ≡ self.old.fail_at }
    {
        let fails = self.fail_at.contains(&self.calls);
        self.calls = self.calls.saturating_add(1);
        fails
    }
}
