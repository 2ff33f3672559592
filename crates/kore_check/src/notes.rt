// The first of the faults that are noted.
ghost use Rattle.std.specs.Prelude.{◌≡◌};
ghost use Rattle.kore_sig.specs.Noted.{kept, leads_by_byte};
ghost use Rattle.kore_check.specs.FaultNumbers.{fault_number};
ghost use Rattle.kore_check.specs.Notes.{kept_fault};

use crate::{FaultKind, PatternFault};

// Notes a fault. The first of it and of the fault that was kept before is kept.
pub(crate) fn note(first: &mut Option<PatternFault>, kind: FaultKind, at: u32)
    ensures { kept_fault first.new
        ≡ kept leads_by_byte (kept_fault first.old)
        (record { number = fault_number kind; byte = at }) }
{
    let fault = PatternFault { kind, at };
    match first {
        Some(earlier) if earlier.leads(fault) => {}
        _ => *first = Some(fault),
    }
}
