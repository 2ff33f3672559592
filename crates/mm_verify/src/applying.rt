// Steps that apply assertions.
ghost use Rattle.std.specs.Prelude.{length, IfOk, option_map};
ghost use Rattle.mm_database.specs.Stack.{saving, stack_with};
ghost use Rattle.mm_frame.specs.NumberedSteps.{numbered_applied};
ghost use Rattle.mm_verify.specs.AssertionView.{assertion_frame};
ghost use Rattle.mm_verify.specs.Applied.{AgreesWithStep};
ghost use Rattle.mm_verify.specs.Pairs.{AreNoted};

use crate::assertion::Assertion;
use crate::entries::Entries;
use crate::place::Place;
use crate::spreads::Spreads;
use std::alloc::{AllocError, Global};

/// Applies an assertion. Its statement, with the texts that the last entries of the stack give its
/// variables, takes the place of these entries, one for each mandatory hypothesis. Returns whether
/// the entries are what the assertion asks for; if not, the entries are as before. The buffer is for
/// the new entry and `spreads` for the tests of `$d`: they keep their memory from step to step. If
/// the entry may be long, room for all of it is asked for before any of it is written. It takes
/// time in the length of the entries and of the new one, and what the tests of `$d` take.
pub(crate) fn apply<P: Place>(
    alloc: Global,
    place: &P,
    assertion: &Assertion<'_>,
    entries: &mut Entries,
    buffer: &mut Vec<u32>,
    spreads: &mut Spreads,
) -> Result<bool, AllocError>
    requires noted { AreNoted (P.place place.now) spreads.old.notes }
    ensures noted { IfOk result (λ _. AreNoted (P.place place.now) spreads.new.notes) }
    ensures step { IfOk result (AgreesWithStep
        (option_map (λ s. saving s entries.old.saved)
        (stack_with (numbered_applied (P.place place.now) (assertion_frame assertion.now))
        (length (assertion_frame assertion.now).hypotheses) entries.old.stack))
        entries.old entries.new) }
{
    let count = assertion.count();
    let stack = entries.stack();
    if stack.len() < count {
        return Ok(false);
    }
    let base = stack.len() - count;
    if !assertion.is_met(alloc, place, &stack, base, spreads)? {
        return Ok(false);
    }
    buffer.clear();
    assertion.conclude(&stack, base, buffer, &mut spreads.present)?;
    entries.conclude(alloc, base, buffer)?;
    Ok(true)
}
