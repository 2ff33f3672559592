// Whether entries are what an assertion asks for.
ghost use Rattle.std.specs.Prelude.{◌≡◌, length, drop, All, IfOk};
ghost use Rattle.mm_verify.specs.Filling.{HasWithin, is_wanted as wants, are_wanted as all_wanted};
ghost use Rattle.mm_frame.specs.NumberedSteps.{begins_with as begins};

use crate::parts::Wanted;
use crate::present::Present;
use crate::stack::Stack;
use std::alloc::AllocError;

/// Whether the entries from `base` on are what an assertion asks for, each for its hypothesis.
pub(crate) fn are_wanted(
    wanted: &[Wanted<'_>],
    stack: &Stack<'_>,
    base: usize,
    present: &mut Present,
) -> Result<bool, AllocError>
    requires count { length wanted.now ≡ length (drop base stack.now) }
    requires within { All (HasWithin (length (drop base stack.now))) wanted.now }
    ensures { IfOk result (λ r. r
        ≡ all_wanted (drop base stack.now) wanted.now (drop base stack.now)) }
{
    for i in 0..wanted.len() {
        let one = &wanted[i];
        let entry = stack.entry_above(base, i);
        if !is_wanted(one, stack, base, entry, present)? {
            return Ok(false);
        }
    }
    Ok(true)
}

/// Whether an entry is what one hypothesis asks for.
fn is_wanted(
    wanted: &Wanted<'_>,
    stack: &Stack<'_>,
    base: usize,
    entry: &[u32],
    present: &mut Present,
) -> Result<bool, AllocError>
    requires within { HasWithin (length (drop base stack.now)) wanted.now }
    ensures { IfOk result (λ r. r ≡ wants (drop base stack.now) wanted.now entry.now) }
{
    match wanted {
        Wanted::Typed(_label, typecode, _variable) => Ok(begins_with(entry, *typecode)),
        Wanted::Stated(_label, statement) => statement.is_filled(stack, base, entry, present),
    }
}

/// Whether an entry begins with this typecode.
fn begins_with(entry: &[u32], typecode: u32) -> bool
    ensures { result ≡ begins typecode entry.now }
{
    match entry {
        [first, ..] => *first == typecode,
        [] => false,
    }
}
