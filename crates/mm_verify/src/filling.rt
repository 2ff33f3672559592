// Statements of assertions, whose variables are replaced by the texts of the stack's entries.
ghost use Rattle.std.specs.Prelude.{◌≡◌, ◌+◌, ◌-◌, ◌<◌, ◌++◌, ◌∷◌, [], ℕ, List, false, length};
ghost use Rattle.std.specs.Prelude.{drop};
ghost use Rattle.std.specs.Prelude.{OnOk, MatchOption};
ghost use Rattle.mm_verify.specs.Filling.{part_text, text_at, filled, IsWithin, AreWithin};
ghost use Rattle.mm_database.specs.Stack.{behind_first};
ghost use Rattle.mm_frame.specs.NumberedSteps.{same_numbers};

use crate::parts::Part;
use crate::stack::Stack;
use std::alloc::AllocError;
use std::slice::from_ref;

/// An entry of this many symbols or more is long.
const LONG: usize = 65536;

/// The text of a part: the symbol itself, or the symbols after the typecode of an entry from `base`
/// on.
pub(crate) fn text_of<'a>(part: &'a Part, stack: &'a Stack<'_>, base: usize) -> &'a [u32]
    requires { IsWithin (length (drop base stack.now)) part.now }
    ensures { result.now ≡ part_text (drop base stack.now) part.now }
{
    match part.place() {
        None => from_ref(&part.symbol),
        Some(place) => text_at(stack, base, place),
    }
}

/// The text of the entry at a place from `base` on: the symbols after its typecode.
pub(crate) fn text_at<'m>(stack: &'m Stack<'_>, base: usize, place: usize) -> &'m [u32]
    requires { place < length (drop base stack.now) }
    ensures { result.now ≡ text_at (drop base stack.now) place }
{
    behind_typecode(stack.entry_above(base, place))
}

/// The symbols after the first one of an entry.
fn behind_typecode(entry: &[u32]) -> &[u32]
    ensures { result.now ≡ behind_first entry.now }
{
    match entry {
        [_typecode, text @ ..] => text,
        [] => entry,
    }
}

/// Whether the text of an entry from `base` on is empty.
pub(crate) fn has_empty_text(stack: &Stack<'_>, base: usize) -> bool {
    for i in base..stack.len() {
        if stack.entry(i).len() < 2 {
            return true;
        }
    }
    false
}

/// Whether the statement of some parts may be long, by the length of the longest entry.
fn may_be_long(parts: &[Part], stack: &Stack<'_>) -> bool {
    parts.len().saturating_mul(stack.longest()) >= LONG
}

/// How long the statement of some parts is, with the texts of the entries from `base` on.
fn filled_length(parts: &[Part], stack: &Stack<'_>, base: usize) -> usize
    requires within { AreWithin (length (drop base stack.now)) parts.now }
{
    let mut length: usize = 0;
    for part in parts {
        length = length.saturating_add(text_of(part, &*stack, base).len());
    }
    length
}

/// Appends the statement of some parts, as `fill` does. If it may be
/// long, room for all of it is asked for before any of it is written.
pub(crate) fn fill_reserved(
    parts: &[Part],
    stack: &Stack<'_>,
    base: usize,
    to: &mut Vec<u32>,
) -> Result<(), AllocError>
    requires within { AreWithin (length (drop base stack.now)) parts.now }
    ensures filled { OnOk result
        (to.new.items ≡ to.old.items ++ filled (drop base stack.now) parts.now) }
{
    if may_be_long(parts, stack) {
        to.reserve(filled_length(parts, stack, base))?;
    }
    fill(parts, stack, base, to)
}

/// Appends the statement of some parts, with the texts of the entries from `base` on. It takes time
/// in the number of the parts and in the length of what is appended.
fn fill(parts: &[Part], stack: &Stack<'_>, base: usize, to: &mut Vec<u32>) -> Result<(), AllocError>
    requires within { AreWithin (length (drop base stack.now)) parts.now }
    ensures { OnOk result (to.new.items ≡ to.old.items ++ filled (drop base stack.now) parts.now) }
{
    for part in parts {
        append_part(part, stack, base, to)?;
    }
    Ok(())
}

/// Appends the text of a part.
fn append_part(
    part: &Part,
    stack: &Stack<'_>,
    base: usize,
    to: &mut Vec<u32>,
) -> Result<(), AllocError>
    requires within { IsWithin (length (drop base stack.now)) part.now }
    ensures { OnOk result
        (to.new.items ≡ to.old.items ++ part_text (drop base stack.now) part.now) }
{
    match part.place() {
        None => to.push(part.symbol)?,
        Some(place) => to.extend_from_slice(text_at(stack, base, place))?,
    }
    Ok(())
}

/// Whether an entry is the statement of some parts.
pub(crate) fn is_filled(parts: &[Part], stack: &Stack<'_>, base: usize, entry: &[u32]) -> bool
    requires within { AreWithin (length (drop base stack.now)) parts.now }
    ensures { result ≡ same_numbers entry.now (filled (drop base stack.now) parts.now) }
{
    let mut rest = entry;
    for part in parts {
        match behind_part(part, stack, base, rest) {
            Some(behind) => rest = behind,
            None => return false,
        }
    }
    rest.is_empty()
}

/// The symbols after the text of a part, or `None` if they do not begin with it.
fn behind_part<'r>(
    part: &Part,
    stack: &Stack<'_>,
    base: usize,
    symbols: &'r [u32],
) -> Option<&'r [u32]>
    requires within { IsWithin (length (drop base stack.now)) part.now }
    ensures { (others : List ℕ) → MatchOption result
        (same_numbers symbols.now (part_text (drop base stack.now) part.now ++ others) ≡ false)
        (λ r. same_numbers symbols.now (part_text (drop base stack.now) part.now ++ others)
        ≡ same_numbers r.now others) }
{
    match part.place() {
        None => behind_symbol(part.symbol, symbols),
        Some(place) => behind_text(text_at(stack, base, place), symbols),
    }
}

/// The symbols after the first one if this is the given one, or else `None`.
fn behind_symbol(symbol: u32, symbols: &[u32]) -> Option<&[u32]>
    ensures { (others : List ℕ) → MatchOption result
        (same_numbers symbols.now (symbol ∷ others) ≡ false)
        (λ r. same_numbers symbols.now (symbol ∷ others) ≡ same_numbers r.now others) }
{
    match symbols {
        [first, behind @ ..] => if *first == symbol { Some(behind) } else { None },
        [] => None,
    }
}

/// The symbols after a text, or `None` if they do not begin with it.
fn behind_text<'r>(text: &[u32], symbols: &'r [u32]) -> Option<&'r [u32]>
    ensures { (others : List ℕ) → MatchOption result
        (same_numbers symbols.now (text.now ++ others) ≡ false)
        (λ r. same_numbers symbols.now (text.now ++ others) ≡ same_numbers r.now others) }
{
    symbols.strip_prefix(text)
}
