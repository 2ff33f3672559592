// The parts of long statements whose texts are not empty. A step passes over the others.
ghost use Rattle.std.specs.Prelude.{◌≡◌, ◌≤◌, ◌<◌, ◌++◌, ℕ, length, drop, map, flat_map, All, IfOk};
ghost use Rattle.std.specs.Prelude.{slice_get, slice_index};
ghost use Rattle.std.specs.List.Sorted.{IsNonDecreasingBy};
ghost use Rattle.mm_frame.specs.PlainFrames.{has_number};
ghost use Rattle.mm_frame.specs.Places.{passes, found_at};
ghost use Rattle.mm_frame.specs.Spots.{AreSpots, position_at, symbol_at};
ghost use Rattle.mm_verify.specs.Filling.{AreWithin, filled};
ghost use Rattle.mm_verify.specs.LongStatementView.{long_parts, long_symbols};
ghost use Rattle.mm_verify.specs.Present.{has_text};

use crate::filling::text_of;
use crate::long_statement::LongStatement;
use crate::parts::Part;
use crate::stack::Stack;
use std::alloc::{AllocError, Global};

/// A spot is a symbol times this, plus a position.
const SPAN: u64 = 4294967296;

/// Parts of a statement, in order: those whose texts are not empty, or all. It keeps its memory
/// from one step to the next.
#[derive(Drop)]
pub(crate) struct Present {
    positions: Vec<usize>,
    pub(crate) parts: Vec<Part>,
}

impl Present {
    /// None.
    pub(crate) fn new(alloc: Global) -> Present {
        Present {
            positions: Vec::new(alloc),
            parts: Vec::new(alloc),
        }
    }

    /// Takes the parts of a statement. If some texts `are_empty` and the spots are listed, takes
    /// only the parts whose texts are not empty.
    pub(crate) fn take(
        &mut self,
        statement: &LongStatement,
        stack: &Stack<'_>,
        base: usize,
        are_empty: bool,
    ) -> Result<(), AllocError>
        requires within { AreWithin (length (drop base stack.now)) (long_parts statement.now) }
        ensures within { IfOk result
            (λ _. AreWithin (length (drop base stack.now)) self.new.parts.items) }
        ensures filled { IfOk result (λ _. filled (drop base stack.now) self.new.parts.items
            ≡ filled (drop base stack.now) (long_parts statement.now)) }
    {
        if are_empty {
            if let Some(spots) = statement.spots() {
                return self.find(statement, spots, stack, base);
            }
        }
        all_parts(statement, &mut self.parts)
    }

    /// Takes the parts whose texts are not empty. It takes time in their number and in the number
    /// of different symbols of the statement, times the logarithm of its length.
    fn find(
        &mut self,
        statement: &LongStatement,
        spots: &[u64],
        stack: &Stack<'_>,
        base: usize,
    ) -> Result<(), AllocError>
        requires spots { AreSpots (long_symbols statement.now) spots.now }
        requires within { AreWithin (length (drop base stack.now)) (long_parts statement.now) }
        ensures within { IfOk result
            (λ _. AreWithin (length (drop base stack.now)) self.new.parts.items) }
        ensures filled { IfOk result (λ _. filled (drop base stack.now) self.new.parts.items
            ≡ filled (drop base stack.now) (long_parts statement.now)) }
    {
        gather(statement, spots, stack, base, &mut self.positions)?;
        self.positions.sort_unstable();
        self.positions.dedup();
        parts_at(statement, &self.positions, &mut self.parts)
    }
}

/// All parts.
fn all_parts(statement: &LongStatement, to: &mut Vec<Part>) -> Result<(), AllocError>
    ensures { IfOk result (λ _. to.new.items ≡ long_parts statement.now) }
{
    to.clear();
    for position in 0..statement.len() {
        to.push(statement.part(position))?;
    }
    Ok(())
}

/// The positions of the parts whose texts are not empty, in any order.
fn gather(
    statement: &LongStatement,
    spots: &[u64],
    stack: &Stack<'_>,
    base: usize,
    to: &mut Vec<usize>,
) -> Result<(), AllocError>
    requires spots { AreSpots (long_symbols statement.now) spots.now }
    requires within { AreWithin (length (drop base stack.now)) (long_parts statement.now) }
    ensures { IfOk result (λ _. (i : ℕ) → has_number to.new.items i
        ≡ passes (has_text (drop base stack.now)) (slice_get (long_parts statement.now) i)) }
{
    to.clear();
    let mut at = 0;
    while at < spots.len() {
        let end = run_end(spots, at);
        if is_present(statement, spots[at], stack, base) {
            push_positions(&spots[at..end], to)?;
        }
        at = end;
    }
    Ok(())
}

/// The end of the run of spots of one symbol that begins with the spot of this number.
fn run_end(spots: &[u64], at: usize) -> usize
    requires at { at < length spots.now }
    requires ordered { IsNonDecreasingBy symbol_at spots.now }
    ensures room { result ≤ length spots.now }
    ensures more { at < result }
    ensures same { (k : ℕ) → at ≤ k → k < result
        → symbol_at (slice_index spots.now k) ≡ symbol_at (slice_index spots.now at) }
{
    let symbol = spots[at] / SPAN;
    spots.partition_point(|spot| *spot / SPAN <= symbol)
}

/// Whether the text of the part at a spot is not empty.
fn is_present(statement: &LongStatement, spot: u64, stack: &Stack<'_>, base: usize) -> bool
    requires at { position_at spot < length (long_symbols statement.now) }
    requires within { AreWithin (length (drop base stack.now)) (long_parts statement.now) }
    ensures { result ≡ passes (has_text (drop base stack.now))
        (slice_get (long_parts statement.now) (position_at spot)) }
{
    let part = statement.part(position_of(spot));
    !text_of(&part, stack, base).is_empty()
}

/// The position of a spot.
fn position_of(spot: u64) -> usize
    ensures { result ≡ position_at spot }
{
    (spot % SPAN) as usize
}

/// Appends the positions of spots.
fn push_positions(spots: &[u64], to: &mut Vec<usize>) -> Result<(), AllocError>
    ensures { IfOk result (λ _. to.new.items ≡ to.old.items ++ map position_at spots.now) }
{
    for spot in spots {
        to.push(position_of(*spot))?;
    }
    Ok(())
}

/// The parts at positions.
fn parts_at(
    statement: &LongStatement,
    positions: &[usize],
    to: &mut Vec<Part>,
) -> Result<(), AllocError>
    requires { All (λ i. i < length (long_symbols statement.now)) positions.now }
    ensures { IfOk result (λ _. to.new.items
        ≡ flat_map (λ i. found_at (slice_get (long_parts statement.now) i)) positions.now) }
{
    to.clear();
    for position in positions {
        to.push(statement.part(*position))?;
    }
    Ok(())
}
