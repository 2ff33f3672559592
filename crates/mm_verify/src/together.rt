// Whether one `$d` keeps apart all variables of the texts of a group.
ghost use Rattle.std.specs.Prelude.{◌≡◌, ◌<◌, true, length, drop, IfOk, []};
ghost use Rattle.mm_verify.specs.Filling.{AreWithin, IsWithin, text_at, text_for};
ghost use Rattle.mm_verify.specs.Filling.{is_group_apart as group_apart};
ghost use Rattle.mm_verify.specs.Pairs.{AreKnown};
ghost use Rattle.mm_verify.specs.Meeting.{AreSeen, MeetsOne, MeetsAll, MeetsText};
ghost use Rattle.mm_verify.specs.Places.{place_in};

use crate::parts::Part;
use crate::place::Place;
use crate::spreads::{Spreads, are_pairs_apart};
use crate::stack::Stack;
use std::alloc::{AllocError, Global};
use std::collections::BTreeMap;

/// In a group of at least this many parts, one `$d` is looked for that keeps all their variables
/// apart.
const WIDE: usize = 24;

/// Variables that were met, as a list and as a table.
#[derive(Drop)]
pub(crate) struct Met {
    variables: Vec<u32>,
    seen: BTreeMap<u32, ()>,
}

impl Met {
    /// No variable is met yet.
    fn new(alloc: Global) -> Met
        ensures { result.variables.items ≡ [] }
    {
        Met {
            variables: Vec::new(alloc),
            seen: BTreeMap::new(alloc),
        }
    }

    /// Meets a variable. Returns whether it is new. If it is not, the search ends, and what was met
    /// is used no more.
    fn meet(&mut self, n: u32) -> Result<bool, AllocError>
        requires { AreSeen self.old }
        ensures { IfOk result (λ r. r ≡ true → MeetsOne self.old n self.new) }
    {
        if self.seen.insert(n, ())?.is_some() {
            return Ok(false);
        }
        self.variables.push(n)?;
        Ok(true)
    }

    /// The same for several variables.
    fn meet_all(&mut self, list: &[u32]) -> Result<bool, AllocError>
        requires { AreSeen self.old }
        ensures { IfOk result (λ r. r ≡ true → MeetsAll self.old list.now self.new) }
    {
        for n in list {
            if !self.meet(*n)? {
                return Ok(false);
            }
        }
        Ok(true)
    }
}

/// Meets the variables of the text of an entry. Returns whether they are all new.
fn meet_text<P: Place>(
    place: &P,
    i: usize,
    stack: &Stack<'_>,
    base: usize,
    spreads: &mut Spreads,
    met: &mut Met,
) -> Result<bool, AllocError>
    requires within { i < length (drop base stack.now) }
    requires known { AreKnown (P.place place.now) (drop base stack.now) spreads.old }
    requires seen { AreSeen met.old }
    ensures known { IfOk result
        (λ _. AreKnown (P.place place.now) (drop base stack.now) spreads.new) }
    ensures met { IfOk result (λ r. r ≡ true
        → MeetsText (P.place place.now) (text_at (drop base stack.now) i) met.old met.new) }
{
    let number = spreads.find(place, stack, base, i)?;
    met.meet_all(spreads.list(number))
}

/// The same for the text of a part, if it has one.
fn meet_part<P: Place>(
    place: &P,
    part: &Part,
    stack: &Stack<'_>,
    base: usize,
    spreads: &mut Spreads,
    met: &mut Met,
) -> Result<bool, AllocError>
    requires within { IsWithin (length (drop base stack.now)) part.now }
    requires known { AreKnown (P.place place.now) (drop base stack.now) spreads.old }
    requires seen { AreSeen met.old }
    ensures known { IfOk result
        (λ _. AreKnown (P.place place.now) (drop base stack.now) spreads.new) }
    ensures met { IfOk result (λ r. r ≡ true
        → MeetsText (P.place place.now) (text_for (drop base stack.now) (place_in part.now)) met.old
        met.new) }
{
    match part.place() {
        None => Ok(true),
        Some(i) => meet_text(place, i, stack, base, spreads, met),
    }
}

/// Whether it is found that no two texts of a group have a variable in common, and that one `$d`
/// keeps all their variables apart. It takes time in the length of the texts whose variables are
/// not known yet and in the number of variables, times their logarithm.
fn are_together<P: Place>(
    alloc: Global,
    place: &P,
    group: &[Part],
    stack: &Stack<'_>,
    base: usize,
    spreads: &mut Spreads,
) -> Result<bool, AllocError>
    requires within { AreWithin (length (drop base stack.now)) group.now }
    requires known { AreKnown (P.place place.now) (drop base stack.now) spreads.old }
    ensures known { IfOk result
        (λ _. AreKnown (P.place place.now) (drop base stack.now) spreads.new) }
    ensures apart { IfOk result (λ r. r ≡ true
        → group_apart (P.place place.now) (drop base stack.now) group.now ≡ true) }
{
    let mut met = Met::new(alloc);
    let mut at = group.len();
    while at > 0 {
        at -= 1;
        let part = &group[at];
        if !meet_part(place, part, stack, base, spreads, &mut met)? {
            return Ok(false);
        }
    }
    Ok(place.are_together(&met.variables))
}

/// Whether the texts of different variables of a group have no variable in common, and each pair of
/// their variables is kept apart at the place. In a large group one `$d` is looked for that keeps
/// all of them apart. If none is found, the pairs are tested.
pub(crate) fn is_group_apart<P: Place>(
    alloc: Global,
    place: &P,
    group: &[Part],
    stack: &Stack<'_>,
    base: usize,
    spreads: &mut Spreads,
) -> Result<bool, AllocError>
    requires within { AreWithin (length (drop base stack.now)) group.now }
    requires known { AreKnown (P.place place.now) (drop base stack.now) spreads.old }
    ensures known { IfOk result
        (λ _. AreKnown (P.place place.now) (drop base stack.now) spreads.new) }
    ensures apart { IfOk result
        (λ r. r ≡ group_apart (P.place place.now) (drop base stack.now) group.now) }
{
    if group.len() < WIDE {
        return are_pairs_apart(place, group, stack, base, spreads);
    }
    if are_together(alloc, place, group, stack, base, spreads)? {
        return Ok(true);
    }
    are_pairs_apart(place, group, stack, base, spreads)
}
