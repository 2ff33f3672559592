// How many nodes a term has, up to a bound.
ghost use Rattle.std.specs.Prelude.{◌≡◌, ◌+◌, ◌<◌, ◌≤◌, ◌↔◌, IfSome, IfNone, IsTrue};
ghost use Rattle.term_core.specs.Forests.{size};

use std::marker::Brand;
use std::sync::ledger::{Blank, Ledger};
use term_core::{Steps, Term, View};

// Whether a term has at most so many values, constructors and injections. It looks at no more of
// them, so that a term with shared parts costs no more than the bound.
pub(crate) fn has_at_most(term: &Term, room: usize) -> bool
    ensures { IsTrue result ↔ (size term.now ≤ room) }
{
    counted_most::<Brand>(term, room, Blank::new(1))
}

// The same, with a counter of the looks. Its count is never read.
fn counted_most<L: Ledger>(term: &Term, room: usize, blank: Blank) -> bool
    requires name { blank.name ≡ L.name }
    requires parts { blank.parts ≡ L.parts }
    requires some { 0 < L.parts }
    ensures { IsTrue result ↔ (size term.now ≤ room) }
{
    let mut steps = Steps::<L>::new(blank);
    room_after(term, room, &mut steps).is_some()
}

// What is left of the room after one place for each node.
fn room_after<L: Ledger>(term: &Term, room: usize, steps: &mut Steps<L>) -> Option<usize>
    ensures left { IfSome result (λ left. left + size term.now ≡ room) }
    ensures none { IfNone result (room < size term.now) }
{
    if room == 0 {
        return None;
    }
    match term.view(steps) {
        View::Value(_, _) => Some(room - 1),
        View::Ctor(_, count) => {
            let mut left = room - 1;
            for i in 0..count {
                let Some(rest) = room_after(term.child(i), left, steps) else {
                    return None;
                };
                left = rest;
            }
            Some(left)
        }
        View::Inj(_, _) => room_after(term.child(0), room - 1, steps),
    }
}
