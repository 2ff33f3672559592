// What a variable stands for at a place, without building it.
ghost use Rattle.std.specs.Prelude.{◌≡◌, ◌≢◌, ◌<◌, length, Some, None, slice_get};
ghost use Rattle.term_core.specs.TreeTest.{tree_eq};
ghost use Rattle.pat_matrix.specs.Positions.{subject_at};
ghost use Rattle.pat_matrix.specs.Occurrences.{tree_of_place, same_trees};
ghost use Rattle.pat_matrix.specs.PlaceView.{place_of};
ghost use Rattle.match_tree.specs.Standing.{standing_tree};

use pat_matrix::{Place, Twin};
use std::sync::ledger::Ledger;
use term_core::{SortId, Steps, Term, View};

// A term, or the injection of a term from a sort to another.
#[derive(Clone, Copy)]
pub(crate) struct Standing<'a> {
    pub(crate) term: &'a Term,
    pub(crate) lifted: Option<(SortId, SortId)>,
}

// The term at a position of the subjects.
pub(crate) fn term_at<'a>(subjects: &'a [Term], position: &[usize]) -> &'a Term
    requires { subject_at subjects.now position.now ≢ None }
    ensures { subject_at subjects.now position.now ≡ Some result.now }
{
    let mut term = &subjects[position[0]];
    for i in 1..position.len() {
        term = term.child(number_at(position, i));
    }
    term
}

// The number at an index of a position.
fn number_at(position: &[usize], i: usize) -> usize
    requires { i < length position.now }
    ensures { slice_get position.now i ≡ Some result }
{
    position[i]
}

// What the variable at a place stands for.
fn stands_for<'a, L: Ledger>(
    place: &Place,
    subjects: &'a [Term],
    steps: &mut Steps<L>,
) -> Standing<'a>
    requires { tree_of_place subjects.now (place_of place.now) ≢ None }
    ensures { tree_of_place subjects.now (place_of place.now) ≡ Some (standing_tree result) }
{
    let term = term_at(subjects, &place.position);
    match place.under {
        None => Standing { term, lifted: None },
        Some(sort) => match term.view(steps) {
            View::Inj(from, _) => {
                let lifted = if from == sort {
                    None
                } else {
                    Some((from, sort))
                };
                Standing {
                    term: term.child(0),
                    lifted,
                }
            }
            _ => unreachable!(),
        },
    }
}

// Whether both are the same term.
pub(crate) fn same(x: &Standing<'_>, y: &Standing<'_>) -> bool
    ensures { result ≡ tree_eq (standing_tree x.now) (standing_tree y.now) }
{
    match (x.lifted, y.lifted) {
        (None, None) => x.term.same(y.term),
        (Some((from, to)), None) => y.term.same_inj(from, to, x.term),
        (None, Some((from, to))) => x.term.same_inj(from, to, y.term),
        (Some((from, to)), Some((other_from, other_to))) => from == other_from
            && to == other_to
            && x.term.same(y.term),
    }
}

// Whether the variable stands for one term at both places.
pub(crate) fn twin_agrees<L: Ledger>(twin: &Twin, subjects: &[Term], steps: &mut Steps<L>) -> bool
    requires first { tree_of_place subjects.now (place_of twin.now.first) ≢ None }
    requires second { tree_of_place subjects.now (place_of twin.now.second) ≢ None }
    ensures { result ≡ same_trees (tree_of_place subjects.now (place_of twin.now.first))
        (tree_of_place subjects.now (place_of twin.now.second)) }
{
    let first = stands_for(&twin.first, subjects, steps);
    let second = stands_for(&twin.second, subjects, steps);
    same(&first, &second)
}
