// What the variables of a row stand for at its hit, without a look at a term.
ghost use Rattle.std.specs.Prelude.{◌≡◌, ◌≢◌, None, Some, IfOk, option_map};
ghost use Rattle.pat_matrix.specs.Positions.{subject_at};
ghost use Rattle.pat_matrix.specs.PlaceView.{place_of, twins_of};
ghost use Rattle.match_tree.specs.Spots.{lift_from, spot_of, spots_of, tree_of_spot, spots_agree};
ghost use Rattle.match_tree.specs.Spots.{AreSpotsThere};
ghost use Rattle.match_tree.specs.SpotView.{lift_numbers, plain_spot, plain_spots};
ghost use Rattle.match_tree.specs.Standing.{standing_tree};
ghost use Rattle.match_tree.specs.TrailView.{plain_trail, sort_number};

use crate::standing::{Standing, same, term_at};
use crate::trails::{Tested, source_at};
use pat_matrix::{Place, Twin, child_position};
use std::alloc::{AllocError, Global};
use term_core::{SortId, Term};

// The term at a position of the subjects, or its injection from one sort to another.
#[derive(Drop)]
pub(crate) struct Spot {
    position: Vec<usize>,
    lift: Option<(SortId, SortId)>,
}

// The spots of two places of one variable.
#[derive(Drop)]
pub(crate) struct SpotTwin {
    first: Spot,
    second: Spot,
}

impl Spot {
    // What the variable stands for.
    fn standing<'a>(&self, subjects: &'a [Term]) -> Standing<'a>
        requires { subject_at subjects.now self.now.position.items ≢ None }
        ensures { tree_of_spot subjects.now (plain_spot self.now) ≡ Some (standing_tree result) }
    {
        Standing {
            term: term_at(subjects, &self.position),
            lifted: self.lift,
        }
    }
}

// Whether the two spots of each pair have one term. It looks at no term.
pub(crate) fn spots_agree(spots: &[SpotTwin], subjects: &[Term]) -> bool
    requires { AreSpotsThere subjects.now (plain_spots spots.now) }
    ensures { result ≡ spots_agree subjects.now (plain_spots spots.now) }
{
    for twin in spots {
        let first = twin.first.standing(subjects);
        let second = twin.second.standing(subjects);
        if !same(&first, &second) {
            return false;
        }
    }
    true
}

// The spots of a row's twins, by what was tested. An error: out of memory.
pub(crate) fn spots_of(
    alloc: Global,
    twins: &[Twin],
    trail: &[Tested],
) -> Result<Vec<SpotTwin>, AllocError>
    ensures { IfOk result (λ spots. plain_spots spots.items
        ≡ spots_of (plain_trail trail.now) (twins_of twins.now)) }
{
    let mut spots = Vec::with_capacity(alloc, twins.len())?;
    for twin in twins {
        let first = spot_of(alloc, &twin.first, trail)?;
        let second = spot_of(alloc, &twin.second, trail)?;
        spots.push(SpotTwin { first, second })?;
    }
    Ok(spots)
}

// The spot of a place. An error: out of memory.
fn spot_of(alloc: Global, place: &Place, trail: &[Tested]) -> Result<Spot, AllocError>
    ensures { IfOk result
        (λ spot. plain_spot spot ≡ spot_of (plain_trail trail.now) (place_of place.now)) }
{
    match place.under {
        None => {
            let position = place.position.to_vec(alloc)?;
            Ok(Spot {
                position,
                lift: None,
            })
        }
        Some(sort) => {
            let position = child_position(alloc, &place.position, 0)?;
            let lift = lift_from(sort, source_at(trail, &place.position));
            Ok(Spot { position, lift })
        }
    }
}

// How the child of an injection from `source` becomes a term of the sort.
fn lift_from(sort: SortId, source: Option<SortId>) -> Option<(SortId, SortId)>
    ensures { option_map lift_numbers result ≡ lift_from sort.0 (option_map sort_number source) }
{
    match source {
        None => None,
        Some(from) => {
            if from == sort {
                None
            } else {
                Some((from, sort))
            }
        }
    }
}
