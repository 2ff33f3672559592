// What was tested on the way to a place of a tree.
ghost use Rattle.std.specs.Prelude.{◌≡◌, ◌++◌, ◌∷◌, [], map, IfOk, option_map};
ghost use Rattle.term_core.specs.RulePatterns.{plain_pattern};
ghost use Rattle.pat_matrix.specs.Positions.{asked_positions};
ghost use Rattle.match_tree.specs.Trails.{first_untested, source_at};
ghost use Rattle.match_tree.specs.TrailView.{plain_trail, sort_number, HasTested};

use indexmap::IndexSet;
use pat_matrix::asked_positions;
use std::alloc::{AllocError, Global};
use term_core::{RulePat, SortId};

// A position that was tested, and the source sort if an injection was found there.
#[derive(Drop)]
pub(crate) struct Tested {
    position: Vec<usize>,
    source: Option<SortId>,
}

// The first of the positions that the row asks and that were not tested. An error: out of memory.
// It takes one step for each of the positions and each place of the trail.
pub(crate) fn untested(
    alloc: Global,
    row: &[RulePat],
    trail: &[Tested],
) -> Result<Option<Vec<usize>>, AllocError>
    ensures { IfOk result (λ found. option_map (λ p. p.items) found
        ≡ first_untested (plain_trail trail.now) (asked_positions (map plain_pattern row.now))) }
{
    let known = tested_positions(alloc, trail)?;
    let asked = asked_positions(alloc, row)?;
    for position in &asked {
        if !known.contains(position.as_slice()) {
            return Ok(Some(position.to_vec(alloc)?));
        }
    }
    Ok(None)
}

// The positions that were tested. An error: out of memory.
fn tested_positions(alloc: Global, trail: &[Tested]) -> Result<IndexSet<Vec<usize>>, AllocError>
    ensures { IfOk result (λ known. HasTested known.keys (plain_trail trail.now)) }
{
    let mut known = IndexSet::new(alloc);
    for tested in trail {
        known.insert(tested.position.to_vec(alloc)?)?;
    }
    Ok(known)
}

// The source sort of the injection that was found at the position.
pub(crate) fn source_at(trail: &[Tested], position: &[usize]) -> Option<SortId>
    ensures { option_map sort_number result ≡ source_at (plain_trail trail.now) position.now }
{
    for tested in trail {
        if tested.source.is_some() && tested.position.as_slice() == position {
            return tested.source;
        }
    }
    None
}

// The trail with one more position. An error: out of memory. It copies the trail.
pub(crate) fn extended(
    alloc: Global,
    trail: &[Tested],
    position: &[usize],
    source: Option<SortId>,
) -> Result<Vec<Tested>, AllocError>
    ensures { IfOk result (λ more. plain_trail more.items
        ≡ plain_trail trail.now ++ (position.now, option_map sort_number source) ∷ []) }
{
    let mut more = Vec::with_capacity(alloc, trail.len())?;
    for tested in trail {
        let position = tested.position.to_vec(alloc)?;
        let source = tested.source;
        more.push(Tested { position, source })?;
    }
    let position = position.to_vec(alloc)?;
    more.push(Tested { position, source })?;
    Ok(more)
}
