// The places of a row's variables.
ghost use Rattle.std.specs.Prelude.{◌≡◌, ◌++◌, ◌∷◌, [], map, OnOk, IfOk, option_map, option_copied};
ghost use Rattle.term_core.specs.RulePatterns.{plain_pattern};
ghost use Rattle.term_core.specs.PatternLists.{plain_patterns};
ghost use Rattle.pat_matrix.specs.Occurrences.{Place, occurrences, all_occurrences};
ghost use Rattle.pat_matrix.specs.Occurrences.{occurrences_under, row_occurrences, row_twins};
ghost use Rattle.pat_matrix.specs.Occurrences.{first_place, seen_after, twin_before};
ghost use Rattle.pat_matrix.specs.PlaceView.{place_of, occurrence_of, occurrences_of, twins_of};

use crate::columns::child_position;
use std::alloc::{AllocError, Global};
use term_core::{RulePat, SortId};

/// Where a variable of a row stands.
#[derive(Drop)]
pub struct Place {
    /// The position of the variable, or of the injection that it is under.
    pub position: Vec<usize>,
    /// The source sort of the injection, if the variable is under one.
    pub under: Option<SortId>,
}

/// Two places of one variable.
#[derive(Drop)]
pub struct Twin {
    /// The first place of the variable.
    pub first: Place,
    /// A later place of it.
    pub second: Place,
}

// A variable, by its number, and where it stands.
#[derive(Drop)]
struct Occurrence {
    var: u32,
    place: Place,
}

impl Place {
    // A copy of the place. An error: out of memory.
    fn copied(&self, alloc: Global) -> Result<Place, AllocError>
        ensures { IfOk result (λ place. place_of place ≡ place_of self.now) }
    {
        let position = self.position.to_vec(alloc)?;
        Ok(Place {
            position,
            under: self.under,
        })
    }
}

/// Each later place of a variable beside the variable's first one. An error: out of memory. For
/// each place of a variable it looks at the places before it.
pub fn row_twins(alloc: Global, row: &[RulePat]) -> Result<Vec<Twin>, AllocError>
    ensures { IfOk result (λ found. twins_of found.items ≡ row_twins (map plain_pattern row.now)) }
{
    let mut all = Vec::new(alloc);
    add_all(alloc, row, &[], &mut all)?;
    let mut seen = Vec::new(alloc);
    let mut found = Vec::new(alloc);
    for occurrence in all {
        join(alloc, occurrence, &mut seen, &mut found)?;
    }
    Ok(found)
}

// Puts an occurrence beside the first one of its variable, or among the first ones.
fn join(
    alloc: Global,
    occurrence: Occurrence,
    seen: &mut Vec<Occurrence>,
    found: &mut Vec<Twin>,
) -> Result<(), AllocError>
    ensures seen { OnOk result (occurrences_of seen.new.items
        ≡ seen_after (occurrences_of seen.old.items) (occurrence_of occurrence)
        (first_place occurrence.var (occurrences_of seen.old.items))) }
    ensures found { OnOk result (twins_of found.new.items
        ≡ twins_of found.old.items
        ++ twin_before (first_place occurrence.var (occurrences_of seen.old.items))
        (place_of occurrence.place) []) }
{
    match first_place(seen, occurrence.var) {
        None => seen.push(occurrence)?,
        Some(first) => {
            let first = first.copied(alloc)?;
            let second = occurrence.place;
            found.push(Twin { first, second })?;
        }
    }
    Ok(())
}

// The first place of the variable.
fn first_place(seen: &[Occurrence], var: u32) -> Option<&Place>
    ensures { option_map place_of (option_copied result)
        ≡ first_place var (occurrences_of seen.now) }
{
    for occurrence in seen {
        if occurrence.var == var {
            return Some(&occurrence.place);
        }
    }
    None
}

// Adds the places of the variables of a pattern at this position.
#[cycle(places)]
fn add(
    alloc: Global,
    pat: &RulePat,
    position: &[usize],
    all: &mut Vec<Occurrence>,
) -> Result<(), AllocError>
    ensures { OnOk result (occurrences_of all.new.items
        ≡ occurrences_of all.old.items ++ occurrences position.now (plain_pattern pat.now)) }
{
    match pat {
        RulePat::Var(var) => add_one(alloc, *var, position, None, all),
        RulePat::Ctor(_, args) => add_all(alloc, args, position, all),
        RulePat::Inj(from, _, below) => add_under(alloc, below, *from, position, all),
        _ => Ok(()),
    }
}

// Adds the places of the variables of a pattern under an injection from a sort, at this position.
#[cycle(places)]
fn add_under(
    alloc: Global,
    pat: &RulePat,
    sort: SortId,
    position: &[usize],
    all: &mut Vec<Occurrence>,
) -> Result<(), AllocError>
    ensures { OnOk result (occurrences_of all.new.items
        ≡ occurrences_of all.old.items
        ++ occurrences_under position.now sort.0 (plain_pattern pat.now)) }
{
    match pat {
        RulePat::Var(var) => add_one(alloc, *var, position, Some(sort), all),
        _ => {
            let child = child_position(alloc, position, 0)?;
            add(alloc, pat, &child, all)
        }
    }
}

// Adds the places of the variables of the patterns, which are the children of this position.
#[cycle(places)]
fn add_all(
    alloc: Global,
    pats: &[RulePat],
    position: &[usize],
    all: &mut Vec<Occurrence>,
) -> Result<(), AllocError>
    ensures { OnOk result (occurrences_of all.new.items
        ≡ occurrences_of all.old.items
        ++ all_occurrences position.now 0 (plain_patterns pats.now)) }
{
    for (i, pat) in pats.iter().enumerate() {
        let child = child_position(alloc, position, i)?;
        add(alloc, pat, &child, all)?;
    }
    Ok(())
}

// Adds one place of a variable.
fn add_one(
    alloc: Global,
    var: u32,
    position: &[usize],
    under: Option<SortId>,
    all: &mut Vec<Occurrence>,
) -> Result<(), AllocError>
    ensures { OnOk result (occurrences_of all.new.items
        ≡ occurrences_of all.old.items
        ++ (var, (position.now, option_map (λ s. s.0) under)) ∷ []) }
{
    let position = position.to_vec(alloc)?;
    let place = Place { position, under };
    all.push(Occurrence { var, place })?;
    Ok(())
}
