// Lists of positions.
ghost use Rattle.std.specs.Prelude.{◌≡◌, ◌++◌, ◌∷◌, [], OnOk, IfOk};
ghost use Rattle.pat_matrix.specs.Rows.{subjects_from, below_from};
ghost use Rattle.pat_matrix.specs.MatrixView.{positions};

use std::alloc::{AllocError, Global};

// The positions of so many subjects.
pub(crate) fn subjects(alloc: Global, count: usize) -> Result<Vec<Vec<usize>>, AllocError>
    ensures { IfOk result (λ columns. positions columns.items ≡ subjects_from 0 count) }
{
    let mut columns = Vec::with_capacity(alloc, count)?;
    for subject in 0..count {
        columns.push(vec![in alloc; subject]?)?;
    }
    Ok(columns)
}

// Adds a copy of each position.
pub(crate) fn add_columns(
    alloc: Global,
    more: &[Vec<usize>],
    columns: &mut Vec<Vec<usize>>,
) -> Result<(), AllocError>
    ensures { OnOk result
        (positions columns.new.items ≡ positions columns.old.items ++ positions more.now) }
{
    for column in more {
        columns.push(column.to_vec(alloc)?)?;
    }
    Ok(())
}

// Adds the positions of so many children of a position.
pub(crate) fn add_below(
    alloc: Global,
    position: &[usize],
    count: usize,
    columns: &mut Vec<Vec<usize>>,
) -> Result<(), AllocError>
    ensures { OnOk result
        (positions columns.new.items
        ≡ positions columns.old.items ++ below_from position.now 0 count) }
{
    for child in 0..count {
        columns.push(child_position(alloc, position, child)?)?;
    }
    Ok(())
}

/// The position of one child of a position. An error: out of memory.
pub fn child_position(
    alloc: Global,
    position: &[usize],
    child: usize,
) -> Result<Vec<usize>, AllocError>
    ensures { IfOk result (λ place. place.items ≡ position.now ++ child ∷ []) }
{
    let mut place = position.to_vec(alloc)?;
    place.push(child)?;
    Ok(place)
}
