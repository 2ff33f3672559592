// Lists of row numbers.
ghost use Rattle.std.specs.Prelude.{◌≡◌, ◌++◌, drop, IfOk, OnOk};
ghost use Rattle.match_tree.specs.Joining.{joined, those_below, those_from};

use std::alloc::{AllocError, Global};

// The numbers of both lists, those of the second before the first greater one of the first. An
// error: out of memory.
pub(crate) fn joined(alloc: Global, own: &[u32], wild: &[u32]) -> Result<Vec<u32>, AllocError>
    ensures { IfOk result (λ numbers. numbers.items ≡ joined own.now wild.now) }
{
    let mut numbers = Vec::new(alloc);
    let mut rest = wild;
    for number in own {
        rest = add_below(*number, rest, &mut numbers)?;
        numbers.push(*number)?;
    }
    numbers.extend_from_slice(rest)?;
    Ok(numbers)
}

// Adds the first numbers, as far as they are below the limit, and returns the others.
fn add_below<'a>(
    limit: u32,
    rest: &'a [u32],
    numbers: &mut Vec<u32>,
) -> Result<&'a [u32], AllocError>
    ensures rest { IfOk result (λ later. later.now ≡ those_from limit rest.now) }
    ensures numbers { OnOk result
        (numbers.new.items ≡ numbers.old.items ++ those_below limit rest.now) }
{
    for (i, number) in rest.iter().enumerate() {
        if *number >= limit {
            return Ok(&rest[i..]);
        }
        numbers.push(*number)?;
    }
    Ok(&rest[rest.len()..])
}
