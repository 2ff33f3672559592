// Lists of numbers of symbols.

ghost use Rattle.std.specs.Prelude.{◌≡◌, ℕ, ◌++◌, ◌∷◌, [], IfOk, filter, if◌then◌else◌};
ghost use Rattle.std.specs.List.Sorted.{IsStrictlyIncreasing};
ghost use Rattle.mm_frame.specs.NumberLists.{has_number};

use std::alloc::{AllocError, Global};

/// The numbers, ascending and each once. It takes time in their count, times its logarithm.
pub fn ascending(numbers: Vec<u32>) -> Vec<u32>
    ensures ascending { IsStrictlyIncreasing result.items }
    ensures numbers { (n : ℕ) → has_number result.items n ≡ has_number numbers.items n }
{
    let mut ascending = numbers;
    ascending.sort_unstable();
    ascending.dedup();
    ascending
}

/// Whether the number is among others, which ascend.
pub fn is_among(numbers: &[u32], n: u32) -> bool
    requires { IsStrictlyIncreasing numbers.now }
    ensures { result ≡ has_number numbers.now n }
{
    numbers.binary_search(&n).is_ok()
}

/// What a group has of the numbers. The numbers ascend.
pub(crate) fn kept_numbers(
    alloc: Global,
    numbers: &[u32],
    group: &[u32],
) -> Result<Vec<u32>, AllocError>
    requires { IsStrictlyIncreasing numbers.now }
    ensures { IfOk result (λ v. v.items ≡ filter (has_number numbers.now) group.now) }
{
    let mut kept = Vec::new(alloc);
    for n in group {
        push_if(is_among(numbers, *n), &mut kept, *n)?;
    }
    Ok(kept)
}

/// Appends the number if it is to be kept.
pub fn push_if(keeps: bool, kept: &mut Vec<u32>, n: u32) -> Result<(), AllocError>
    ensures { IfOk result
        (λ _. kept.new.items ≡ (if keeps then kept.old.items ++ n ∷ [] else kept.old.items)) }
{
    if keeps {
        kept.push(n)?;
    }
    Ok(())
}
