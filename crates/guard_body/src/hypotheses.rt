// The hypothesis on the variables of a guard.
ghost use Rattle.std.specs.Prelude.{◌≡◌, ◌+◌, ◌<◌, ◌^◌, ℕ, IfOk, Some, length};
ghost use Rattle.term_core.specs.RulePatterns.{sort_numbers};
ghost use Rattle.rule_core.specs.Sorting.{AreSorts};
ghost use Rattle.ml_image.specs.Sentences.{sentence_image};
ghost use Rattle.prove_term.specs.Contexts.{HasGrown};
ghost use Rattle.prove_open.specs.Givens.{IsGiven, HasFact, all_sorted};
ghost use Rattle.guard_body.specs.Hypotheses.{down_from};

use prove_open::Given;
use prove_term::Cx;
use std::alloc::{AllocError, Global};
use term_core::SortId;

// The hypothesis that `count` variables, numbered from `first`, are elements of their sorts, the last
// one first.
pub(crate) fn quantified(
    alloc: Global,
    cx: &mut Cx<'_>,
    sorts: &[SortId],
    first: u32,
    count: u32,
) -> Result<Given, AllocError>
    requires sorts { AreSorts cx.old.program.sig (sort_numbers sorts.now) }
    requires many { (x : ℕ) → x < count → first + x < length sorts.now }
    requires few { first + count < 2 ^ 32 }
    ensures given { IfOk result (IsGiven cx.new (sort_numbers sorts.now)) }
    ensures hypothesis { IfOk result
        (λ g. sentence_image cx.new.program.sig cx.new.names
        (all_sorted (sort_numbers sorts.now) (down_from first count)) ≡ Some g.hypothesis) }
    ensures facts { IfOk result (λ g. (x : ℕ) → x < count → HasFact g (first + x)) }
    ensures grown { HasGrown cx.old cx.new }
{
    let mut variables = Vec::with_capacity(alloc, count as usize)?;
    for i in (0..count).rev() {
        variables.push(first + i)?;
    }
    Given::of(alloc, cx, sorts, &variables)
}
