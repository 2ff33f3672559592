// Works put on a stack.
ghost use Rattle.std.specs.Prelude.{OnOk};
ghost use Rattle.mm_proof.specs.Trees.{cite};
ghost use Rattle.mm_proof.specs.WorkStacks.{PutsMore, PutsOn};
ghost use Rattle.std.specs.Prelude.{[]};
ghost use Rattle.mm_proof.specs.Writing.{goal_trees, label_token};

use crate::words::Label;
use crate::works::{Goal, Work};
use std::alloc::AllocError;

/// Puts goals on a stack, the first on top, and below them the label that takes the proof of each.
pub(crate) fn put_steps<'a>(
    stack: &mut Vec<Work<'a>>,
    parts: &[Goal<'a>],
    label: Label,
) -> Result<(), AllocError>
    ensures { OnOk result (PutsOn (λ k. cite (label_token k label) (goal_trees k parts.now))
        stack.old.items stack.new.items) }
{
    stack.push(Work::Cite(label, parts.len()))?;
    put_all(stack, parts)
}

/// Puts goals on a stack, the first on top.
fn put_all<'a>(stack: &mut Vec<Work<'a>>, parts: &[Goal<'a>]) -> Result<(), AllocError>
    ensures { OnOk result
        (PutsMore (λ k. goal_trees k parts.now) stack.old.items stack.new.items) }
{
    for part in parts.iter().rev() {
        stack.push(Work::Prove(*part))?;
    }
    Ok(())
}

/// Puts a label that takes no proof on a stack.
pub(crate) fn put_leaf<'a>(stack: &mut Vec<Work<'a>>, label: Label) -> Result<(), AllocError>
    ensures { OnOk result
        (PutsOn (λ k. cite (label_token k label) []) stack.old.items stack.new.items) }
{
    stack.push(Work::Cite(label, 0))?;
    Ok(())
}
