// What is still to be built of a proof, as works that are split into smaller ones. A stack of works
// replaces recursion, so a deep pattern needs no deep stack of calls.
ghost use Rattle.std.specs.Prelude.{◌≡◌, ◌++◌, ◌∷◌, [], OnOk};
ghost use Rattle.mm_proof.specs.WorkStacks.{IsReady, IsSyntaxTaken, IsTaken};
ghost use Rattle.mm_proof.specs.Listings.{Builds, trees_of};
ghost use Rattle.mm_proof.specs.Writing.{goal_tree, goal_trees};

use crate::freshness::{expand_fresh, expand_predicate, expand_unchanged};
use crate::known::is_small;
use crate::patterns::expand_syntax;
use crate::substitution::expand_substituted;
use crate::table::ProofTable;
use crate::words::Label;
use ml_pat::{MPat, VarNo};
use std::alloc::AllocError;

/// Something to be proved.
#[derive(Clone, Copy)]
pub enum Goal<'a> {
    /// What a label that takes no proof says.
    Leaf(Label),
    /// That it is a pattern.
    Syntax(&'a MPat),
    /// That the variable is not free in the pattern.
    Fresh(VarNo, &'a MPat),
    /// That a pattern stays the same: the variable, what would be substituted for it, and the
    /// pattern.
    Unchanged(VarNo, &'a MPat, &'a MPat),
    /// A substitution: the variable, what is substituted for it, the pattern and the result.
    Substituted(VarNo, &'a MPat, &'a MPat, &'a MPat),
    /// That the pattern is a predicate.
    Predicate(&'a MPat),
}

/// A part of a proof that is still to be built.
#[derive(Clone, Copy)]
pub(crate) enum Work<'a> {
    /// The proof of a goal.
    Prove(Goal<'a>),
    /// A label over this many proofs.
    Cite(Label, usize),
    /// The last proof, that the pattern is one, is kept for the pattern.
    Keep(&'a MPat),
}

/// Builds the proofs of goals, the last one on top. `AllocError`: out of memory. It takes time
/// linear in the number of labels of these proofs.
pub fn prove_goals(table: &mut ProofTable, goals: &[Goal<'_>]) -> Result<(), AllocError>
    ensures { OnOk result (Builds (λ k. goal_trees k goals.now) table.old table.new) }
{
    for goal in goals {
        prove_goal(table, *goal)?;
    }
    Ok(())
}

/// Builds the proof of a goal. `AllocError`: out of memory.
pub fn prove_goal(table: &mut ProofTable, goal: Goal<'_>) -> Result<(), AllocError>
    ensures { OnOk result (Builds (λ k. goal_tree k goal.entry ∷ []) table.old table.new) }
{
    let mut stack = Vec::new(table.allocator());
    stack.push(Work::Prove(goal))?;
    while let Some(next) = stack.pop() {
        take_work(table, &mut stack, next)?;
    }
    Ok(())
}

/// Cites a label, splits a goal, or keeps a proof.
fn take_work<'a>(
    table: &mut ProofTable,
    stack: &mut Vec<Work<'a>>,
    work: Work<'a>,
) -> Result<(), AllocError>
    requires { IsReady table.old.serial work (trees_of table.old) }
    ensures { OnOk result
        (IsTaken work.entry stack.old.items stack.new.items table.old table.new) }
{
    match work {
        Work::Cite(label, takes) => table.cite(label, takes),
        Work::Prove(Goal::Leaf(label)) => table.cite(label, 0),
        Work::Keep(p) => table.keep_syntax(p),
        Work::Prove(Goal::Syntax(p)) => take_syntax(table, stack, p),
        Work::Prove(Goal::Fresh(x, p)) => expand_fresh(stack, x, p),
        Work::Prove(Goal::Unchanged(x, u, p)) => expand_unchanged(stack, x, u, p),
        Work::Prove(Goal::Substituted(x, u, p, r)) => expand_substituted(stack, x, u, p, r),
        Work::Prove(Goal::Predicate(p)) => expand_predicate(stack, p),
    }
}

/// Repeats the proof that a pattern is one, if it was kept, and otherwise splits the goal and keeps
/// what is built. A small pattern is only split.
fn take_syntax<'a>(
    table: &mut ProofTable,
    stack: &mut Vec<Work<'a>>,
    pat: &'a MPat,
) -> Result<(), AllocError>
    ensures { OnOk result
        (IsSyntaxTaken pat.entry stack.old.items stack.new.items table.old table.new) }
{
    if is_small(pat) {
        return expand_syntax(stack, pat);
    }
    if table.repeat_syntax(pat)? {
        return Ok(());
    }
    stack.push(Work::Keep(pat))?;
    expand_syntax(stack, pat)
}
