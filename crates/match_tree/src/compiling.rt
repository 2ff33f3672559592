// Trees, and how they are made.
ghost use Rattle.std.specs.Prelude.{◌≡◌, ◌<◌, ◌≤◌, ◌^◌, ◌+◌, ℕ, length, map, IfOk, IfSome};
ghost use Rattle.std.specs.List.{list_any};
ghost use Rattle.rule_core.specs.Subsorts.{IsBelow};
ghost use Rattle.pat_matrix.specs.Rows.{numbers_from, collapsed_rows};
ghost use Rattle.pat_matrix.specs.MatchTrees.{AllCollapsed};
ghost use Rattle.pat_matrix.specs.MatrixView.{rows_of, order_of, lent_rows};
ghost use Rattle.pat_matrix.specs.Occurrences.{row_twins};
ghost use Rattle.pat_matrix.specs.PlaceView.{twins_of};
ghost use Rattle.match_tree.specs.TreeView.{IsTree, HasMatchTree, nodes_of, tries};
ghost use Rattle.match_tree.specs.Programs.{IsTreeOf};

use crate::draft::Draft;
use crate::nodes::Node;
use crate::slots::NodeNo;
use pat_matrix::{Matrix, Twin, row_twins};
use rule_core::Subsorts;
use std::alloc::{AllocError, Global};
use term_core::RulePat;

/// A matching tree for the rows of a matrix. Its nodes are a flat list, and a node names its
/// children by their places in the list.
#[derive(Drop)]
pub struct Tree<'s> {
    pub(crate) matrix: Matrix<'s>,
    pub(crate) twins: Vec<Vec<Twin>>,
    pub(crate) nodes: Vec<Node>,
}

impl<'s> Tree<'s> {
    /// The tree of `compile` for these rows, numbered from 0, with nested injections joined, which
    /// changes no match. `sorts` is more than each sort that is below another. An error: out of
    /// memory. It copies each row once.
    pub fn of(
        alloc: Global,
        rows: &[&[RulePat]],
        subsorts: &'s Subsorts,
        sorts: u32,
    ) -> Result<Tree<'s>, AllocError>
        requires count { length rows.now ≤ 2 ^ 32 }
        requires sorts { (a b : ℕ) → IsBelow subsorts.now a b → a < sorts }
        ensures { IfOk result (IsTreeOf subsorts.now (collapsed_rows (lent_rows rows.now))) }
    {
        let matrix = Matrix::of(alloc, rows, subsorts, sorts)?;
        compile(alloc, matrix)
    }

    /// The place from which a walk begins.
    pub fn start(&self) -> NodeNo
        ensures { result ≡ NodeNo.Start }
    {
        NodeNo::Start
    }

    /// Whether a node of the tree tries its rows in order. It looks at each node once.
    pub fn tries_in_order(&self) -> bool
        ensures { result ≡ list_any tries (nodes_of self.now) }
    {
        for node in &self.nodes {
            if let Node::Try(_) = node {
                return true;
            }
        }
        false
    }
}

/// The matching tree for the rows of the matrix (Maranget 2008, "Compiling Pattern Matching to Good
/// Decision Trees"). No row of the matrix was left out, and its rows have no nested injections, as
/// `Matrix::of` makes it. The tree has at most `MAX_NODES` nodes. A node tries its rows in order
/// only if there is no room for more nodes, or if it stands below `MAX_TESTS` tests. An error: out
/// of memory.
///
/// A hit, and a test for its first row, take one step for each number of a position that the row
/// asks and of one that was tested. A test also takes one step for each row that is left there, and
/// copies the positions that were tested for each of its places. Lists of rows are joined only when their node is
/// refined, so rows with distinct heads take a time that is linear in their number.
pub fn compile<'s>(alloc: Global, matrix: Matrix<'s>) -> Result<Tree<'s>, AllocError>
    requires collapsed { AllCollapsed (rows_of matrix) }
    requires whole { map (λ r. r.0) (rows_of matrix) ≡ numbers_from 0 (length (rows_of matrix)) }
    ensures tree { IfOk result HasMatchTree }
    ensures nodes { IfOk result IsTree }
    ensures matrix { IfOk result (λ t. t.matrix ≡ matrix.entry) }
{
    let mut draft = Draft::new(alloc)?;
    draft.refine(alloc, &matrix, 0, 0, matrix.left(), Vec::new(alloc))?;
    while let Some(opened) = draft.pending.pop() {
        draft.refine_opened(alloc, &matrix, opened)?;
    }
    let twins = all_twins(alloc, &matrix)?;
    let nodes = draft.nodes;
    Ok(Tree {
        matrix,
        twins,
        nodes,
    })
}

// The twins of each row. An error: out of memory.
fn all_twins(alloc: Global, matrix: &Matrix<'_>) -> Result<Vec<Vec<Twin>>, AllocError>
    ensures { IfOk result (λ twins. map (λ v. twins_of v.items) twins.items
        ≡ map (λ r. row_twins r.1) (rows_of matrix.now)) }
{
    let mut twins = Vec::with_capacity(alloc, matrix.left().len())?;
    for no in matrix.left() {
        twins.push(row_twins(alloc, matrix.row(*no))?)?;
    }
    Ok(twins)
}
