// Trees in the making.
ghost use Rattle.std.specs.Prelude.{◌≡◌, ◌≤◌, ◌<◌, ◌+◌, ◌++◌, ◌∷◌, ℕ, List, [], length, map};
ghost use Rattle.std.specs.Prelude.{replicate, option_map, IfOk, OnOk, None, Some};
ghost use Rattle.term_core.specs.RulePatterns.{plain_pattern};
ghost use Rattle.pat_matrix.specs.HeadView.{head_of};
ghost use Rattle.pat_matrix.specs.Positions.{asked_positions};
ghost use Rattle.pat_matrix.specs.Rows.{numbers_from};
ghost use Rattle.pat_matrix.specs.Groups.{IsSplit, lists_of};
ghost use Rattle.pat_matrix.specs.MatrixView.{row_of};
ghost use Rattle.match_tree.specs.FlatNodes.{try_node};
ghost use Rattle.match_tree.specs.Trails.{source_of, first_untested};
ghost use Rattle.match_tree.specs.Joining.{joined};
ghost use Rattle.match_tree.specs.Drafting.{most_nodes, branch_works, AreApart};
ghost use Rattle.match_tree.specs.TrailView.{plain_trail, sort_number};
ghost use Rattle.match_tree.specs.NodeView.{plain_nodes};
ghost use Rattle.match_tree.specs.WorkView.{branch_trail, works_of, IsDraftOf, IsDraftAt};
ghost use Rattle.match_tree.specs.WorkView.{IsHanded, IsTestOf};

use crate::joining::joined;
use crate::nodes::{MAX_NODES, MAX_TESTS, Node, RowHit};
use crate::spots::spots_of;
use crate::testing::Test;
use crate::trails::{Tested, extended, untested};
use pat_matrix::{Groups, Head, Matrix, Split, row_twins};
use std::alloc::{AllocError, Global};
use std::rc::Rc;
use term_core::SortId;

// What the branches of a test share: the number of the first row that is not done with, what was
// tested before, the position of the test, and the rows that ask nothing there.
#[derive(Drop)]
pub(crate) struct Parted {
    from: usize,
    trail: Vec<Tested>,
    position: Vec<usize>,
    wild: Vec<u32>,
}

// A place that was handed out and is not refined yet: the rows that have the head of its branch,
// and the source sort if the head is an injection. The list of its rows is joined late, since the
// rows that ask nothing are shared.
#[derive(Drop)]
pub(crate) struct Opened {
    place: u32,
    own: Vec<u32>,
    source: Option<SortId>,
    parted: Rc<Parted>,
}

// The nodes of a tree, each of which is right at every time, and the places that are not refined
// yet. A place that is not refined tries its rows in order.
#[derive(Drop)]
pub(crate) struct Draft {
    pub(crate) nodes: Vec<Node>,
    pub(crate) pending: Vec<Opened>,
}

impl Draft {
    // One node, which tries all rows in order. An error: out of memory.
    pub(crate) fn new(alloc: Global) -> Result<Draft, AllocError>
        ensures nodes { IfOk result (λ d. plain_nodes d.nodes.items ≡ try_node 0 ∷ []) }
        ensures pending { IfOk result (λ d. d.pending.items ≡ []) }
    {
        Ok(Draft {
            nodes: vec![in alloc; Node::Try(0)]?,
            pending: Vec::new(alloc),
        })
    }

    // Refines the last place that was handed out.
    pub(crate) fn refine_opened(
        &mut self,
        alloc: Global,
        matrix: &Matrix<'_>,
        opened: Opened,
    ) -> Result<(), AllocError>
        requires draft { IsDraftAt matrix.now self.old opened.place opened.parted.value.from
            (joined opened.own.items opened.parted.value.wild.items)
            (branch_trail opened.parted.value
            ++ (opened.parted.value.position.items, option_map sort_number opened.source) ∷ []) }
        requires few { length self.old.nodes.items ≤ most_nodes }
        ensures draft { OnOk result (IsDraftOf matrix.now self.new) }
        ensures few { OnOk result (length self.new.nodes.items ≤ most_nodes) }
        ensures fewer { OnOk result
            (length self.new.pending.items + length self.old.nodes.items
            ≤ length self.old.pending.items + length self.new.nodes.items) }
        ensures longer { OnOk result
            (length self.old.nodes.items ≤ length self.new.nodes.items) }
    {
        let parted = opened.parted;
        let rows = joined(alloc, &opened.own, &parted.wild)?;
        let trail = extended(alloc, &parted.trail, &parted.position, opened.source)?;
        self.refine(alloc, matrix, opened.place, parted.from, &rows, trail)
    }

    // Refines a node: as hits, as long as every position that the first row asks was tested, and
    // then as a test, or as an end if no row is left. It stays as it is if there is no room, or
    // instead of a test if enough was tested before.
    pub(crate) fn refine(
        &mut self,
        alloc: Global,
        matrix: &Matrix<'_>,
        place: u32,
        from: usize,
        rows: &[u32],
        trail: Vec<Tested>,
    ) -> Result<(), AllocError>
        requires draft { IsDraftAt matrix.now self.old place from rows.now
            (plain_trail trail.items) }
        requires few { length self.old.nodes.items ≤ most_nodes }
        ensures draft { OnOk result (IsDraftOf matrix.now self.new) }
        ensures few { OnOk result (length self.new.nodes.items ≤ most_nodes) }
        ensures fewer { OnOk result
            (length self.new.pending.items + length self.old.nodes.items
            ≤ length self.old.pending.items + length self.new.nodes.items) }
        ensures longer { OnOk result
            (length self.old.nodes.items ≤ length self.new.nodes.items) }
    {
        let mut place = place;
        let mut from = from;
        for (i, row) in rows.iter().enumerate() {
            match untested(alloc, matrix.row(*row), &trail)? {
                Some(position) => {
                    if trail.len() >= MAX_TESTS {
                        return Ok(());
                    }
                    let rest = &rows[i..];
                    return self.add_test(alloc, matrix, place, from, rest, position, trail);
                }
                None => {
                    if self.nodes.len() >= MAX_NODES {
                        return Ok(());
                    }
                    place = self.add_hit(alloc, matrix, place, *row, &trail)?;
                    from = *row as usize + 1;
                }
            }
        }
        self.nodes[place as usize] = Node::End;
        Ok(())
    }

    // Makes a node the hit of its first row, and returns the place of the later rows.
    fn add_hit(
        &mut self,
        alloc: Global,
        matrix: &Matrix<'_>,
        place: u32,
        row: u32,
        trail: &[Tested],
    ) -> Result<u32, AllocError>
        requires room { length self.old.nodes.items < most_nodes }
        requires within { place < length self.old.nodes.items }
        ensures draft { IfOk result (λ next. (from : ℕ) (rows : List ℕ) →
            IsDraftAt matrix.now self.old place from (row ∷ rows) (plain_trail trail.now) →
            first_untested (plain_trail trail.now) (asked_positions (row_of matrix.now row))
            ≡ None → IsDraftAt matrix.now self.new next (row + 1) rows (plain_trail trail.now)) }
        ensures count { OnOk result
            (length self.new.nodes.items ≡ length self.old.nodes.items + 1) }
        ensures pending { self.new.pending ≡ self.old.pending }
    {
        let next = self.nodes.len() as u32;
        let twins = row_twins(alloc, matrix.row(row))?;
        let spots = spots_of(alloc, &twins, trail)?;
        self.nodes.push(Node::Try(row as usize + 1))?;
        self.nodes[place as usize] = Node::Hit(RowHit { row, spots, next });
        Ok(next)
    }

    // Makes a node the test of a position, with a place for each head that its rows have there, and
    // one for every other head. It stays as it is if there is no room.
    fn add_test(
        &mut self,
        alloc: Global,
        matrix: &Matrix<'_>,
        place: u32,
        from: usize,
        rows: &[u32],
        position: Vec<usize>,
        trail: Vec<Tested>,
    ) -> Result<(), AllocError>
        requires draft { IsDraftAt matrix.now self.old place from rows.now
            (plain_trail trail.items) }
        requires asks { (row : ℕ) × (later : List ℕ) × (rows.now ≡ row ∷ later)
            × (first_untested (plain_trail trail.items) (asked_positions (row_of matrix.now row))
            ≡ Some position.items) }
        requires few { length self.old.nodes.items ≤ most_nodes }
        ensures draft { OnOk result (IsDraftOf matrix.now self.new) }
        ensures few { OnOk result (length self.new.nodes.items ≤ most_nodes) }
        ensures fewer { OnOk result
            (length self.new.pending.items + length self.old.nodes.items
            ≤ length self.old.pending.items + length self.new.nodes.items) }
        ensures longer { OnOk result
            (length self.old.nodes.items ≤ length self.new.nodes.items) }
    {
        let Split { groups, wild } = matrix.split(alloc, rows, &position)?;
        if self.nodes.len() + groups.heads.len() >= MAX_NODES {
            return Ok(());
        }
        let parted = Parted {
            from,
            trail,
            position: position.to_vec(alloc)?,
            wild,
        };
        let node = self.test(alloc, position, groups, parted)?;
        self.nodes[place as usize] = Node::Test(node);
        Ok(())
    }

    // A test, whose places are handed out: one for every other head than the groups' first, and one
    // for each group.
    fn test(
        &mut self,
        alloc: Global,
        position: Vec<usize>,
        groups: Groups,
        parted: Parted,
    ) -> Result<Box<Test>, AllocError>
        requires counted { length groups.rows.items ≡ length groups.heads.keys }
        requires room { length self.old.nodes.items + length groups.heads.keys < most_nodes }
        ensures handed { OnOk result (IsHanded self.old self.new parted groups) }
        ensures test { IfOk result (λ test. IsTestOf test.value position groups
            (length self.old.nodes.items)) }
        ensures distinct { OnOk result (AreApart (map head_of groups.heads.keys)) }
    {
        let other = self.nodes.len() as u32;
        let parted = Rc::new(alloc, parted)?;
        self.open(Vec::new(alloc), None, parted.clone()?)?;
        let Groups { heads, rows } = groups;
        let branches = self.open_branches(alloc, heads.as_slice(), rows, &parted)?;
        let test = Test {
            position,
            heads,
            branches,
            other,
        };
        Ok(Box::new(alloc, test)?)
    }

    // Hands out a place for each branch of a test, and returns them.
    fn open_branches(
        &mut self,
        alloc: Global,
        heads: &[Head],
        rows: Vec<Vec<u32>>,
        parted: &Rc<Parted>,
    ) -> Result<Vec<u32>, AllocError>
        requires counted { length rows.items ≡ length heads.now }
        requires room { length self.old.nodes.items + length heads.now ≤ most_nodes }
        ensures branches { IfOk result (λ branches. branches.items
            ≡ numbers_from (length self.old.nodes.items) (length heads.now)) }
        ensures nodes { OnOk result (plain_nodes self.new.nodes.items
            ≡ plain_nodes self.old.nodes.items
            ++ replicate (length heads.now) (try_node parted.now.value.from)) }
        ensures works { OnOk result (works_of self.new.pending.items
            ≡ works_of self.old.pending.items
            ++ branch_works (length self.old.nodes.items) parted.now.value.from
            parted.now.value.wild.items (branch_trail parted.now.value)
            parted.now.value.position.items (map head_of heads.now) (lists_of rows.items)) }
    {
        let mut branches = Vec::with_capacity(alloc, heads.len())?;
        for own in rows {
            let source = source_of(&heads[branches.len()]);
            branches.push(self.nodes.len() as u32)?;
            self.open(own, source, parted.clone()?)?;
        }
        Ok(branches)
    }

    // Hands out one place.
    fn open(
        &mut self,
        own: Vec<u32>,
        source: Option<SortId>,
        parted: Rc<Parted>,
    ) -> Result<(), AllocError>
        requires { length self.old.nodes.items < most_nodes }
        ensures nodes { OnOk result (plain_nodes self.new.nodes.items
            ≡ plain_nodes self.old.nodes.items ++ try_node parted.value.from ∷ []) }
        ensures works { OnOk result (works_of self.new.pending.items
            ≡ works_of self.old.pending.items ++ record {
              place = length self.old.nodes.items;
              from = parted.value.from;
              rows = joined own.items parted.value.wild.items;
              trail = branch_trail parted.value
                  ++ (parted.value.position.items, option_map sort_number source) ∷ [];
            } ∷ []) }
    {
        let place = self.nodes.len() as u32;
        self.nodes.push(Node::Try(parted.from))?;
        self.pending.push(Opened {
            place,
            own,
            source,
            parted,
        })?;
        Ok(())
    }
}

// The source sort of a head that is an injection.
fn source_of(head: &Head) -> Option<SortId>
    ensures { option_map sort_number result ≡ source_of (Some (head_of head.now)) }
{
    match head {
        Head::Inj(from, _) => Some(*from),
        _ => None,
    }
}
