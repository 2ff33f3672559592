// Walks through a tree.
ghost use Rattle.std.specs.Prelude.{◌≡◌, ◌≤◌, ◌<◌, ◌+◌, ◌++◌, ℕ, List, [], false, length};
ghost use Rattle.std.specs.List.{list_any};
ghost use Rattle.pat_matrix.specs.MatrixView.{rows_of};
ghost use Rattle.match_tree.specs.TreeView.{IsTree, nodes_of, tries};
ghost use Rattle.match_tree.specs.Walking.{AreWide};
ghost use Rattle.match_tree.specs.Ways.{IsWay};
ghost use Rattle.match_tree.specs.SlotView.{HasRoom, CanBegin, first_row, path_before, FindsFirst};
ghost use Rattle.match_tree.specs.SlotView.{Keeps, kept_positions, IsTried, StartsFrom, AreNew};
ghost use Rattle.match_tree.specs.Finding.{BeginsAt, GivesOn, LooksOnce};
ghost use Rattle.match_tree.specs.Passing.{Reaches};
ghost use Rattle.match_tree.specs.Asking.{AreAskedInTurn};

use crate::compiling::Tree;
use crate::nodes::Node;
use crate::notes::{Notes, Unnoted};
use crate::slots::{Hit, NodeNo, Slots};
use crate::spots::spots_agree;
use crate::trial::row_matches;
use std::sync::ledger::Ledger;
use term_core::{Steps, Term};

impl<'s> Tree<'s> {
    /// The first row that matches the subjects, from the start, or from the place that a hit of
    /// these subjects gave on. `None` if there is none. Each row has as many patterns as there are
    /// subjects.
    ///
    /// A walk from the start forgets what the slots keep. After a row they keep it, and fit. If no
    /// node tries its rows in order, a walk takes one step for each position that it adds to the
    /// kept ones, and adds none twice. Each of them is asked by a row that can still match. It
    /// takes no memory.
    #[tactic(none)]
    pub fn walk<L: Ledger>(
        &self,
        from: NodeNo,
        subjects: &[Term],
        slots: &mut Slots,
        steps: &mut Steps<L>,
    ) -> Hit
        requires tree { IsTree self.now }
        requires wide { AreWide (length subjects.now) (rows_of self.now.matrix) }
        requires room { HasRoom self.now slots.old }
        requires begins { CanBegin self.now subjects.now slots.old from }
        ensures first { FindsFirst self.now subjects.now (first_row slots.old from) result }
        ensures keeps { Keeps self.now subjects.now slots.new result }
        ensures room { HasRoom self.now slots.new }
        ensures looks { list_any tries (nodes_of self.now) ≡ false → steps.new
            + length (kept_positions self.now (path_before slots.old from))
            ≡ steps.old + length (kept_positions self.now slots.new.path.items) }
        ensures more { (more : List ℕ)
            × (slots.new.path.items ≡ path_before slots.old from ++ more) }
        ensures once { AreNew subjects.now []
            (kept_positions self.now slots.new.path.items) }
        ensures asked { AreAskedInTurn self.now.matrix subjects.now []
            (kept_positions self.now slots.new.path.items) }
    {
        match from {
            NodeNo::Start => {
                slots.clear();
                let hit = self.descend(0, subjects, slots, steps);
                slots.keep(hit)
            }
            NodeNo::Node(place) => {
                let hit = self.descend(place, subjects, slots, steps);
                slots.keep(hit)
            }
            NodeNo::Rows(row) => {
                let hit = self.try_rows(row, subjects, steps);
                slots.keep(hit)
            }
        }
    }

    /// The first row that matches the subjects, from the start, or from the place that a hit of
    /// these subjects gave on. `None` if there is none. Each row has as many patterns as there are
    /// subjects.
    ///
    /// It keeps nothing and takes no memory, so other walks may come between. If no node tries its
    /// rows in order, it takes one step for each position that it tests, and tests none twice.
    #[tactic(none)]
    pub fn find<L: Ledger>(&self, from: NodeNo, subjects: &[Term], steps: &mut Steps<L>) -> Hit
        requires tree { IsTree self.now }
        requires wide { AreWide (length subjects.now) (rows_of self.now.matrix) }
        requires begins { (first : ℕ) × BeginsAt self.now subjects.now from first }
        ensures first { (first : ℕ) → BeginsAt self.now subjects.now from first →
            FindsFirst self.now subjects.now first result }
        ensures on { GivesOn self.now subjects.now result }
        ensures looks { list_any tries (nodes_of self.now) ≡ false →
            LooksOnce self.now subjects.now steps.old steps.new }
    {
        match from {
            NodeNo::Start => self.descend(0, subjects, &mut Unnoted, steps),
            NodeNo::Node(place) => self.descend(place, subjects, &mut Unnoted, steps),
            NodeNo::Rows(row) => self.try_rows(row, subjects, steps),
        }
    }

    // The same from a node on, to which the tree leads the subjects. It notes the nodes that it
    // passes.
    #[tactic(none)]
    fn descend<N: Notes, L: Ledger>(
        &self,
        place: u32,
        subjects: &[Term],
        notes: &mut N,
        steps: &mut Steps<L>,
    ) -> Hit
        requires tree { IsTree self.now }
        requires wide { AreWide (length subjects.now) (rows_of self.now.matrix) }
        requires room { N.have_room notes.old (length (nodes_of self.now)) }
        requires way { (path : List ℕ) × N.tell notes.old path
            × IsWay (nodes_of self.now) subjects.now 0 path place }
        ensures first { (from : ℕ) → StartsFrom self.now place from →
            FindsFirst self.now subjects.now from result }
        ensures reaches { Reaches self.now subjects.now (N.tell notes.old) (N.tell notes.new)
            steps.old steps.new result }
        ensures room { N.have_room notes.new (length (nodes_of self.now)) }
    {
        let mut place = place;
        'walk: loop {
            match &self.nodes[place as usize] {
                Node::End => return Hit::None,
                Node::Hit(hit) => {
                    notes.pass(place);
                    if spots_agree(&hit.spots, subjects) {
                        let resume = NodeNo::Node(hit.next);
                        return Hit::Row {
                            row: hit.row,
                            resume,
                        };
                    }
                    place = hit.next;
                }
                Node::Test(test) => {
                    notes.pass(place);
                    place = test.next(subjects, steps);
                }
                Node::Try(from) => return self.try_rows(*from, subjects, steps),
            }
        }
    }

    // The first row that matches, from this one on. It takes no memory.
    fn try_rows<L: Ledger>(&self, from: usize, subjects: &[Term], steps: &mut Steps<L>) -> Hit
        requires tree { IsTree self.now }
        requires wide { AreWide (length subjects.now) (rows_of self.now.matrix) }
        ensures first { FindsFirst self.now subjects.now from result }
        ensures tried { IsTried self.now subjects.now from result }
    {
        let left = self.matrix.left();
        for i in from..left.len() {
            let row = left[i];
            let patterns = self.matrix.row(row);
            if row_matches(
                patterns,
                &self.twins[i],
                subjects,
                self.matrix.subsorts(),
                steps,
            ) {
                let resume = NodeNo::Rows(row as usize + 1);
                return Hit::Row { row, resume };
            }
        }
        Hit::None
    }
}
