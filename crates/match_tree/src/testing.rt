// Tests of a position of the subjects.
ghost use Rattle.std.specs.Prelude.{◌≡◌, ◌≢◌, ◌+◌, length, None, Some, option_map};
ghost use Rattle.pat_matrix.specs.Positions.{subject_at};
ghost use Rattle.match_tree.specs.TestView.{next_place};

use crate::standing::term_at;
use indexmap::IndexSet;
use pat_matrix::{Head, find_head};
use std::sync::ledger::Ledger;
use term_core::{Steps, Term};

/// A test of a position of the subjects, with a place to go on at for each head.
#[derive(Drop)]
pub struct Test {
    /// The position.
    pub position: Vec<usize>,
    /// The heads that have a place of their own.
    pub heads: IndexSet<Head>,
    /// Those places, in the order of the heads.
    pub branches: Vec<u32>,
    /// The place for every other head.
    pub other: u32,
}

impl Test {
    /// The place to go on at for these subjects. It looks at one term, and takes no memory.
    pub fn next<L: Ledger>(&self, subjects: &[Term], steps: &mut Steps<L>) -> u32
        requires there { subject_at subjects.now self.now.position.items ≢ None }
        requires places { length self.now.branches.items ≡ length self.now.heads.keys }
        ensures next { option_map (next_place self.now)
            (subject_at subjects.now self.now.position.items) ≡ Some result }
        ensures looks { steps.new ≡ steps.old + 1 }
    {
        let term = term_at(subjects, &self.position);
        match find_head(&self.heads, term, steps) {
            Some(i) => self.branches[i],
            None => self.other,
        }
    }
}
