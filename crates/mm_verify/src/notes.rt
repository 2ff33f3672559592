// Pairs of lists of variables that a proof found to be kept apart.
ghost use Rattle.std.specs.Prelude.{◌≡◌, ◌≤◌, true, length, IfOk};
ghost use Rattle.mm_frame.specs.NumberedSteps.{NumberedPlace};
ghost use Rattle.mm_verify.specs.Pairs.{are_variables_apart as variables_apart};
ghost use Rattle.mm_verify.specs.Pairs.{is_pair_apart, written_pair, AreNoted};

use crate::lists::Lists;
use std::alloc::{AllocError, Global};
use std::collections::BTreeMap;

/// The longest list that is noted.
pub(crate) const LONGEST: usize = 1_048_576;

/// All notes are forgotten once they have more symbols than this.
const MOST: usize = 4_194_304;

/// Pairs of lists of variables that are kept apart at the place of a proof. A pair is written as one
/// list: the length of its first list, and then both. The map has the number of each pair. It is
/// not trusted: a pair counts as noted only if it is the one with that number.
#[derive(Drop)]
pub(crate) struct Notes {
    numbers: BTreeMap<Vec<u32>, usize>,
    pairs: Lists,
    last: Vec<u32>,
}

impl Notes {
    /// Nothing is noted.
    pub(crate) fn new(alloc: Global) -> Result<Notes, AllocError> {
        Ok(Notes {
            numbers: BTreeMap::new(alloc),
            pairs: Lists::new(alloc)?,
            last: Vec::new(alloc),
        })
    }

    /// Forgets everything.
    pub(crate) fn clear(&mut self)
        ensures noted { (p : NumberedPlace) → AreNoted p self.new }
        ensures last { self.new.last ≡ self.old.last }
    {
        self.numbers.clear();
        self.pairs.truncate(0);
    }

    /// Whether it is noted that two lists are kept apart. The pair is written for `note_last`.
    pub(crate) fn have(&mut self, xs: &[u32], ys: &[u32]) -> Result<bool, AllocError>
        requires short { length xs.now ≤ 1048576 }
        ensures found { IfOk result (λ r. r ≡ true → (p : NumberedPlace) → AreNoted p self.old
            → variables_apart p xs.now ys.now ≡ true) }
        ensures last { IfOk result (λ _. self.new.last.items ≡ written_pair xs.now ys.now) }
        ensures pairs { self.new.pairs ≡ self.old.pairs }
    {
        write_pair(xs, ys, &mut self.last)?;
        Ok(self.have_last())
    }

    /// Whether the pair that was written last is noted.
    fn have_last(&self) -> bool
        ensures { result ≡ true → (p : NumberedPlace) → AreNoted p self.now
            → is_pair_apart p self.now.last.items ≡ true }
    {
        match self.numbers.get(&self.last) {
            None => false,
            Some(number) => self.is_last(*number),
        }
    }

    /// Whether the pair that was written last is the one with this number.
    fn is_last(&self, number: usize) -> bool
        ensures { result ≡ true → (p : NumberedPlace) → AreNoted p self.now
            → is_pair_apart p self.now.last.items ≡ true }
    {
        if number >= self.pairs.len() {
            return false;
        }
        are_same(self.pairs.entry(number), &self.last)
    }

    /// Notes the pair that was written last. If there are too many notes, the earlier ones are
    /// forgotten.
    pub(crate) fn note_last(&mut self) -> Result<(), AllocError>
        ensures { IfOk result (λ _. (p : NumberedPlace) → AreNoted p self.old
            → is_pair_apart p self.old.last.items ≡ true → AreNoted p self.new) }
    {
        self.forget_many();
        self.push_last()
    }

    fn push_last(&mut self) -> Result<(), AllocError>
        ensures { IfOk result (λ _. (p : NumberedPlace) → AreNoted p self.old
            → is_pair_apart p self.old.last.items ≡ true → AreNoted p self.new) }
    {
        let number = self.pairs.len();
        self.pairs.push(&self.last)?;
        match self.numbers.insert(self.last.clone()?, number) {
            Err(_) => Err(AllocError),
            Ok(_) => Ok(()),
        }
    }

    /// Forgets everything if there are too many notes.
    fn forget_many(&mut self)
        ensures noted { (p : NumberedPlace) → AreNoted p self.old → AreNoted p self.new }
        ensures last { self.new.last ≡ self.old.last }
    {
        if self.pairs.count_numbers() > MOST {
            self.clear();
        }
    }
}

/// Whether two lists are the same.
fn are_same(xs: &[u32], ys: &[u32]) -> bool
    ensures { result ≡ true → xs.now ≡ ys.now }
{
    xs == ys
}

/// Writes a pair of lists as one list.
fn write_pair(xs: &[u32], ys: &[u32], to: &mut Vec<u32>) -> Result<(), AllocError>
    requires short { length xs.now ≤ 1048576 }
    ensures { IfOk result (λ _. to.new.items ≡ written_pair xs.now ys.now) }
{
    to.clear();
    to.push(xs.len() as u32)?;
    to.extend_from_slice(xs)?;
    to.extend_from_slice(ys)
}
