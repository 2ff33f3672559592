// Lists of numbers.
ghost use Rattle.std.specs.Prelude.{◌≡◌, ◌<◌, ◌≤◌, [], ◌∷◌, ◌++◌, length, take, IfOk, OnOk};
ghost use Rattle.std.specs.Prelude.{OnErr};
ghost use Rattle.std.specs.Prelude.{slice_index_or};
ghost use Rattle.mm_verify.specs.Cut.{cut, start_of, AreEnds};

use std::alloc::{AllocError, Global};
use std::marker::Model;

/// Lists of numbers, the last one on top. All numbers are in one buffer, one list after another.
/// Contracts see a list of lists.
#[derive(Drop)]
pub(crate) struct Lists {
    symbols: Vec<u32>,
    ends: Vec<usize>,
}

impl Model for Lists {
    ghost use Rattle.std.specs.Prelude.{ℕ, List};

    ghost Value = { List (List ℕ) };

    ghost use Rattle.mm_verify.specs.ListsView.{entries_of, IsCut};

    ghost view = { entries_of };

    ghost invariant = { IsCut };
}

impl Lists {
    /// No lists, with room for what most proofs need.
    pub(crate) fn new(alloc: Global) -> Result<Lists, AllocError>
        ensures { IfOk result (λ s. s ≡ []) }
    {
        Ok(Lists {
            symbols: Vec::with_capacity(alloc, 1024)?,
            ends: Vec::with_capacity(alloc, 64)?,
        })
    }

    /// How many lists there are.
    #[tactic(auto, using(crate::proofs::Cuts::length_cut))]
    pub(crate) fn len(&self) -> usize
        ensures { result ≡ length self.now }
    {
        self.ends.len()
    }

    /// The list with this number, from 0, the lowest first.
    #[tactic(auto, using(crate::proofs::Cuts::length_cut))]
    pub(crate) fn entry(&self, i: usize) -> &[u32]
        requires { i < length self.now }
        ensures { result.now ≡ slice_index_or self.now i result.now }
    {
        piece(&self.symbols, &self.ends, i)
    }

    /// How many numbers all lists have.
    pub(crate) fn count_numbers(&self) -> usize {
        self.symbols.len()
    }

    /// Puts a list on top. It takes time in its length.
    pub(crate) fn push(&mut self, list: &[u32]) -> Result<(), AllocError>
        ensures pushed { OnOk result (self.new ≡ self.old ++ list.now ∷ []) }
        ensures err { OnErr result (self.new ≡ self.old) }
    {
        self.ends.reserve(1)?;
        self.symbols.extend_from_slice(list)?;
        self.ends.push(self.symbols.len()).unwrap();
        Ok(())
    }

    /// Keeps the lowest `n` lists.
    #[tactic(auto, using(crate::proofs::Cuts::length_cut))]
    pub(crate) fn truncate(&mut self, n: usize)
        requires { n ≤ length self.old }
        ensures { self.new ≡ take n self.old }
    {
        let end = start(&self.ends, n);
        self.symbols.truncate(end);
        self.ends.truncate(n);
    }
}

/// The list with this number, by the places where they end.
fn piece<'a>(symbols: &'a [u32], ends: &[usize], i: usize) -> &'a [u32]
    requires cut { AreEnds (length symbols.now) 0 ends.now }
    requires within { i < length ends.now }
    ensures { result.now ≡ slice_index_or (cut symbols.now 0 ends.now) i result.now }
{
    let from = start(ends, i);
    let to = ends[i];
    &symbols[from..to]
}

/// Where the list with this number begins, by the places where they end.
fn start(ends: &[usize], i: usize) -> usize
    requires { i ≤ length ends.now }
    ensures { result ≡ start_of 0 ends.now i }
{
    if i == 0 { 0 } else { ends[i - 1] }
}
