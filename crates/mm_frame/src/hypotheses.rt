// The active hypotheses.

ghost use Rattle.std.specs.Prelude.{◌≡◌, ℕ};
ghost use Rattle.mm_frame.specs.PlainFrames.{plain_hypotheses};
ghost use Rattle.mm_frame.specs.Places.{places_of};
ghost use Rattle.mm_frame.specs.Listed.{is_essential};
ghost use Rattle.mm_frame.specs.Times.{times_in};
ghost use Rattle.mm_frame.specs.CountsView.{times_counted};

use crate::counts::Counts;
use crate::frames::Hyp;
use std::alloc::{AllocError, Global};

/// Hypotheses in the order in which they came, the places of the `$e` among them, and which symbols
/// these have. Appending one takes time in its length, and cutting the list that of what is cut.
#[derive(Drop)]
pub struct Hypotheses<'a> {
    all: Vec<Hyp<'a>>,
    essentials: Vec<usize>,
    counts: Counts,
    ghost placed: { essentials.items ≡ places_of is_essential (plain_hypotheses all.items) },
    ghost counted: { (n : ℕ) → times_counted counts n ≡ times_in n (plain_hypotheses all.items) },
}

impl<'a> Hypotheses<'a> {
    ghost use Rattle.std.specs.Prelude.{◌++◌, ◌∷◌, [], ◌-◌, IfOk, length, take, option_map};
    ghost use Rattle.std.specs.Prelude.{slice_get};
    ghost use Rattle.std.specs.List.{list_any};
    ghost use Rattle.mm_frame.specs.PlainFrames.{plain_hypothesis};
    ghost use Rattle.mm_frame.specs.NeededNumbers.{number_stands_in};
    ghost use Rattle.mm_frame.specs.HypothesesView.{hypotheses_in};

    /// No hypotheses. Takes no memory yet.
    pub fn new(alloc: Global) -> Self
        ensures { hypotheses_in result ≡ [] }
    {
        Hypotheses {
            all: Vec::new(alloc),
            essentials: Vec::new(alloc),
            counts: Counts::new(alloc),
        }
    }

    /// How many there are.
    pub fn len(&self) -> usize
        ensures { result ≡ length (hypotheses_in self.now) }
    {
        self.all.len()
    }

    /// The hypothesis at a place.
    pub fn get(&self, place: usize) -> Option<&Hyp<'a>>
        ensures { option_map (λ h. plain_hypothesis h.now) result
            ≡ slice_get (hypotheses_in self.now) place }
    {
        self.all.get(place)
    }

    /// The places of the `$e`, ascending.
    pub fn essentials(&self) -> &[usize]
        ensures { result.now ≡ places_of is_essential (hypotheses_in self.now) }
    {
        &self.essentials
    }

    /// Whether the symbol occurs in one of the `$e`.
    pub fn is_asked(&self, n: u32) -> bool
        ensures { result ≡ list_any (number_stands_in n) (hypotheses_in self.now) }
    {
        self.counts.has(n)
    }

    /// Appends a hypothesis. After running out of memory none may be left.
    pub fn push(&mut self, hyp: Hyp<'a>) -> Result<(), AllocError>
        ensures { IfOk result (λ _.
            hypotheses_in self.new ≡ hypotheses_in self.old ++ plain_hypothesis hyp.entry ∷ []) }
    {
        self.all.reserve(1)?;
        self.essentials.reserve(1)?;
        let place = self.all.len();
        let Hyp::Essential(_, statement) = &hyp else {
            self.all.push(hyp).unwrap();
            return Ok(());
        };
        if self.counts.add(statement.symbols()).is_err() {
            self.all.clear();
            self.essentials.clear();
            self.counts.clear();
            return Err(AllocError);
        }
        self.essentials.push(place).unwrap();
        self.all.push(hyp).unwrap();
        Ok(())
    }

    /// Keeps this many of the first hypotheses.
    pub fn truncate(&mut self, count: usize)
        ensures { hypotheses_in self.new ≡ take count (hypotheses_in self.old) }
    {
        while self.all.len() > count {
            self.pop();
        }
    }

    /// Lets the last hypothesis go.
    fn pop(&mut self)
        ensures { hypotheses_in self.new
            ≡ take (length (hypotheses_in self.old) - 1) (hypotheses_in self.old) }
    {
        if let Some(hyp) = self.all.pop() {
            if let Hyp::Essential(_, statement) = &hyp {
                self.essentials.pop();
                self.counts.remove(statement.symbols());
            }
        }
    }
}
