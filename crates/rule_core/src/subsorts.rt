// The order of a definition's sorts.
ghost use Rattle.std.specs.Prelude.{◌≡◌, ◌↔◌, ◌⊎◌, ◌++◌, ◌∷◌, IsTrue, [], Contains, IsSome, IfSome};
ghost use Rattle.std.specs.Prelude.{IfOk, OnErr, if◌then◌else◌};
ghost use Rattle.term_core.specs.RulePatterns.{sort_numbers};
ghost use Rattle.rule_core.specs.Subsorts.{IsBelow, HasNoCycle};
ghost use Rattle.rule_core.specs.SubsortPaths.{IsPath};

use crate::sort_sets::{grow, is_in, join, set_of, with_sort};
use std::alloc::{AllocError, Global};
use std::marker::Model;
use term_core::SortId;

/// The pairs by which a definition says that one sort is below another. Contracts see them as a
/// list of pairs, in the order in which they were added. No sort is below itself.
///
/// Besides the pairs, it keeps two sets for each sort: the sorts above it, and the sorts that a
/// pair puts directly above it. A set has one bit for each sort number up to the greatest in the
/// set. So a look-up takes one step. The sets of 10,000 sorts take at most about 40 MB, including
/// their spare capacity.
#[derive(Drop)]
pub struct Subsorts {
    pairs: Vec<(SortId, SortId)>,
    above: Vec<Vec<u64>>,
    direct: Vec<Vec<u64>>,
}

impl Model for Subsorts {
    ghost use Rattle.std.specs.Prelude.{ℕ, List};

    ghost Value = { List (ℕ × ℕ) };

    ghost use Rattle.rule_core.specs.SubsortFields.{pairs_of, IsTable};

    ghost view = { pairs_of };

    ghost invariant = { IsTable };
}

impl Subsorts {
    /// No pairs. It allocates no memory yet.
    pub fn new(alloc: Global) -> Subsorts
        ensures { result ≡ [] }
    {
        Subsorts {
            pairs: Vec::new(alloc),
            above: Vec::new(alloc),
            direct: Vec::new(alloc),
        }
    }

    /// Whether a chain of one or more pairs leads from the sort `a` to the sort `b`. It allocates
    /// no memory, and looks at one entry.
    pub fn below(&self, a: SortId, b: SortId) -> bool
        ensures { IsTrue result ↔ IsBelow self.now a.0 b.0 }
    {
        is_in(&self.above, a, b)
    }

    /// Whether exactly this pair was added. It allocates no memory, and looks at one entry.
    pub fn pair(&self, a: SortId, b: SortId) -> bool
        ensures { IsTrue result ↔ Contains self.now (a.0, b.0) }
    {
        is_in(&self.direct, a, b)
    }

    /// Has no effect at run time. It states that no sort is below itself.
    pub fn has_no_cycle(&self)
        ensures { HasNoCycle self.now }
    {
        let _pairs = &self.pairs;
    }

    /// The sorts of a chain of pairs from `a` to `b`, including both. It is None exactly when `a`
    /// is not below `b`. `AllocError`: out of memory for the chain. For each sort of the chain it
    /// looks at each pair at most once.
    pub fn path(
        &self,
        alloc: Global,
        a: SortId,
        b: SortId,
    ) -> Result<Option<Vec<SortId>>, AllocError>
        ensures below { IfOk result (λ found. IsSome found ↔ IsBelow self.now a.0 b.0) }
        ensures chain { IfOk result
            (λ found. IfSome found (λ sorts. IsPath self.now a.0 b.0 (sort_numbers sorts.items))) }
    {
        if !self.below(a, b) {
            return Ok(None);
        }
        // This shows that the walk ends.
        self.has_no_cycle();
        let mut sorts = vec![in alloc; a]?;
        let mut last = a;
        'walk: while last != b {
            last = self.next_towards(last, b);
            sorts.push(last)?;
        }
        Ok(Some(sorts))
    }

    // The upper sort of the first pair that leads from the sort to `b` or to a sort below it.
    fn next_towards(&self, from: SortId, b: SortId) -> SortId
        requires { IsBelow self.now from.0 b.0 }
        ensures pair { Contains self.now (from.0, result.0) }
        ensures leads { (result.0 ≡ b.0) ⊎ IsBelow self.now result.0 b.0 }
    {
        for &(lower, upper) in &self.pairs {
            if lower == from && self.reaches(upper, b) {
                return upper;
            }
        }
        unreachable!()
    }

    // Whether the first sort is the second, or is below it.
    fn reaches(&self, a: SortId, b: SortId) -> bool
        ensures { IsTrue result ↔ ((a.0 ≡ b.0) ⊎ IsBelow self.now a.0 b.0) }
    {
        a == b || self.below(a, b)
    }

    /// Adds a pair and returns true. If a sort would then be below itself, it returns false and
    /// changes nothing. `AllocError`: out of memory. Then no pair is added either.
    ///
    /// If the first sort is already below the second, only the set of the sorts directly above the
    /// first is rebuilt. Otherwise it looks at a few entries of each set. A set that gets new sorts
    /// takes one step for each 64 numbers from the first new sort to the greatest. So the pairs of
    /// a chain of 10,000 sorts, in order, reversed or shuffled, cost some hundred million steps in
    /// all.
    pub fn add(&mut self, alloc: Global, a: SortId, b: SortId) -> Result<bool, AllocError>
        ensures fresh { IfOk result
            (λ added. IsTrue added ↔ HasNoCycle (self.old ++ (a.0, b.0) ∷ [])) }
        ensures pairs { IfOk result
            (λ added. self.new ≡ (if added then self.old ++ (a.0, b.0) ∷ [] else self.old)) }
        ensures err { OnErr result (self.new ≡ self.old) }
    {
        if a == b || self.below(b, a) {
            return Ok(false);
        }
        self.pairs.reserve(1)?;
        grow(alloc, &mut self.direct, a)?;
        let right_above = with_sort(alloc, set_of(&self.direct, a), b)?;
        join(alloc, &mut self.above, a, b)?;
        self.direct[a.0 as usize] = right_above;
        self.pairs.push((a, b)).unwrap();
        Ok(true)
    }
}
