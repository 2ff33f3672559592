// The frame of an assertion.

ghost use Rattle.std.specs.Prelude.{◌≡◌, ℕ, ◌||◌, IfOk, filter, flat_map, slice_get};
ghost use Rattle.std.specs.Prelude.{◌++◌, ◌∷◌, []};
ghost use Rattle.std.specs.List.Sorted.{IsStrictlyIncreasing};
ghost use Rattle.mm_scope.specs.ScopeState.{scope_state};
ghost use Rattle.mm_frame.specs.PlainFrames.{has_number, groups_of};
ghost use Rattle.mm_frame.specs.PlainFrames.{plain_hypotheses, plain_frame};
ghost use Rattle.mm_frame.specs.PlainFrames.{mandatory_hypotheses, mandatory_groups};
ghost use Rattle.mm_scope.specs.StateFaults.{plain_stated};
ghost use Rattle.mm_scope.specs.StateFrames.{IsFrameIn};
ghost use Rattle.mm_frame.specs.NeededNumbers.{is_needed_number, is_mandatory_number};
ghost use Rattle.mm_frame.specs.Places.{places_of, found_at};
ghost use Rattle.mm_scope.specs.Sharing.{IsMandatory};
ghost use Rattle.mm_frame.specs.Listed.{is_essential};
ghost use Rattle.mm_scope.specs.StatePlaces.{premise_at, ArePlaced, typed_places};

use crate::judge::Stated;
use crate::scopes::Scopes;
use mm_frame::{Expression, Frame, Hyp, Lists, Mandatory, ascending};
use std::alloc::{AllocError, Global};
use std::rc::Rc;

impl<'a> Scopes<'a> {
    /// The frame of an assertion with this label and these symbols.
    pub(crate) fn frame(&self, alloc: Global, stated: Stated<'a>) -> Result<Frame<'a>, AllocError>
        ensures { IfOk result (λ f. ArePlaced (scope_state self.now)
            → IsFrameIn (scope_state self.now) (plain_stated stated.entry) (plain_frame f)) }
    {
        let mandatory = self.mandatory(alloc, &stated.statement)?;
        Ok(Frame {
            label: stated.label,
            mandatory: Rc::new(alloc, mandatory)?,
            statement: Expression::shared(alloc, stated.statement)?,
        })
    }

    /// What an assertion with this statement asks for.
    fn mandatory(&self, alloc: Global, statement: &[u32]) -> Result<Mandatory<'a>, AllocError>
        ensures { IfOk result (λ m. ArePlaced (scope_state self.now)
            → IsMandatory (scope_state self.now).hypotheses (scope_state self.now).disjoint
            statement.now
            (mandatory_hypotheses m) (mandatory_groups m)) }
    {
        match &self.common {
            None => Ok(Mandatory::Listed(self.lists(alloc, statement)?)),
            Some(common) => Ok(Mandatory::Shared(self.parts(alloc, common, statement)?)),
        }
    }

    /// The same as lists.
    fn lists(&self, alloc: Global, statement: &[u32]) -> Result<Lists<'a>, AllocError>
        ensures { IfOk result (λ l. ArePlaced (scope_state self.now)
            → IsMandatory (scope_state self.now).hypotheses (scope_state self.now).disjoint
            statement.now
            (plain_hypotheses l.hyps.items) (groups_of l.apart.items)) }
    {
        let needed = self.needed(alloc, statement)?;
        Ok(Lists {
            hyps: self.mandatory_hyps(alloc, &needed)?,
            apart: self.disjoint.within(alloc, &needed)?,
        })
    }

    /// The symbols of a statement and of the active `$e`, ascending and each once.
    pub(crate) fn needed(&self, alloc: Global, statement: &[u32]) -> Result<Vec<u32>, AllocError>
        ensures ascending { IfOk result (λ v. IsStrictlyIncreasing v.items) }
        ensures symbols { IfOk result (λ v. (n : ℕ) → has_number v.items n
            ≡ is_needed_number (scope_state self.now).hypotheses statement.now n) }
    {
        let symbols = self.stated_symbols(alloc, statement)?;
        Ok(ascending(symbols))
    }

    /// The symbols of a statement, and those of the active `$e` after them.
    fn stated_symbols(&self, alloc: Global, statement: &[u32]) -> Result<Vec<u32>, AllocError>
        ensures { IfOk result (λ v. v.items
            ≡ statement.now
            ++ flat_map (λ i. premise_at (slice_get (scope_state self.now).hypotheses i))
            (places_of is_essential (scope_state self.now).hypotheses)) }
    {
        let mut symbols = Vec::from_slice(alloc, statement)?;
        for place in self.hyps.essentials() {
            if let Some(Hyp::Essential(_, premise)) = self.hyps.get(*place) {
                symbols.extend_from_slice(premise.symbols())?;
            }
        }
        Ok(symbols)
    }

    /// The active `$e`, and the active `$f` of these variables.
    fn mandatory_hyps(&self, alloc: Global, needed: &[u32]) -> Result<Vec<Hyp<'a>>, AllocError>
        ensures { IfOk result (λ v. ArePlaced (scope_state self.now)
            → plain_hypotheses v.items
            ≡ filter (is_mandatory_number (has_number needed.now))
            (scope_state self.now).hypotheses) }
    {
        let places = self.places(alloc, needed)?;
        self.copies(alloc, &places)
    }

    /// The places of the active `$e` and of the active `$f` of these variables, ascending and each
    /// once.
    pub(crate) fn places(&self, alloc: Global, needed: &[u32]) -> Result<Vec<usize>, AllocError>
        ensures ascending { IfOk result (λ v. IsStrictlyIncreasing v.items) }
        ensures places { IfOk result (λ v. (i : ℕ) → has_number v.items i
            ≡ (has_number (places_of is_essential (scope_state self.now).hypotheses) i
            || has_number (typed_places (scope_state self.now) needed.now) i)) }
    {
        let mut places = Vec::from_slice(alloc, self.hyps.essentials())?;
        for n in needed {
            self.push_place(&mut places, *n)?;
        }
        places.sort_unstable();
        places.dedup();
        Ok(places)
    }

    /// Appends the place of the active `$f` of a variable, if it has one.
    pub(crate) fn push_place(&self, places: &mut Vec<usize>, n: u32) -> Result<(), AllocError>
        ensures { IfOk result (λ _.
            places.new.items ≡ places.old.items ++ typed_places (scope_state self.now) (n ∷ [])) }
    {
        if self.has_type(n) {
            places.push(self.type_place(n))?;
        }
        Ok(())
    }

    /// The hypotheses at places.
    fn copies(&self, alloc: Global, places: &[usize]) -> Result<Vec<Hyp<'a>>, AllocError>
        ensures { IfOk result (λ v. plain_hypotheses v.items
            ≡ flat_map (λ i. found_at (slice_get (scope_state self.now).hypotheses i)) places.now) }
    {
        let mut hyps = Vec::with_capacity(alloc, places.len())?;
        for place in places {
            if let Some(hyp) = self.hyps.get(*place) {
                let hyp = hyp.share()?;
                if hyps.push(hyp).is_err() {
                    return Err(AllocError);
                }
            }
        }
        Ok(hyps)
    }
}
