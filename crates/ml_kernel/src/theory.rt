// Theories: lists of axioms.
ghost use Rattle.std.specs.Prelude.{◌≡◌, ◌<◌, [], ◌∷◌, ◌++◌, length, slice_get, IfOk, OnOk, OnErr};
ghost use Rattle.std.specs.Prelude.{Some};
ghost use Rattle.ml_kernel.specs.Lemmas.{HasNoMeta};
ghost use Rattle.ml_kernel.specs.Theorems.{own_axiom};
ghost use Rattle.ml_kernel.specs.StepView.{numbers_of};
ghost use Rattle.ml_kernel.specs.RenamedAxioms.{IsAxiomAs, MayRename};

use crate::derivations::AxiomNo;
use crate::renaming::renamed_pattern;
use crate::theorems::Thm;
use ml_pat::{MPat, VarNo};
use std::alloc::{AllocError, Global};
use std::marker::Model;

/// The axioms that theorems may depend on. The number of an axiom is its index. No pattern variable
/// occurs in them.
pub struct Theory {
    axioms: Vec<MPat>,
}

// A theory is dropped by one call, and not field by field at each end of each call that owns one.
impl Drop for Theory {
    fn drop(self) {
        let Theory { axioms: _ } = self;
    }
}

impl Model for Theory {
    ghost use Rattle.std.specs.Prelude.{List};
    ghost use Rattle.std.specs.Coded.{coded_list};
    ghost use Rattle.ml_pat.specs.Patterns.{Pattern};
    ghost use Rattle.ml_pat.specs.PatternCode.{pattern_code};
    ghost use Rattle.ml_kernel.specs.TheoryView.{HaveNoMetas};

    ghost Value = { List Pattern };

    ghost coded = { coded_list pattern_code };

    ghost view = { λ t. t.axioms.items };

    ghost invariant = { λ t. HaveNoMetas t.axioms.items };
}

impl Theory {
    /// No axioms.
    pub fn new(alloc: Global) -> Self
        ensures { result ≡ [] }
    {
        Theory {
            axioms: Vec::new(alloc),
        }
    }

    /// Adds a pattern as an axiom, and returns its number. An error: out of memory. Then nothing
    /// changes.
    pub fn add(&mut self, pattern: MPat) -> Result<AxiomNo, AllocError>
        requires { HasNoMeta pattern }
        ensures number { IfOk result (λ no. no.0 ≡ length self.old) }
        ensures axioms { OnOk result (self.new ≡ self.old ++ pattern ∷ []) }
        ensures err { OnErr result (self.new ≡ self.old) }
    {
        let number = AxiomNo(self.axioms.len() as u64);
        self.axioms.push(pattern)?;
        Ok(number)
    }

    /// How many axioms there are. Their numbers are the ones below that.
    pub fn len(&self) -> u64
        ensures { result ≡ length self.now }
    {
        self.axioms.len() as u64
    }

    /// The axiom as a theorem, with its own bound variables. It has no hypotheses, and keeps only
    /// this axiom. An error: out of memory.
    pub fn axiom(&self, alloc: Global, no: AxiomNo) -> Result<Thm, AllocError>
        requires { no.0 < length self.now }
        ensures conclusion { IfOk result (λ t. slice_get self.now no.0 ≡ Some t.conclusion) }
        ensures hypotheses { IfOk result (λ t. t.hypotheses ≡ []) }
        ensures derivation { IfOk result (λ t. t.derivation ≡ own_axiom no.0 t.conclusion []) }
    {
        let pattern = self.at(no);
        Thm::of_axiom(alloc, no, pattern, Vec::new(alloc), pattern.share()?)
    }

    /// The axiom as a theorem, with new numbers for its bound variables: the variable with the
    /// number i becomes the i-th entry of the list. If the list is shorter, the variable does not
    /// change. Different variables have to stay different, and free ones must not change. The
    /// theorem has no hypotheses, and keeps only this axiom. An error: out of memory.
    pub fn axiom_as(&self, alloc: Global, no: AxiomNo, new: &[VarNo]) -> Result<Thm, AllocError>
        requires number { no.0 < length self.now }
        requires renames { MayRename self.now no.0 (numbers_of new.now) }
        ensures axiom { IfOk result (IsAxiomAs self.now no.0 (numbers_of new.now)) }
        ensures hypotheses { IfOk result (λ t. t.hypotheses ≡ []) }
    {
        let pattern = self.at(no);
        let conclusion = renamed_pattern(alloc, new, pattern)?;
        let mut numbers = Vec::with_capacity(alloc, new.len())?;
        numbers.extend_from_slice(new)?;
        Thm::of_axiom(alloc, no, pattern, numbers, conclusion)
    }

    /// The axiom with this number. No pattern variable occurs in it.
    pub fn at(&self, no: AxiomNo) -> &MPat
        requires { no.0 < length self.now }
        ensures axiom { slice_get self.now no.0 ≡ Some result.now }
        ensures no_meta { HasNoMeta result.now }
    {
        &self.axioms[no.0 as usize]
    }
}
