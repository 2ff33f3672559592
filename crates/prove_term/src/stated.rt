// Axioms that are stated once. Each is found again by the fingerprint of its image. It is cited
// with other numbers for its variables.
ghost use Rattle.std.specs.Prelude.{◌≡◌, ◌<◌, [], length, IfOk, IfSome, Some, slice_get};
ghost use Rattle.ml_kernel.specs.StepView.{numbers_of};
ghost use Rattle.rule_core.specs.ProgramView.{theory_of};
ghost use Rattle.ml_image.specs.Assumed.{IsAssumed};
ghost use Rattle.ml_image.specs.Sentences.{IsImageOf};
ghost use Rattle.prove_term.specs.Contexts.{HasGrown, StaysIn};
ghost use Rattle.prove_term.specs.Raised.{IsBoundInFront, in_front, numbers_from, raised};

use crate::context::Cx;
use ml_kernel::{AxiomNo, Thm};
use ml_pat::{MForm, MPat, VarNo};
use std::alloc::{AllocError, Global};

impl<'p> Cx<'p> {
    // Returns the number of the axiom with this image, which is that of an assumed sentence. The
    // first call for an image states it.
    pub(crate) fn state_once(&mut self, image: MPat) -> Result<AxiomNo, AllocError>
        requires { IsImageOf self.old.program.sig self.old.names
            (IsAssumed (theory_of self.old.program)) image }
        ensures there { IfOk result (λ no. slice_get self.new.axioms no.0 ≡ Some image) }
        ensures grown { HasGrown self.old self.new }
        ensures names { self.new.names ≡ self.old.names }
    {
        if let Some(no) = self.known_axiom(&image) {
            return Ok(no);
        }
        let fingerprint = image.fingerprint();
        let no = self.state(image)?;
        self.keep_axiom(fingerprint, no)?;
        Ok(no)
    }

    // Returns the number of the axiom with this image, if there is one that was stated once.
    fn known_axiom(&self, image: &MPat) -> Option<AxiomNo>
        ensures { IfSome result (λ no. slice_get self.now.axioms no.0 ≡ Some image.now) }
    {
        let no = self.number_of(image.fingerprint())?;
        if self.theory().at(no).same(image) {
            Some(no)
        } else {
            None
        }
    }

    // Returns the number of the axiom that is kept for a fingerprint.
    fn number_of(&self, fingerprint: u64) -> Option<AxiomNo>
        ensures { IfSome result (λ no. no.0 < length self.now.axioms) }
    {
        self.stated.get(&fingerprint).copied()
    }

    // Keeps the number of an axiom for a fingerprint.
    fn keep_axiom(&mut self, fingerprint: u64, no: AxiomNo) -> Result<(), AllocError>
        requires { no.0 < length self.old.axioms }
        ensures { self.new ≡ self.old }
    {
        self.stated.insert(fingerprint, no)?;
        Ok(())
    }

    // Returns the axiom with this image, with its variables numbered from k. The first call for an
    // image states it. Numbers that do not fit in 32 bits are refused as out of memory.
    pub(crate) fn stated_from(
        &mut self,
        alloc: Global,
        image: MPat,
        k: u32,
    ) -> Result<Thm, AllocError>
        requires assumed { IsImageOf self.old.program.sig self.old.names
            (IsAssumed (theory_of self.old.program)) image }
        requires bound { IsBoundInFront image }
        ensures says { IfOk result (λ t. t.conclusion ≡ raised k image) }
        ensures no_hypotheses { IfOk result (λ t. t.hypotheses ≡ []) }
        ensures stays { IfOk result (StaysIn self.new) }
        ensures grown { HasGrown self.old self.new }
    {
        let new = new_numbers(alloc, &image, k)?;
        let no = self.state_once(image)?;
        self.axiom_as(alloc, no, &new)
    }
}

// Returns numbers from k on, one for each quantifier in front of the pattern. A number that does
// not fit in 32 bits is refused as out of memory.
fn new_numbers(alloc: Global, pat: &MPat, k: u32) -> Result<Vec<VarNo>, AllocError>
    ensures { IfOk result (λ v. numbers_of v.items ≡ numbers_from k (in_front pat.now)) }
{
    let mut new = Vec::new(alloc);
    let mut next = k as u64;
    let mut rest = pat;
    while let MForm::Ex(_, _, body) | MForm::All(_, _, body) = rest.form() {
        if next >= 1 << 32 {
            return Err(AllocError);
        }
        new.push(VarNo(next as u32))?;
        next += 1;
        rest = body;
    }
    Ok(new)
}
