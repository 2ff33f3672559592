// Domain values: each is one element of its sort, by an axiom that is stated once.
ghost use Rattle.std.specs.Prelude.{◌≡◌, [], ℕ, IfOk, IfSome, Some, slice_get};
ghost use Rattle.ml_pat.specs.Patterns.{fun, constant};
ghost use Rattle.term_core.specs.Values.{value_of};
ghost use Rattle.rule_core.specs.ProgramView.{theory_of};
ghost use Rattle.rule_core.specs.Sorting.{HasValue};
ghost use Rattle.ml_image.specs.Sentences.{IsImageOf};
ghost use Rattle.prove_term.specs.Contexts.{HasGrown, StaysIn};
ghost use Rattle.ml_image.specs.Assumed.{IsAssumed};
ghost use Rattle.prove_term.specs.ValueAxioms.{IsValueAxiom, SaysValueOf};

use crate::context::{Cx, ValueAxiom};
use ml_image::value_fact;
use ml_kernel::{AxiomNo, Thm};
use ml_pat::{ConstNo, MForm, MPat, MSort};
use std::alloc::{AllocError, Global};
use term_core::{SortId, Value};

impl<'p> Cx<'p> {
    // Proves that a domain value is one element of its sort.
    pub(crate) fn value(
        &mut self,
        alloc: Global,
        sort: SortId,
        value: &Value,
    ) -> Result<Thm, AllocError>
        requires { HasValue self.old.program.sig sort.0 (value_of value.now) }
        ensures says { IfOk result
            (λ t. SaysValueOf self.new sort.0 (value_of value.now) t.conclusion) }
        ensures no_hypotheses { IfOk result (λ t. t.hypotheses ≡ []) }
        ensures stays { IfOk result (StaysIn self.new) }
        ensures grown { HasGrown self.old self.new }
    {
        let fact = self.value_image(alloc, sort, value)?;
        let no = self.value_number(fact)?;
        self.axiom(alloc, no)
    }

    // Returns the image of that fact.
    fn value_image(
        &mut self,
        alloc: Global,
        sort: SortId,
        value: &Value,
    ) -> Result<MPat, AllocError>
        requires { HasValue self.old.program.sig sort.0 (value_of value.now) }
        ensures says { IfOk result (SaysValueOf self.new sort.0 (value_of value.now)) }
        ensures assumed { IfOk result
            (IsImageOf self.new.program.sig self.new.names
            (IsAssumed (theory_of self.new.program))) }
        ensures grown { HasGrown self.old self.new }
    {
        value_fact(alloc, &self.program.sig, &mut self.names, sort, value)
    }

    // Returns the number of the axiom of a value.
    fn value_number(&mut self, fact: MPat) -> Result<AxiomNo, AllocError>
        requires assumed { IsImageOf self.old.program.sig self.old.names
            (IsAssumed (theory_of self.old.program)) fact }
        requires form { (c s : ℕ) × (fact ≡ fun (constant c) s) }
        ensures there { IfOk result (λ no. slice_get self.new.axioms no.0 ≡ Some fact) }
        ensures names { self.new.names ≡ self.old.names }
        ensures grown { HasGrown self.old self.new }
    {
        let at = parts(&fact);
        if let Some(no) = self.known_value(at) {
            return Ok(no);
        }
        let no = self.state(fact)?;
        self.keep_value(at, no)?;
        Ok(no)
    }

    // Returns the number of the axiom of a value, if there is one.
    fn known_value(&self, at: ValueParts) -> Option<AxiomNo>
        ensures { IfSome result (λ no. IsValueAxiom self.now at.token.0 at.sort.0 no.0) }
    {
        let known = self.values.get(&at.token.0)?;
        if known.sort == at.sort {
            Some(known.no)
        } else {
            None
        }
    }

    // Keeps the number of a value's axiom.
    fn keep_value(&mut self, at: ValueParts, no: AxiomNo) -> Result<(), AllocError>
        requires { IsValueAxiom self.old at.token.0 at.sort.0 no.0 }
        ensures { self.new ≡ self.old }
    {
        let axiom = ValueAxiom { sort: at.sort, no };
        self.values.insert(at.token.0, axiom)?;
        Ok(())
    }
}

// The constant and the sort of a fact on a value.
#[derive(Clone, Copy)]
struct ValueParts {
    token: ConstNo,
    sort: MSort,
}

fn parts(fact: &MPat) -> ValueParts
    requires { (c s : ℕ) × (fact.now ≡ fun (constant c) s) }
    ensures { fact.now ≡ fun (constant result.token.0) result.sort.0 }
{
    let MForm::Fun(value, sort) = fact.form() else {
        unreachable!()
    };
    let MForm::Const(token) = value.form() else {
        unreachable!()
    };
    ValueParts {
        token: *token,
        sort: *sort,
    }
}
