// Functions with hooks: the value of a hook at values, by an axiom that is stated once.
ghost use Rattle.std.specs.Prelude.{◌≡◌, [], IfOk, IfSome, Some, map, slice_get};
ghost use Rattle.term_core.specs.Values.{scalar_value};
ghost use Rattle.rule_core.specs.ProgramView.{theory_of};
ghost use Rattle.ml_image.specs.Sentences.{Sentence, IsImageOf};
ghost use Rattle.ml_image.specs.TrueFacts.{SaysHook};
ghost use Rattle.prove_term.specs.Contexts.{HasGrown, StaysIn};
ghost use Rattle.ml_image.specs.Assumed.{IsAssumed};

use crate::context::Cx;
use ml_image::hook_fact;
use ml_kernel::{AxiomNo, Thm};
use ml_pat::MPat;
use std::alloc::{AllocError, Global};
use term_core::{Scalar, SymId};

// A function with a hook, and the first two of its arguments.
type Call = (u32, i128, i128);

impl<'p> Cx<'p> {
    /// Proves that a function with a hook, applied to values, equals the value of the hook. The
    /// first call states this as an axiom. `AllocError`: out of memory. After an error the context
    /// may have grown.
    pub fn hook(&mut self, alloc: Global, symbol: SymId, args: &[Scalar]) -> Result<Thm, AllocError>
        requires { (s : Sentence)
            × SaysHook self.old.program.sig symbol.0 (map scalar_value args.now) s }
        ensures says { IfOk result (λ t. IsImageOf self.new.program.sig self.new.names
            (SaysHook self.new.program.sig symbol.0 (map scalar_value args.now)) t.conclusion) }
        ensures no_hypotheses { IfOk result (λ t. t.hypotheses ≡ []) }
        ensures stays { IfOk result (StaysIn self.new) }
        ensures grown { HasGrown self.old self.new }
    {
        let fact = self.hook_image(alloc, symbol, args)?;
        let no = self.fact_number(call(symbol, args), fact)?;
        self.axiom(alloc, no)
    }

    // Returns the image of that fact.
    fn hook_image(
        &mut self,
        alloc: Global,
        symbol: SymId,
        args: &[Scalar],
    ) -> Result<MPat, AllocError>
        requires { (s : Sentence)
            × SaysHook self.old.program.sig symbol.0 (map scalar_value args.now) s }
        ensures says { IfOk result (IsImageOf self.new.program.sig self.new.names
            (SaysHook self.new.program.sig symbol.0 (map scalar_value args.now))) }
        ensures assumed { IfOk result
            (IsImageOf self.new.program.sig self.new.names
            (IsAssumed (theory_of self.new.program))) }
        ensures grown { HasGrown self.old self.new }
    {
        hook_fact(alloc, &self.program.sig, &mut self.names, symbol, args)
    }

    // Returns the number of the axiom of a fact on a call.
    fn fact_number(&mut self, of: Call, fact: MPat) -> Result<AxiomNo, AllocError>
        requires { IsImageOf self.old.program.sig self.old.names
            (IsAssumed (theory_of self.old.program)) fact }
        ensures there { IfOk result (λ no. slice_get self.new.axioms no.0 ≡ Some fact) }
        ensures names { self.new.names ≡ self.old.names }
        ensures grown { HasGrown self.old self.new }
    {
        if let Some(no) = self.known_fact(of, &fact) {
            return Ok(no);
        }
        let no = self.state(fact)?;
        self.hooks.insert(of, no)?;
        Ok(no)
    }

    // Returns the number of the axiom that is kept for a call, if it is this fact.
    fn known_fact(&self, of: Call, fact: &MPat) -> Option<AxiomNo>
        ensures { IfSome result (λ no. slice_get self.now.axioms no.0 ≡ Some fact.now) }
    {
        let no = *self.hooks.get(&of)?;
        if no.0 < self.theory().len() && self.theory().at(no).same(fact) {
            Some(no)
        } else {
            None
        }
    }
}

// Returns the key by which the fact on a call is kept.
fn call(symbol: SymId, args: &[Scalar]) -> Call {
    (symbol.0, number(args.get(0)), number(args.get(1)))
}

fn number(argument: Option<&Scalar>) -> i128 {
    match argument {
        Some(Scalar::Int(n)) => *n,
        Some(Scalar::Bool(true)) => 1,
        Some(Scalar::Bool(false)) | None => 0,
    }
}
