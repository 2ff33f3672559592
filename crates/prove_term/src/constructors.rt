// Constructors: each makes one element of its sort, by a lemma that is made once.
ghost use Rattle.std.specs.Prelude.{◌≡◌, [], IfOk, IfSome};
ghost use Rattle.rule_core.specs.ProgramView.{theory_of};
ghost use Rattle.rule_core.specs.WellSorted.{IsSignature};
ghost use Rattle.ml_image.specs.Sentences.{IsImageOf};
ghost use Rattle.prove_term.specs.Contexts.{HasGrown, StaysIn};
ghost use Rattle.ml_image.specs.Assumed.{IsAssumed};
ghost use Rattle.prove_term.specs.Constructing.{IsConstructorAt, SaysTotality};
ghost use Rattle.prove_term.specs.Numbered.{Constructs};
ghost use Rattle.prove_term.specs.Constructing.{HasArity};

use crate::context::Cx;
use crate::schemas::total_lemma;
use ml_image::ctor_total;
use ml_kernel::Thm;
use ml_pat::MPat;
use std::alloc::{AllocError, Global};
use term_core::SymId;

impl<'p> Cx<'p> {
    // Returns the place of the lemma of a constructor. A constructor with 2^31 arguments or more is
    // refused as out of memory.
    pub(crate) fn constructor(&mut self, alloc: Global, symbol: SymId) -> Result<usize, AllocError>
        requires signature { IsSignature self.old.program.sig }
        requires constructs { Constructs self.old.program.sig symbol.0 }
        ensures lemma { IfOk result (IsConstructorAt self.new symbol.0) }
        ensures grown { HasGrown self.old self.new }
    {
        if let Some(place) = self.known_constructor(symbol) {
            return Ok(place);
        }
        let totality = self.totality(alloc, symbol)?;
        let lemma = total_lemma(alloc, totality, self.count(symbol) as u32)?;
        let place = self.lemmas().len();
        self.add_lemma(alloc, lemma)?;
        self.keep_constructor(symbol, place)?;
        Ok(place)
    }

    // Returns the place of the lemma of a constructor, if there is one.
    fn known_constructor(&self, symbol: SymId) -> Option<usize>
        ensures { IfSome result (IsConstructorAt self.now symbol.0) }
    {
        self.constructors.get(&symbol.0).copied()
    }

    // Keeps the place of a constructor's lemma.
    fn keep_constructor(&mut self, symbol: SymId, place: usize) -> Result<(), AllocError>
        requires { IsConstructorAt self.old symbol.0 place }
        ensures { self.new ≡ self.old }
    {
        self.constructors.insert(symbol.0, place)?;
        Ok(())
    }

    // Proves that a constructor is total, for all arguments.
    fn totality(&mut self, alloc: Global, symbol: SymId) -> Result<Thm, AllocError>
        requires signature { IsSignature self.old.program.sig }
        requires constructs { Constructs self.old.program.sig symbol.0 }
        ensures says { IfOk result (λ t. SaysTotality self.new symbol.0 t.conclusion) }
        ensures no_hypotheses { IfOk result (λ t. t.hypotheses ≡ []) }
        ensures stays { IfOk result (StaysIn self.new) }
        ensures grown { HasGrown self.old self.new }
    {
        let image = self.totality_image(alloc, symbol)?;
        let no = self.state_once(image)?;
        self.axiom(alloc, no)
    }

    // Returns the image of that sentence.
    pub(crate) fn totality_image(
        &mut self,
        alloc: Global,
        symbol: SymId,
    ) -> Result<MPat, AllocError>
        requires signature { IsSignature self.old.program.sig }
        requires constructs { Constructs self.old.program.sig symbol.0 }
        ensures says { IfOk result (SaysTotality self.new symbol.0) }
        ensures assumed { IfOk result
            (IsImageOf self.new.program.sig self.new.names
            (IsAssumed (theory_of self.new.program))) }
        ensures grown { HasGrown self.old self.new }
    {
        if self.count(symbol) >= 1 << 31 {
            return Err(AllocError);
        }
        ctor_total(alloc, &self.program.sig, &mut self.names, symbol)
    }

    // Returns how many arguments a symbol has.
    pub(crate) fn count(&self, symbol: SymId) -> usize
        ensures { HasArity self.now.program.sig symbol.0 result }
    {
        match self.program.sig.symbols.value(symbol.0 as usize) {
            Some(info) => info.args.len(),
            None => 0,
        }
    }
}
