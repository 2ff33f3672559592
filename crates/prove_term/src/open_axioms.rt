// Axioms about symbols and sorts with the numbers of their variables raised, so that they are apart
// from the variables of other patterns.
ghost use Rattle.std.specs.Prelude.{◌≡◌, [], IfOk};
ghost use Rattle.term_core.specs.RulePatterns.{plain_pattern};
ghost use Rattle.rule_core.specs.ProgramView.{theory_of};
ghost use Rattle.rule_core.specs.Subsorts.{IsBelow};
ghost use Rattle.rule_core.specs.WellSorted.{IsSignature};
ghost use Rattle.ml_image.specs.Assumed.{IsAssumed};
ghost use Rattle.ml_image.specs.HasImages.{HaveApartImages};
ghost use Rattle.ml_image.specs.Sentences.{IsImageOf};
ghost use Rattle.ml_image.specs.TrueFacts.{SaysUnequal};
ghost use Rattle.prove_term.specs.Contexts.{HasGrown, StaysIn};
ghost use Rattle.prove_term.specs.InjectionTables.{AllowsPair, InjectsBelow};
ghost use Rattle.prove_term.specs.Numbered.{Constructs};
ghost use Rattle.prove_term.specs.OpenAxioms.{AreApartConstructors, IsFreeConstructor};
ghost use Rattle.prove_term.specs.OpenAxioms.{SaysTotalFrom, SaysFreeFrom, SaysApartFrom};
ghost use Rattle.prove_term.specs.OpenAxioms.{SaysSubsortFrom, SaysCollapseFrom, SaysInjectiveFrom};
ghost use Rattle.prove_term.specs.OpenAxioms.{SaysUnequalFrom};

use crate::context::Cx;
use ml_image::{apart_fact, ctor_apart, ctor_free, inj_injective};
use ml_kernel::Thm;
use ml_pat::MPat;
use std::alloc::{AllocError, Global};
use term_core::{RulePat, SortId, SymId};

// Each public call states an axiom when it is first needed, and returns it with its variables
// numbered from k.
impl<'p> Cx<'p> {
    /// Proves that a constructor is total, for all arguments. The variables are numbered from `k`.
    /// `AllocError`: out of memory, or a number does not fit in 32 bits, or the constructor has
    /// 2^31 arguments or more. After an error the context may have grown.
    pub fn total_from(&mut self, alloc: Global, symbol: SymId, k: u32) -> Result<Thm, AllocError>
        requires signature { IsSignature self.old.program.sig }
        requires constructs { Constructs self.old.program.sig symbol.0 }
        ensures says { IfOk result (λ t. SaysTotalFrom self.new symbol.0 k t.conclusion) }
        ensures no_hypotheses { IfOk result (λ t. t.hypotheses ≡ []) }
        ensures stays { IfOk result (StaysIn self.new) }
        ensures grown { HasGrown self.old self.new }
    {
        let image = self.totality_image(alloc, symbol)?;
        self.stated_from(alloc, image, k)
    }

    /// Proves that a constructor is free, for all arguments: what two of its applications have in
    /// common is its application to what their arguments have in common. The variables are numbered
    /// from `k`. `AllocError`: out of memory, or a number does not fit in 32 bits, or the
    /// constructor has 2^31 arguments or more. After an error the context may have grown.
    pub fn free_from(&mut self, alloc: Global, symbol: SymId, k: u32) -> Result<Thm, AllocError>
        requires signature { IsSignature self.old.program.sig }
        requires free { IsFreeConstructor self.old.program.sig symbol.0 }
        ensures says { IfOk result (λ t. SaysFreeFrom self.new symbol.0 k t.conclusion) }
        ensures no_hypotheses { IfOk result (λ t. t.hypotheses ≡ []) }
        ensures stays { IfOk result (StaysIn self.new) }
        ensures grown { HasGrown self.old self.new }
    {
        let image = self.freedom_image(alloc, symbol)?;
        self.stated_from(alloc, image, k)
    }

    /// Proves that two constructors with the same result sort have nothing in common, for all
    /// arguments. The variables are numbered from `k`. `AllocError`: out of memory, or a number
    /// does not fit in 32 bits, or one of the constructors has 2^31 arguments or more. After an
    /// error the context may have grown.
    pub fn apart_from(
        &mut self,
        alloc: Global,
        first: SymId,
        second: SymId,
        k: u32,
    ) -> Result<Thm, AllocError>
        requires signature { IsSignature self.old.program.sig }
        requires apart { AreApartConstructors self.old.program.sig first.0 second.0 }
        ensures says { IfOk result (λ t. SaysApartFrom self.new first.0 second.0 k t.conclusion) }
        ensures no_hypotheses { IfOk result (λ t. t.hypotheses ≡ []) }
        ensures stays { IfOk result (StaysIn self.new) }
        ensures grown { HasGrown self.old self.new }
    {
        let image = self.difference_image(alloc, first, second)?;
        self.stated_from(alloc, image, k)
    }

    /// Proves that each injected element of a sort is one element of the sort directly above it.
    /// The variables are numbered from `k`. `AllocError`: out of memory, or a number does not fit
    /// in 32 bits. After an error the context may have grown.
    pub fn subsort_from(
        &mut self,
        alloc: Global,
        from: SortId,
        to: SortId,
        k: u32,
    ) -> Result<Thm, AllocError>
        requires { AllowsPair self.old.program.sig from.0 to.0 }
        ensures says { IfOk result (λ t. SaysSubsortFrom self.new from.0 to.0 k t.conclusion) }
        ensures no_hypotheses { IfOk result (λ t. t.hypotheses ≡ []) }
        ensures stays { IfOk result (StaysIn self.new) }
        ensures grown { HasGrown self.old self.new }
    {
        let image = self.subsort_image(alloc, from, to)?;
        self.stated_from(alloc, image, k)
    }

    /// Proves that an injection through a sort between is the direct injection. The variable has
    /// the number `k`. `AllocError`: out of memory. After an error the context may have grown.
    pub fn collapse_from(
        &mut self,
        alloc: Global,
        from: SortId,
        through: SortId,
        to: SortId,
        k: u32,
    ) -> Result<Thm, AllocError>
        requires below { IsBelow self.old.program.sig.subsorts from.0 through.0 }
        requires above { InjectsBelow self.old.program.sig through.0 to.0 }
        ensures says { IfOk result
            (λ t. SaysCollapseFrom self.new from.0 through.0 to.0 k t.conclusion) }
        ensures no_hypotheses { IfOk result (λ t. t.hypotheses ≡ []) }
        ensures stays { IfOk result (StaysIn self.new) }
        ensures grown { HasGrown self.old self.new }
    {
        let image = self.collapse_image(alloc, from, through, to)?;
        self.stated_from(alloc, image, k)
    }

    /// Proves that an injection into a supersort is injective. The variables are numbered from `k`.
    /// `AllocError`: out of memory, or a number does not fit in 32 bits. After an error the context
    /// may have grown.
    pub fn injective_from(
        &mut self,
        alloc: Global,
        from: SortId,
        to: SortId,
        k: u32,
    ) -> Result<Thm, AllocError>
        requires { InjectsBelow self.old.program.sig from.0 to.0 }
        ensures says { IfOk result (λ t. SaysInjectiveFrom self.new from.0 to.0 k t.conclusion) }
        ensures no_hypotheses { IfOk result (λ t. t.hypotheses ≡ []) }
        ensures stays { IfOk result (StaysIn self.new) }
        ensures grown { HasGrown self.old self.new }
    {
        let image = self.injectivity_image(alloc, from, to)?;
        self.stated_from(alloc, image, k)
    }

    /// Proves that two patterns without a common instance are not equal, for all values of their
    /// variables. These are numbered from `k`. `AllocError`: out of memory, or a number does not
    /// fit in 32 bits. After an error the context may have grown.
    pub fn unequal_from(
        &mut self,
        alloc: Global,
        left: &RulePat,
        right: &RulePat,
        k: u32,
    ) -> Result<Thm, AllocError>
        requires { HaveApartImages self.old.program.sig (plain_pattern left.now)
            (plain_pattern right.now) }
        ensures says { IfOk result (λ t. SaysUnequalFrom self.new (plain_pattern left.now)
            (plain_pattern right.now) k t.conclusion) }
        ensures no_hypotheses { IfOk result (λ t. t.hypotheses ≡ []) }
        ensures stays { IfOk result (StaysIn self.new) }
        ensures grown { HasGrown self.old self.new }
    {
        let image = self.unequal_image(alloc, left, right)?;
        self.stated_from(alloc, image, k)
    }

    // Returns the image of the sentence that a constructor is free.
    fn freedom_image(&mut self, alloc: Global, symbol: SymId) -> Result<MPat, AllocError>
        requires signature { IsSignature self.old.program.sig }
        requires free { IsFreeConstructor self.old.program.sig symbol.0 }
        ensures says { IfOk result (SaysFreeFrom self.new symbol.0 0) }
        ensures assumed { IfOk result
            (IsImageOf self.new.program.sig self.new.names
            (IsAssumed (theory_of self.new.program))) }
        ensures grown { HasGrown self.old self.new }
    {
        if self.count(symbol) >= 1 << 31 {
            return Err(AllocError);
        }
        ctor_free(alloc, &self.program.sig, &mut self.names, symbol)
    }

    // Returns the image of the sentence that two constructors have nothing in common.
    fn difference_image(
        &mut self,
        alloc: Global,
        first: SymId,
        second: SymId,
    ) -> Result<MPat, AllocError>
        requires signature { IsSignature self.old.program.sig }
        requires apart { AreApartConstructors self.old.program.sig first.0 second.0 }
        ensures says { IfOk result (SaysApartFrom self.new first.0 second.0 0) }
        ensures assumed { IfOk result
            (IsImageOf self.new.program.sig self.new.names
            (IsAssumed (theory_of self.new.program))) }
        ensures grown { HasGrown self.old self.new }
    {
        if self.count(first) >= 1 << 31 || self.count(second) >= 1 << 31 {
            return Err(AllocError);
        }
        ctor_apart(alloc, &self.program.sig, &mut self.names, first, second)
    }

    // Returns the image of the sentence that an injection is injective.
    fn injectivity_image(
        &mut self,
        alloc: Global,
        from: SortId,
        to: SortId,
    ) -> Result<MPat, AllocError>
        requires { InjectsBelow self.old.program.sig from.0 to.0 }
        ensures says { IfOk result (SaysInjectiveFrom self.new from.0 to.0 0) }
        ensures assumed { IfOk result
            (IsImageOf self.new.program.sig self.new.names
            (IsAssumed (theory_of self.new.program))) }
        ensures grown { HasGrown self.old self.new }
    {
        inj_injective(alloc, &self.program.sig, &mut self.names, from, to)
    }

    // Returns the image of the sentence that two patterns are not equal.
    fn unequal_image(
        &mut self,
        alloc: Global,
        left: &RulePat,
        right: &RulePat,
    ) -> Result<MPat, AllocError>
        requires { HaveApartImages self.old.program.sig (plain_pattern left.now)
            (plain_pattern right.now) }
        ensures says { IfOk result
            (IsImageOf self.new.program.sig self.new.names
            (SaysUnequal self.new.program.sig (plain_pattern left.now) (plain_pattern right.now))) }
        ensures grown { HasGrown self.old self.new }
    {
        apart_fact(alloc, &self.program.sig, &mut self.names, left, right)
    }
}
