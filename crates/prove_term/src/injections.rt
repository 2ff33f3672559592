// Injections: each maps an element of a sort to one element of a supersort, by a lemma that is made
// once.
ghost use Rattle.std.specs.Prelude.{◌≡◌, ◌∷◌, [], Contains, IfOk, IfSome};
ghost use Rattle.term_core.specs.RulePatterns.{sort_numbers};
ghost use Rattle.rule_core.specs.ProgramView.{theory_of};
ghost use Rattle.rule_core.specs.Subsorts.{IsBelow};
ghost use Rattle.rule_core.specs.SubsortPaths.{IsPath};
ghost use Rattle.ml_image.specs.HasImages.{CanInject};
ghost use Rattle.ml_image.specs.Sentences.{IsImageOf};
ghost use Rattle.prove_term.specs.Contexts.{HasGrown, IsLemmaIn, StaysIn};
ghost use Rattle.ml_image.specs.Assumed.{IsAssumed};
ghost use Rattle.prove_term.specs.InjectionTables.{InjectsBelow, AllowsPair};
ghost use Rattle.prove_term.specs.Injections.{IsInjectionAt, IsInjected, IsCollapseAt};
ghost use Rattle.prove_term.specs.Injections.{SaysInjecting, SaysCollapsing};

use crate::context::Cx;
use crate::joining::{collapsed, injected, joined};
use ml_image::{inj_collapse, inj_total};
use ml_kernel::Thm;
use ml_pat::MPat;
use std::alloc::{AllocError, Global};
use term_core::SortId;

impl<'p> Cx<'p> {
    // Returns the place of the lemma of an injection into a supersort.
    pub(crate) fn injection(
        &mut self,
        alloc: Global,
        from: SortId,
        to: SortId,
    ) -> Result<usize, AllocError>
        requires { InjectsBelow self.old.program.sig from.0 to.0 }
        ensures lemma { IfOk result (IsInjectionAt self.new from.0 to.0) }
        ensures grown { HasGrown self.old self.new }
    {
        if let Some(place) = self.known_injection(from, to) {
            return Ok(place);
        }
        match self.program().sig.subsorts.path(alloc, from, to)? {
            Some(sorts) => self.injection_along(alloc, from, to, &sorts),
            None => unreachable!(),
        }
    }

    // `injection` along a chain of declared pairs.
    fn injection_along(
        &mut self,
        alloc: Global,
        from: SortId,
        to: SortId,
        sorts: &[SortId],
    ) -> Result<usize, AllocError>
        requires injects { InjectsBelow self.old.program.sig from.0 to.0 }
        requires path { IsPath self.old.program.sig.subsorts from.0 to.0 (sort_numbers sorts.now) }
        ensures lemma { IfOk result (IsInjectionAt self.new from.0 to.0) }
        ensures grown { HasGrown self.old self.new }
    {
        let mut place = self.direct(alloc, from, sorts[1])?;
        for i in 2..sorts.len() {
            place = self.further(alloc, from, sorts[i - 1], sorts[i], place)?;
        }
        Ok(place)
    }

    // Returns the place of the lemma of an injection for a declared pair of sorts.
    fn direct(&mut self, alloc: Global, from: SortId, to: SortId) -> Result<usize, AllocError>
        requires { AllowsPair self.old.program.sig from.0 to.0 }
        ensures lemma { IfOk result (IsInjectionAt self.new from.0 to.0) }
        ensures grown { HasGrown self.old self.new }
    {
        if let Some(place) = self.known_injection(from, to) {
            return Ok(place);
        }
        let total = self.subsort(alloc, from, to)?;
        let lemma = injected(alloc, &total)?;
        self.add_injection(alloc, from, to, lemma)
    }

    // Returns the place of the lemma of an injection that goes one declared pair further than
    // another injection. `lower` is the place of the other's lemma.
    fn further(
        &mut self,
        alloc: Global,
        from: SortId,
        through: SortId,
        to: SortId,
        lower: usize,
    ) -> Result<usize, AllocError>
        requires below { IsBelow self.old.program.sig.subsorts from.0 through.0 }
        requires pair { AllowsPair self.old.program.sig through.0 to.0 }
        requires lower { IsInjectionAt self.old from.0 through.0 lower }
        ensures lemma { IfOk result (IsInjectionAt self.new from.0 to.0) }
        ensures grown { HasGrown self.old self.new }
    {
        if let Some(place) = self.known_injection(from, to) {
            return Ok(place);
        }
        let upper = self.direct(alloc, through, to)?;
        let collapse = self.collapse(alloc, from, through, to)?;
        let lemmas = self.lemmas();
        let lemma = joined(alloc, &lemmas[collapse], &lemmas[lower], &lemmas[upper])?;
        self.add_injection(alloc, from, to, lemma)
    }

    // Keeps a lemma as that of an injection, and returns its place.
    fn add_injection(
        &mut self,
        alloc: Global,
        from: SortId,
        to: SortId,
        lemma: Thm,
    ) -> Result<usize, AllocError>
        requires stays { IsLemmaIn self.old lemma }
        requires is { IsInjected self.old from.0 to.0 lemma }
        ensures lemma { IfOk result (IsInjectionAt self.new from.0 to.0) }
        ensures grown { HasGrown self.old self.new }
    {
        let place = self.lemmas().len();
        self.add_lemma(alloc, lemma)?;
        self.keep_injection(from, to, place)?;
        Ok(place)
    }

    // Returns the place of the lemma of an injection, if there is one.
    fn known_injection(&self, from: SortId, to: SortId) -> Option<usize>
        ensures { IfSome result (IsInjectionAt self.now from.0 to.0) }
    {
        self.injections.get(&(from.0, to.0)).copied()
    }

    // Keeps the place of the lemma of an injection.
    fn keep_injection(&mut self, from: SortId, to: SortId, place: usize) -> Result<(), AllocError>
        requires { IsInjectionAt self.old from.0 to.0 place }
        ensures { self.new ≡ self.old }
    {
        self.injections.insert((from.0, to.0), place)?;
        Ok(())
    }

    // Proves that each injected element of a sort is one element of the sort directly above it.
    fn subsort(&mut self, alloc: Global, from: SortId, to: SortId) -> Result<Thm, AllocError>
        requires { AllowsPair self.old.program.sig from.0 to.0 }
        ensures says { IfOk result (λ t. SaysInjecting self.new from.0 to.0 t.conclusion) }
        ensures no_hypotheses { IfOk result (λ t. t.hypotheses ≡ []) }
        ensures stays { IfOk result (StaysIn self.new) }
        ensures grown { HasGrown self.old self.new }
    {
        let image = self.subsort_image(alloc, from, to)?;
        let no = self.state_once(image)?;
        self.axiom(alloc, no)
    }

    // Returns the image of that sentence.
    pub(crate) fn subsort_image(
        &mut self,
        alloc: Global,
        from: SortId,
        to: SortId,
    ) -> Result<MPat, AllocError>
        requires { AllowsPair self.old.program.sig from.0 to.0 }
        ensures says { IfOk result (SaysInjecting self.new from.0 to.0) }
        ensures assumed { IfOk result
            (IsImageOf self.new.program.sig self.new.names
            (IsAssumed (theory_of self.new.program))) }
        ensures grown { HasGrown self.old self.new }
    {
        inj_total(alloc, &self.program.sig, &mut self.names, from, to)
    }

    // Returns the place of the lemma that an injection through a sort between is the direct
    // injection.
    pub(crate) fn collapse(
        &mut self,
        alloc: Global,
        from: SortId,
        through: SortId,
        to: SortId,
    ) -> Result<usize, AllocError>
        requires below { IsBelow self.old.program.sig.subsorts from.0 through.0 }
        requires above { InjectsBelow self.old.program.sig through.0 to.0 }
        ensures lemma { IfOk result (IsCollapseAt self.new from.0 through.0 to.0) }
        ensures grown { HasGrown self.old self.new }
    {
        if let Some(place) = self.known_collapse(from, through, to) {
            return Ok(place);
        }
        let stated = self.collapse_axiom(alloc, from, through, to)?;
        let lemma = collapsed(alloc, &stated)?;
        let place = self.lemmas().len();
        self.add_lemma(alloc, lemma)?;
        self.keep_collapse(from, through, to, place)?;
        Ok(place)
    }

    // Returns the place of that lemma, if there is one.
    fn known_collapse(&self, from: SortId, through: SortId, to: SortId) -> Option<usize>
        ensures { IfSome result (IsCollapseAt self.now from.0 through.0 to.0) }
    {
        self.collapses.get(&(from.0, through.0, to.0)).copied()
    }

    // Keeps the place of that lemma.
    fn keep_collapse(
        &mut self,
        from: SortId,
        through: SortId,
        to: SortId,
        place: usize,
    ) -> Result<(), AllocError>
        requires { IsCollapseAt self.old from.0 through.0 to.0 place }
        ensures { self.new ≡ self.old }
    {
        self.collapses.insert((from.0, through.0, to.0), place)?;
        Ok(())
    }

    // Proves that an injection through a sort between is the direct injection.
    fn collapse_axiom(
        &mut self,
        alloc: Global,
        from: SortId,
        through: SortId,
        to: SortId,
    ) -> Result<Thm, AllocError>
        requires below { IsBelow self.old.program.sig.subsorts from.0 through.0 }
        requires above { InjectsBelow self.old.program.sig through.0 to.0 }
        ensures says { IfOk result
            (λ t. SaysCollapsing self.new from.0 through.0 to.0 t.conclusion) }
        ensures no_hypotheses { IfOk result (λ t. t.hypotheses ≡ []) }
        ensures stays { IfOk result (StaysIn self.new) }
        ensures grown { HasGrown self.old self.new }
    {
        let image = self.collapse_image(alloc, from, through, to)?;
        let no = self.state_once(image)?;
        self.axiom(alloc, no)
    }

    // Returns the image of that sentence.
    pub(crate) fn collapse_image(
        &mut self,
        alloc: Global,
        from: SortId,
        through: SortId,
        to: SortId,
    ) -> Result<MPat, AllocError>
        requires below { IsBelow self.old.program.sig.subsorts from.0 through.0 }
        requires above { InjectsBelow self.old.program.sig through.0 to.0 }
        ensures says { IfOk result (SaysCollapsing self.new from.0 through.0 to.0) }
        ensures assumed { IfOk result
            (IsImageOf self.new.program.sig self.new.names
            (IsAssumed (theory_of self.new.program))) }
        ensures grown { HasGrown self.old self.new }
    {
        inj_collapse(alloc, &self.program.sig, &mut self.names, from, through, to)
    }
}
