// The writer.
ghost use Rattle.std.specs.Prelude.{◌≡◌, ◌<◌, ◌+◌, IfOk, OnOk, length};
ghost use Rattle.mm_justify.specs.Counting.{capped};
ghost use Rattle.mm_justify.specs.FactForms.{equates_variables, is_apart_form, is_fact_form};
ghost use Rattle.mm_justify.specs.FactForms.{is_variable};
ghost use Rattle.mm_claims.specs.ClaimVariables.{claim_of};
ghost use Rattle.mm_claims.specs.Keeping.{with_last, with_stated};
ghost use Rattle.mm_claims.specs.Rendered.{all_stated};
ghost use Rattle.prove_term.specs.Contexts.{IsContext, new_context};
ghost use Rattle.proof_writer.specs.PlainNames.{HasPlainNames};
ghost use Rattle.mm_claims.specs.Places.{IsStated, MayProve, StatesLemma};
ghost use Rattle.proof_writer.specs.Writing.{Adds, Begins, Concludes, HasWritten, HasWrittenAll};
ghost use Rattle.proof_writer.specs.Writing.{Keeps, MayFollow};
ghost use Rattle.proof_writer.specs.Writing.{context_of};
ghost use Rattle.proof_writer.specs.StatedTheorems.{KeepsAssertions, StatesNewLemmas};
ghost use Rattle.proof_writer.specs.WritingOn.{StatesLemmaAt, StatesTheorem, WritesOn};

use ml_kernel::{AxiomNo, Theory, Thm};
use ml_pat::{MForm, MPat, Names};
use mm_claims::{fitting_laws, later_laws};
use mm_justify::{counting_laws, image_laws, justifying_laws};
use mm_render::Renderer;
use rule_core::Program;
use std::alloc::{AllocError, Global};

// How many statements the header has.
const HEADER_STATEMENTS: u64 = 88;

/// What was made for the proof of a run: a program, and the names, the axioms and the lemmas.
#[derive(Clone, Copy)]
pub struct ProofParts<'a> {
    /// The program.
    pub program: &'a Program,
    /// The names of its sorts, symbols and values.
    pub names: &'a Names,
    /// The axioms.
    pub theory: &'a Theory,
    /// The lemmas, each after those that it cites.
    pub lemmas: &'a [Thm],
}

/// How much of what was made is written: what the renderer keeps of the text, how many axioms and
/// lemmas were stated, and the counts of the text.
#[derive(Drop)]
pub struct Writer {
    /// What the renderer keeps of the text.
    pub renderer: Renderer,
    /// How many axioms were stated.
    pub axioms: u64,
    /// How many lemmas were stated.
    pub lemmas: u64,
    /// How many statements the text has, or 2^64 - 1 if it has more.
    pub statements: u64,
    /// How many of the statements are facts on built-ins, or 2^64 - 1 if there are more.
    pub facts: u64,
}

impl Writer {
    /// Makes a writer, and appends the header to the buffer. The error: out of memory. Then a part
    /// of the header was appended.
    pub fn begin(alloc: Global, program: &Program, to: &mut Vec<u8>) -> Result<Writer, AllocError>
        ensures written { IfOk result (λ w. HasWrittenAll w (new_context program.now)) }
        ensures text { IfOk result
            (λ w. Begins (new_context program.now) w to.old.items to.new.items) }
    {
        justifying_laws();
        counting_laws();
        let mut renderer = Renderer::new(alloc);
        renderer.begin(to)?;
        Ok(Writer {
            renderer,
            axioms: 0,
            lemmas: 0,
            statements: HEADER_STATEMENTS,
            facts: 0,
        })
    }

    /// Appends what is not written yet: declarations of names, axioms and lemmas. The error: out of
    /// memory. Then a part of that was appended.
    pub fn write(&mut self, made: &ProofParts<'_>, to: &mut Vec<u8>) -> Result<(), AllocError>
        requires names { HasPlainNames made.now.program.now.sig }
        requires context { IsContext (context_of made.now) }
        requires written { HasWritten self.old (context_of made.now) }
        ensures all { OnOk result (HasWrittenAll self.new (context_of made.now)) }
        ensures keeps { OnOk result (Keeps self.old.renderer self.new.renderer) }
        ensures text { OnOk result
            (Adds (context_of made.now) self.old self.new to.old.items to.new.items) }
        ensures theorems { OnOk result
            (StatesNewLemmas (context_of made.now) self.old to.old.items to.new.items) }
    {
        self.declare(made, to)?;
        self.write_axioms(made, to)?;
        self.write_lemmas(made, to)
    }

    // Declares the new names.
    fn declare(&mut self, made: &ProofParts<'_>, to: &mut Vec<u8>) -> Result<(), AllocError>
        requires names { HasPlainNames made.now.program.now.sig }
        requires context { IsContext (context_of made.now) }
        requires written { HasWritten self.old (context_of made.now) }
        ensures writes { OnOk result
            (WritesOn (context_of made.now) self.old self.new to.old.items to.new.items) }
        ensures lemmas { OnOk result (self.new.lemmas ≡ self.old.lemmas) }
    {
        justifying_laws();
        counting_laws();
        made.names.tokens_differ();
        let count = made.names.count();
        let before = self.renderer.declared();
        self.renderer.declare(made.names, to)?;
        self.statements = self.statements.saturating_add(count - before);
        Ok(())
    }

    // States the new axioms.
    fn write_axioms(&mut self, made: &ProofParts<'_>, to: &mut Vec<u8>) -> Result<(), AllocError>
        requires context { IsContext (context_of made.now) }
        requires written { HasWritten self.old (context_of made.now) }
        requires named { self.old.renderer.named ≡ length made.now.names.now }
        ensures writes { OnOk result
            (WritesOn (context_of made.now) self.old self.new to.old.items to.new.items) }
        ensures all { OnOk result (self.new.axioms ≡ length made.now.theory.now) }
        ensures lemmas { OnOk result (self.new.lemmas ≡ self.old.lemmas) }
    {
        for no in self.axioms..made.theory.len() {
            self.axiom(made, no, to)?;
        }
        Ok(())
    }

    // States the next axiom.
    fn axiom(&mut self, made: &ProofParts<'_>, no: u64, to: &mut Vec<u8>) -> Result<(), AllocError>
        requires context { IsContext (context_of made.now) }
        requires there { no < length made.now.theory.now }
        requires next { self.old.axioms ≡ no }
        requires written { HasWritten self.old (context_of made.now) }
        requires named { self.old.renderer.named ≡ length made.now.names.now }
        ensures writes { OnOk result
            (WritesOn (context_of made.now) self.old self.new to.old.items to.new.items) }
        ensures one { OnOk result (self.new.axioms ≡ no + 1) }
        ensures lemmas { OnOk result (self.new.lemmas ≡ self.old.lemmas) }
    {
        image_laws();
        justifying_laws();
        counting_laws();
        later_laws();
        // The contract of `len` says that there are fewer than 2^64 axioms.
        let _count = made.theory.len();
        self.renderer
            .axiom(made.names, made.theory, AxiomNo(no), to)?;
        self.axioms = no + 1;
        self.statements = self.statements.saturating_add(1);
        let fact = is_fact(made.theory.at(AxiomNo(no)));
        self.facts = self.facts.saturating_add(u64::from(fact));
        Ok(())
    }

    // States the new lemmas.
    fn write_lemmas(&mut self, made: &ProofParts<'_>, to: &mut Vec<u8>) -> Result<(), AllocError>
        requires context { IsContext (context_of made.now) }
        requires written { HasWritten self.old (context_of made.now) }
        requires named { self.old.renderer.named ≡ length made.now.names.now }
        requires axioms { self.old.axioms ≡ length made.now.theory.now }
        ensures writes { OnOk result
            (WritesOn (context_of made.now) self.old self.new to.old.items to.new.items) }
        ensures all { OnOk result (HasWrittenAll self.new (context_of made.now)) }
        ensures theorems { OnOk result
            (StatesNewLemmas (context_of made.now) self.old to.old.items to.new.items) }
    {
        for place in self.lemmas..made.lemmas.len() as u64 {
            self.lemma(made, place, to)?;
        }
        Ok(())
    }

    // States the next lemma.
    fn lemma(
        &mut self,
        made: &ProofParts<'_>,
        place: u64,
        to: &mut Vec<u8>,
    ) -> Result<(), AllocError>
        requires context { IsContext (context_of made.now) }
        requires there { place < length made.now.lemmas.now }
        requires next { self.old.lemmas ≡ place }
        requires written { HasWritten self.old (context_of made.now) }
        requires named { self.old.renderer.named ≡ length made.now.names.now }
        requires axioms { self.old.axioms ≡ length made.now.theory.now }
        ensures writes { OnOk result
            (WritesOn (context_of made.now) self.old self.new to.old.items to.new.items) }
        ensures axioms { OnOk result (self.new.axioms ≡ length made.now.theory.now) }
        ensures one { OnOk result (self.new.lemmas ≡ place + 1) }
        ensures states { OnOk result
            (StatesLemmaAt place (context_of made.now) self.old to.old.items to.new.items) }
        ensures assertions { OnOk result
            (KeepsAssertions (context_of made.now) self.old to.old.items to.new.items) }
    {
        image_laws();
        later_laws();
        self.state(made, &made.lemmas[place as usize], to)?;
        self.lemmas = place + 1;
        Ok(())
    }

    /// Appends a theorem that follows from what is written. It may be cited until the next theorem
    /// is appended. The error: out of memory. Then a part of the theorem was appended.
    pub fn theorem(
        &mut self,
        made: &ProofParts<'_>,
        thm: &Thm,
        to: &mut Vec<u8>,
    ) -> Result<(), AllocError>
        requires names { HasPlainNames made.now.program.now.sig }
        requires context { IsContext (context_of made.now) }
        requires all { HasWrittenAll self.old (context_of made.now) }
        requires follows { MayFollow (context_of made.now) self.old.renderer thm.now }
        ensures all { OnOk result (HasWrittenAll self.new (context_of made.now)) }
        ensures stated { OnOk result
            (IsStated (all_stated self.new.renderer) thm.now.hypotheses thm.now.conclusion) }
        ensures text { OnOk result
            (Adds (context_of made.now) self.old self.new to.old.items to.new.items) }
        ensures concludes { OnOk result
            (Concludes (context_of made.now) self.old thm.now to.old.items to.new.items) }
        ensures assertions { OnOk result
            (KeepsAssertions (context_of made.now) self.old to.old.items to.new.items) }
    {
        justifying_laws();
        image_laws();
        fitting_laws();
        later_laws();
        made.names.tokens_differ();
        self.state_last(made, thm, to)
    }

    // States a theorem that may be proved.
    fn state(
        &mut self,
        made: &ProofParts<'_>,
        thm: &Thm,
        to: &mut Vec<u8>,
    ) -> Result<(), AllocError>
        requires named { self.old.renderer.named ≡ length made.now.names.now }
        requires proved { MayProve made.now.names.now self.old.renderer thm.now }
        ensures kept { OnOk result (self.new ≡ record self.old {
          renderer = with_stated self.old.renderer (claim_of thm.now.hypotheses thm.now.conclusion);
          statements = capped (self.old.statements + 1);
        }) }
        ensures keeps { OnOk result (Keeps self.old.renderer self.new.renderer) }
        ensures text { OnOk result
            (Adds (context_of made.now) self.old self.new to.old.items to.new.items) }
        ensures states { OnOk result
            (StatesTheorem (context_of made.now) self.old thm.now to.old.items to.new.items) }
        ensures assertions { OnOk result
            (KeepsAssertions (context_of made.now) self.old to.old.items to.new.items) }
    {
        justifying_laws();
        counting_laws();
        later_laws();
        self.renderer.lemma(made.names, thm, to)?;
        self.statements = self.statements.saturating_add(1);
        Ok(())
    }

    // States a theorem that may be proved as the new last theorem of the run.
    fn state_last(
        &mut self,
        made: &ProofParts<'_>,
        thm: &Thm,
        to: &mut Vec<u8>,
    ) -> Result<(), AllocError>
        requires named { self.old.renderer.named ≡ length made.now.names.now }
        requires proved { MayProve made.now.names.now self.old.renderer thm.now }
        ensures states { OnOk result
            (StatesLemma made.now.names.now self.old.renderer self.new.renderer thm.now
            to.old.items to.new.items) }
        ensures kept { OnOk result (self.new ≡ record self.old {
          renderer = with_last self.old.renderer (claim_of thm.now.hypotheses thm.now.conclusion);
          statements = capped (self.old.statements + 1);
        }) }
        ensures text { OnOk result
            (Adds (context_of made.now) self.old self.new to.old.items to.new.items) }
        ensures assertions { OnOk result
            (KeepsAssertions (context_of made.now) self.old to.old.items to.new.items) }
    {
        justifying_laws();
        counting_laws();
        self.renderer.theorem(made.names, thm, to)?;
        self.statements = self.statements.saturating_add(1);
        Ok(())
    }
}

// Returns whether a pattern is counted as a fact: it says that a pattern is an element of a sort,
// that two patterns are equal or are not, or that an injection is injective.
fn is_fact(pattern: &MPat) -> bool
    ensures { result ≡ is_fact_form pattern.now }
{
    matches!(pattern.form(), MForm::Equal(..) | MForm::Fun(..)) || is_apart(pattern)
}

// Returns whether a pattern says for all variables that two patterns are not equal, or that an
// injection is injective.
fn is_apart(pattern: &MPat) -> bool
    ensures { result ≡ is_apart_form pattern.now }
{
    let mut rest = pattern;
    while let MForm::All(_, _, below) = rest.form() {
        rest = below;
    }
    match rest.form() {
        MForm::Not(below) => matches!(below.form(), MForm::Equal(..)),
        MForm::Imp(given, then) => {
            matches!(given.form(), MForm::Equal(..)) && equates_variables(then)
        }
        _ => false,
    }
}

// Returns whether a pattern says that two variables are equal.
fn equates_variables(pattern: &MPat) -> bool
    ensures { result ≡ equates_variables pattern.now }
{
    match pattern.form() {
        MForm::Equal(one, other) => is_variable(one) && is_variable(other),
        _ => false,
    }
}

// Returns whether a pattern is an object variable.
fn is_variable(pattern: &MPat) -> bool
    ensures { result ≡ is_variable pattern.now }
{
    matches!(pattern.form(), MForm::Var(..))
}
