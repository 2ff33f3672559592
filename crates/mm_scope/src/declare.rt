// Judging and adding statements, one after another.

ghost use Rattle.std.specs.Prelude.{◌≡◌, ℕ, List, IfOk, option_map, Some};
ghost use Rattle.mm_text.specs.Reader.{words_of, statement_of};
ghost use Rattle.mm_scope.specs.ScopeState.{scope_state};
ghost use Rattle.mm_scope.specs.StateFaults.{Judges};
ghost use Rattle.mm_scope.specs.StateSteps.{AddsConstants, VariableStep, AddsVariable};
ghost use Rattle.mm_scope.specs.StateSteps.{AddsVariables};
ghost use Rattle.mm_database.specs.Database.{Context};
ghost use Rattle.mm_scope.specs.Standing.{Stands};
ghost use Rattle.mm_scope.specs.TakesStatement.{TakesStatement, KeepsFrames};
ghost use Rattle.mm_database.specs.Forms.{form_of};
ghost use Rattle.mm_scope.specs.FormsRead.{form_read};
ghost use Rattle.mm_scope.specs.AddedView.{form_added};
ghost use Rattle.mm_scope.specs.Judging.{said_by, judged_plain, judged_form, Follows, OrFault};
ghost use Rattle.mm_scope.specs.Ending.{end_at};

use crate::forms::{Form, Keyword, Plain, read_form};
use crate::judge::{Refusal, Stated};
use crate::scopes::Scopes;
use mm_frame::{Expression, Hyp, Name};
use mm_text::{MmFault, MmToken};
use std::alloc::{AllocError, Global};

/// What a statement added.
#[derive(Clone, Copy, PartialEq, Eq)]
pub enum Added {
    /// A block was opened or closed.
    Block,
    /// Constants or variables.
    Symbols,
    /// A `$f` or `$e`.
    Hypothesis,
    /// A `$d`.
    Disjoint,
    /// A `$a` or `$p`.
    Assertion,
}

/// Why a statement is not added.
#[derive(Clone, Copy, PartialEq, Eq)]
pub enum FrameEnd {
    /// Its first fault, of kinds 3 to 11.
    Fault(MmFault),
    /// Out of memory. The scopes may then hold a part of the statement, and must be dropped.
    Memory,
}

/// What a faultless statement says.
#[derive(Drop)]
pub(crate) enum Said<'a, 't> {
    Opens,
    Closes,
    Constants(&'t [MmToken]),
    Variables(&'t [MmToken]),
    Hypothesis(Hyp<'a>),
    Disjoint(Vec<u32>),
    Assertion(Stated<'a>),
}

impl<'a> Scopes<'a> {
    /// Adds one statement, whose tokens are in `bytes`, if it has no fault of kinds 3 to 11.
    /// Otherwise returns the first of these faults, with the byte of the statement's first token,
    /// and changes nothing. Of a proof it looks only at the tokens that contain a `$`. Returns
    /// `FrameEnd::Memory` when out of memory.
    ///
    /// It takes the time to read the tokens and to look up each of them once or twice among the
    /// names. For the frame of an assertion it also takes the time to sort what the frame has, and
    /// to go through the active `$d` that contain one of its variables.
    pub fn statement(
        &mut self,
        alloc: Global,
        bytes: &'a [u8],
        tokens: &[MmToken],
    ) -> Result<Added, FrameEnd>
        ensures takes { (c : Context) → Stands (scope_state self.old) c
            → TakesStatement c (statement_of bytes.now tokens.now) (scope_state self.old)
            (scope_state self.new) result }
        ensures frames { IfOk result
            (λ _. KeepsFrames (scope_state self.old) (scope_state self.new)) }
        ensures added { IfOk result
            (λ a. option_map form_added (form_of (statement_of bytes.now tokens.now).tokens)
            ≡ Some a) }
    {
        let at = first_byte(tokens);
        let Some(form) = read_form(bytes, tokens) else {
            return Err(FrameEnd::Fault(MmFault { kind: 3, at }));
        };
        let said = match self.judge(alloc, bytes, &form) {
            Err(refusal) => return Err(end_at(refusal, at)),
            Ok(said) => said,
        };
        let added = added_by(&form);
        match self.add(alloc, bytes, at, said) {
            Err(AllocError) => Err(FrameEnd::Memory),
            Ok(()) => Ok(added),
        }
    }

    /// What the statement says, or why it is refused.
    pub(crate) fn judge<'t>(
        &self,
        alloc: Global,
        bytes: &'a [u8],
        form: &Form<'t>,
    ) -> Result<Said<'a, 't>, Refusal>
        ensures { Judges (said_by bytes.now) result
            (judged_form (scope_state self.now) bytes.now form.now) }
    {
        match form {
            Form::BlockStart => Ok(Said::Opens),
            Form::BlockEnd => {
                if self.blocks.is_empty() {
                    Err(Refusal::Fault(10))
                } else {
                    Ok(Said::Closes)
                }
            }
            Form::Plain(plain) => self.judge_plain(alloc, bytes, plain),
        }
    }

    fn judge_plain<'t>(
        &self,
        alloc: Global,
        bytes: &'a [u8],
        plain: &Plain<'t>,
    ) -> Result<Said<'a, 't>, Refusal>
        ensures { Judges (said_by bytes.now) result
            (judged_plain (scope_state self.now) plain.now.keyword
            (words_of bytes.now plain.now.labels.now)
            (words_of bytes.now plain.now.symbols.now)) }
    {
        let labels = plain.labels;
        let symbols = plain.symbols;
        match plain.keyword {
            Keyword::Constants => match self.constants_fault(alloc, bytes, labels, symbols) {
                Err(_) => Err(Refusal::Memory),
                Ok(fault) => or_fault(fault, Said::Constants(symbols)),
            },
            Keyword::Variables => match self.variables_fault(alloc, bytes, labels, symbols) {
                Err(_) => Err(Refusal::Memory),
                Ok(fault) => or_fault(fault, Said::Variables(symbols)),
            },
            Keyword::Floating => match self.floating(bytes, labels, symbols) {
                Err(refusal) => Err(refusal),
                Ok(hyp) => Ok(Said::Hypothesis(hyp)),
            },
            Keyword::Essential => match self.stated(alloc, bytes, labels, symbols) {
                Err(refusal) => Err(refusal),
                Ok(stated) => match Expression::shared(alloc, stated.statement) {
                    Err(_) => Err(Refusal::Memory),
                    Ok(statement) => Ok(Said::Hypothesis(Hyp::Essential(stated.label, statement))),
                },
            },
            Keyword::Disjoint => match self.separated(alloc, bytes, labels, symbols) {
                Err(refusal) => Err(refusal),
                Ok(variables) => Ok(Said::Disjoint(variables)),
            },
            Keyword::Axiom | Keyword::Theorem => match self.stated(alloc, bytes, labels, symbols) {
                Err(refusal) => Err(refusal),
                Ok(stated) => Ok(Said::Assertion(stated)),
            },
        }
    }

    /// Adds what a statement says.
    pub(crate) fn add<'t>(
        &mut self,
        alloc: Global,
        bytes: &'a [u8],
        at: usize,
        said: Said<'a, 't>,
    ) -> Result<(), AllocError>
        ensures { IfOk result (λ _. Follows (scope_state self.old) at (said_by bytes.now said.entry)
            (scope_state self.new)) }
    {
        match said {
            Said::Opens => self.open_block(alloc, at),
            Said::Closes => {
                self.close_block();
                Ok(())
            }
            Said::Constants(tokens) => self.add_constants(bytes, tokens),
            Said::Variables(tokens) => self.add_variables(bytes, tokens),
            Said::Hypothesis(hyp) => self.add_hypothesis(alloc, hyp),
            Said::Disjoint(variables) => self.add_disjoint(alloc, variables),
            Said::Assertion(stated) => {
                let frame = self.frame(alloc, stated)?;
                self.add_assertion(alloc, frame)
            }
        }
    }

    fn add_constants(&mut self, bytes: &'a [u8], tokens: &[MmToken]) -> Result<(), AllocError>
        ensures { IfOk result (λ _. AddsConstants (scope_state self.old)
            (words_of bytes.now tokens.now) (scope_state self.new)) }
    {
        for token in tokens {
            self.add_symbol(token.word(bytes), false)?;
        }
        Ok(())
    }

    fn add_variables(&mut self, bytes: &'a [u8], tokens: &[MmToken]) -> Result<(), AllocError>
        ensures { IfOk result (λ _. AddsVariables (scope_state self.old)
            (words_of bytes.now tokens.now) (scope_state self.new)) }
    {
        for token in tokens {
            self.add_variable(token.word(bytes))?;
        }
        Ok(())
    }

    fn add_variable(&mut self, word: &'a [u8]) -> Result<(), AllocError>
        ensures { IfOk result
            (λ _. AddsVariable (scope_state self.old) word.now (scope_state self.new)) }
    {
        let name = self.name(word);
        self.add_named(word, name)
    }

    fn add_named(&mut self, word: &'a [u8], name: Option<Name>) -> Result<(), AllocError>
        ensures { IfOk result
            (λ _. VariableStep (scope_state self.old) word.now name (scope_state self.new)) }
    {
        let Some(name) = name else {
            let n = self.add_symbol(word, true)?;
            self.activate(n)?;
            return Ok(());
        };
        match name {
            Name::Variable(n) => self.activate(n)?,
            Name::Constant(_) | Name::Hypothesis(_) | Name::Assertion(_) => {}
        }
        Ok(())
    }
}

/// What a statement of this form adds.
fn added_by(form: &Form<'_>) -> Added
    ensures { (bytes : List ℕ) → result ≡ form_added (form_read bytes form.now) }
{
    match form {
        Form::BlockStart | Form::BlockEnd => Added::Block,
        Form::Plain(plain) => match plain.keyword {
            Keyword::Constants | Keyword::Variables => Added::Symbols,
            Keyword::Floating | Keyword::Essential => Added::Hypothesis,
            Keyword::Disjoint => Added::Disjoint,
            Keyword::Axiom | Keyword::Theorem => Added::Assertion,
        },
    }
}

/// The end at the statement with this first byte.
pub(crate) fn end_at(refusal: Refusal, at: usize) -> FrameEnd
    ensures { result ≡ end_at refusal at }
{
    match refusal {
        Refusal::Fault(kind) => FrameEnd::Fault(MmFault { kind, at }),
        Refusal::Memory => FrameEnd::Memory,
    }
}

/// The byte of a statement's first token.
pub(crate) fn first_byte(tokens: &[MmToken]) -> usize
    ensures { (bytes : List ℕ) → result ≡ (statement_of bytes tokens.now).at }
{
    match tokens.first() {
        None => 0,
        Some(token) => token.from,
    }
}

/// The fault, or what is said if there is no fault.
fn or_fault<'a, 't>(fault: Option<u8>, said: Said<'a, 't>) -> Result<Said<'a, 't>, Refusal>
    ensures { OrFault fault said.entry result }
{
    match fault {
        None => Ok(said),
        Some(kind) => Err(Refusal::Fault(kind)),
    }
}
