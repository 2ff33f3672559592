// Adding what a faultless statement declares.

ghost use Rattle.std.specs.Prelude.{◌≡◌, Some, IfOk};
ghost use Rattle.mm_scope.specs.ScopeState.{scope_state, symbol_name};
ghost use Rattle.mm_frame.specs.PlainFrames.{plain_hypothesis, plain_frame};
ghost use Rattle.mm_scope.specs.StateSteps.{AppendsSymbol, Names, AddsSymbol, Activates};
ghost use Rattle.mm_scope.specs.StateSteps.{AddsHypothesis};
ghost use Rattle.mm_scope.specs.StateSteps.{AddsDisjoint, AddsAssertion, OpensBlock, ClosesBlock};
ghost use Rattle.mm_scope.specs.StateSteps.{types_with};

use crate::scopes::{OpenBlock, Scopes, Symbol};
use mm_frame::{Frame, Hyp, Name};
use std::alloc::{AllocError, Global};

impl<'a> Scopes<'a> {
    /// Gives a token a number and its name.
    pub(crate) fn add_symbol(
        &mut self,
        word: &'a [u8],
        is_variable: bool,
    ) -> Result<u32, AllocError>
        ensures { IfOk result
            (λ n. AddsSymbol (scope_state self.old) word.now is_variable n (scope_state self.new)) }
    {
        let Ok(n) = u32::try_from(self.symbols.len()) else {
            return Err(AllocError);
        };
        self.push_symbol(word, is_variable)?;
        self.rename(word, symbol_name(is_variable, n))?;
        Ok(n)
    }

    /// Appends a symbol.
    fn push_symbol(&mut self, word: &'a [u8], is_variable: bool) -> Result<(), AllocError>
        ensures { IfOk result (λ _.
            AppendsSymbol (scope_state self.old) word.now is_variable (scope_state self.new)) }
    {
        self.places.push(0)?;
        self.types.push(0)?;
        self.symbols.push(Symbol {
            token: word,
            is_variable,
        })?;
        Ok(())
    }

    /// Gives a token a name.
    fn rename(&mut self, word: &'a [u8], name: Name) -> Result<(), AllocError>
        ensures { IfOk result
            (λ _. Names (scope_state self.old) word.now name (scope_state self.new)) }
    {
        self.names.insert(word, name)?;
        Ok(())
    }

    /// Makes a variable active.
    pub(crate) fn activate(&mut self, n: u32) -> Result<(), AllocError>
        ensures { IfOk result (λ _. Activates (scope_state self.old) n (scope_state self.new)) }
    {
        let place = self.variables.len();
        self.variables.push(n)?;
        if (n as usize) < self.places.len() {
            self.places[n as usize] = place;
        }
        Ok(())
    }

    /// Makes a hypothesis active. When out of memory, nothing may be active any more.
    pub(crate) fn add_hypothesis(&mut self, alloc: Global, hyp: Hyp<'a>) -> Result<(), AllocError>
        ensures { IfOk result (λ _. AddsHypothesis (scope_state self.old)
            (plain_hypothesis hyp.entry) (scope_state self.new)) }
    {
        let place = self.hyps.len();
        self.rename(hyp.label(), Name::Hypothesis(place))?;
        let common = self.common_with(alloc, &hyp)?;
        set_type(&mut self.types, &hyp, place);
        if self.hyps.push(hyp).is_err() {
            self.common = None;
            self.blocks.clear();
            self.outer.clear();
            return Err(AllocError);
        }
        self.common = common;
        Ok(())
    }

    /// Keeps variables apart from each other. When out of memory, nothing may be active any more.
    pub(crate) fn add_disjoint(
        &mut self,
        alloc: Global,
        variables: Vec<u32>,
    ) -> Result<(), AllocError>
        ensures { IfOk result
            (λ _. AddsDisjoint (scope_state self.old) variables.items (scope_state self.new)) }
    {
        let common = self.common_apart(alloc, &variables)?;
        if self.disjoint.push(alloc, variables).is_err() {
            self.common = None;
            self.blocks.clear();
            self.outer.clear();
            return Err(AllocError);
        }
        self.common = common;
        Ok(())
    }

    /// Adds the frame of an assertion.
    pub(crate) fn add_assertion(
        &mut self,
        alloc: Global,
        frame: Frame<'a>,
    ) -> Result<(), AllocError>
        ensures { IfOk result (λ _.
            AddsAssertion (scope_state self.old) (plain_frame frame.entry) (scope_state self.new)) }
    {
        self.push_frame(frame)?;
        self.keep_pairs(alloc)?;
        Ok(())
    }

    /// Appends the frame of an assertion.
    fn push_frame(&mut self, frame: Frame<'a>) -> Result<(), AllocError>
        ensures { IfOk result (λ _.
            AddsAssertion (scope_state self.old) (plain_frame frame.entry) (scope_state self.new)) }
    {
        let place = self.frames.len();
        self.rename(frame.label, Name::Assertion(place))?;
        if self.frames.push(frame).is_err() {
            return Err(AllocError);
        }
        Ok(())
    }

    /// Opens a block.
    pub(crate) fn open_block(&mut self, alloc: Global, at: usize) -> Result<(), AllocError>
        ensures { IfOk result (λ _. OpensBlock (scope_state self.old) at (scope_state self.new)) }
    {
        self.keep_pairs(alloc)?;
        self.push_block(at)
    }

    fn push_block(&mut self, at: usize) -> Result<(), AllocError>
        ensures { IfOk result (λ _. OpensBlock (scope_state self.old) at (scope_state self.new)) }
    {
        let common = self.shared_common()?;
        self.outer.reserve(1)?;
        self.blocks.push(OpenBlock {
            at,
            variables: self.variables.len(),
            hyps: self.hyps.len(),
            disjoint: self.disjoint.len(),
        })?;
        self.outer.push(common).unwrap();
        Ok(())
    }

    /// Closes the innermost block and returns it, or `None` if no block is open.
    pub(crate) fn close_block(&mut self) -> Option<OpenBlock>
        ensures { ClosesBlock (scope_state self.old) (scope_state self.new) result }
    {
        let block = self.blocks.pop()?;
        self.common = self.outer.pop()?;
        self.variables.truncate(block.variables);
        self.hyps.truncate(block.hyps);
        self.disjoint.truncate(block.disjoint);
        Some(block)
    }
}

/// Notes the place of an `$f` for its variable.
fn set_type(types: &mut Vec<usize>, hyp: &Hyp<'_>, place: usize)
    ensures { types.new.items ≡ types_with types.old.items place (plain_hypothesis hyp.now) }
{
    if let Hyp::Floating(_, _, variable) = hyp {
        let n = *variable as usize;
        if n < types.len() {
            types[n] = place;
        }
    }
}

/// The name of a symbol with this number.
fn symbol_name(is_variable: bool, n: u32) -> Name
    ensures { result ≡ symbol_name is_variable n }
{
    if is_variable {
        Name::Variable(n)
    } else {
        Name::Constant(n)
    }
}
