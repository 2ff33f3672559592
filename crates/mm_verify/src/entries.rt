// The expressions that the steps of a proof make.
ghost use Rattle.std.specs.Prelude.{◌≡◌, ◌-◌, ℕ, List, [], ◌∷◌, ◌++◌, length, take, IfOk};
ghost use Rattle.std.specs.Prelude.{OnErr};
ghost use Rattle.std.specs.Prelude.{option_map, slice_get};
ghost use Rattle.mm_database.specs.Stack.{saving};
ghost use Rattle.mm_verify.specs.Applied.{AgreesWithStep};
ghost use Rattle.mm_verify.specs.Ranges.{pieces, AreRanges};

use crate::stack::{Range, Stack, piece};
use std::alloc::{AllocError, Global};
use std::marker::Model;

/// The symbols are not moved together while there are fewer than this.
const FEW: usize = 65536;

/// Expressions on a stack, and saved ones. Each is a range of one list of symbols, so that none is
/// copied when it is saved or repeated. Contracts see the two lists of lists.
///
/// New expressions are appended. What is no longer needed stays, until there are more symbols than
/// `limit`: then the expressions are moved to a new list, if this halves the symbols, and the limit
/// becomes twice their number. So the list has at most about four times as many symbols as all
/// expressions together had when they were counted last, and moving takes no more time than
/// appending did.
#[derive(Drop)]
pub(crate) struct Entries {
    symbols: Vec<u32>,
    stack: Vec<Range>,
    saved: Vec<Range>,
    longest: usize,
    limit: usize,
}

impl Model for Entries {
    ghost use Rattle.std.specs.Prelude.{ℕ, List};
    ghost use Rattle.mm_database.specs.Stack.{Saving};

    ghost Value = { Saving (List ℕ) };

    ghost use Rattle.mm_verify.specs.EntriesView.{entries_of, HaveRanges};

    ghost view = { entries_of };

    ghost invariant = { HaveRanges };
}

impl Entries {
    /// No expressions, with room for what most proofs need.
    pub(crate) fn new(alloc: Global) -> Result<Entries, AllocError>
        ensures { IfOk result (λ e. e ≡ saving [] []) }
    {
        Ok(Entries {
            symbols: Vec::with_capacity(alloc, 4096)?,
            stack: Vec::with_capacity(alloc, 64)?,
            saved: Vec::with_capacity(alloc, 64)?,
            longest: 0,
            limit: FEW,
        })
    }

    /// Leaves no expressions.
    pub(crate) fn clear(&mut self)
        ensures { self.new ≡ saving [] [] }
    {
        self.stack.clear();
        self.saved.clear();
        self.symbols.clear();
        self.longest = 0;
        self.limit = FEW;
    }

    /// The expressions on the stack.
    pub(crate) fn stack(&self) -> Stack<'_>
        ensures { result ≡ self.now.stack }
    {
        Stack::new(&self.symbols, &self.stack, self.longest)
    }

    /// Puts an expression on top. It takes time in the expression's length.
    pub(crate) fn push(&mut self, expression: &[u32]) -> Result<(), AllocError>
        ensures { IfOk result (λ _.
            self.new ≡ saving (self.old.stack ++ expression.now ∷ []) self.old.saved) }
    {
        self.stack.reserve(1)?;
        let range = append(&mut self.symbols, expression)?;
        self.stack.push(range).unwrap();
        self.longest = self.longest.max(expression.len());
        Ok(())
    }

    /// Saves the last expression. Returns false if there is none.
    pub(crate) fn save(&mut self) -> Result<bool, AllocError>
        ensures { IfOk result (AgreesWithStep
            (option_map (λ e. saving self.old.stack (self.old.saved ++ e ∷ []))
            (slice_get self.old.stack (length self.old.stack - 1))) self.old self.new) }
    {
        match self.stack.last() {
            None => Ok(false),
            Some(range) => {
                self.saved.push(*range)?;
                Ok(true)
            }
        }
    }

    /// Puts the saved expression with this number, from 0, on top. Returns false if there is none.
    pub(crate) fn repeat(&mut self, number: usize) -> Result<bool, AllocError>
        ensures { IfOk result (AgreesWithStep
            (option_map (λ e. saving (self.old.stack ++ e ∷ []) self.old.saved)
            (slice_get self.old.saved number)) self.old self.new) }
    {
        match range_at(&self.saved, number) {
            None => Ok(false),
            Some(range) => {
                self.stack.push(range)?;
                Ok(true)
            }
        }
    }

    /// Puts an expression in the place of those from `base` on. It takes time in its length, and at
    /// times the time to move the symbols together.
    pub(crate) fn conclude(
        &mut self,
        alloc: Global,
        base: usize,
        expression: &[u32],
    ) -> Result<(), AllocError>
        ensures { IfOk result (λ _.
            self.new ≡ saving (take base self.old.stack ++ expression.now ∷ []) self.old.saved) }
    {
        self.truncate(base);
        if self.symbols.len() > self.limit {
            self.tidy(alloc)?;
        }
        self.push(expression)
    }

    /// Keeps the lowest `n` expressions of the stack.
    fn truncate(&mut self, n: usize)
        ensures { self.new ≡ saving (take n self.old.stack) self.old.saved }
    {
        self.stack.truncate(n);
    }

    /// Moves the symbols of all expressions together, if they are at most half of all symbols.
    fn tidy(&mut self, alloc: Global) -> Result<(), AllocError>
        ensures { IfOk result (λ _. self.new ≡ self.old) }
    {
        let needed = total(&self.stack).saturating_add(total(&self.saved));
        if needed <= self.symbols.len() / 2 {
            self.gather(alloc)?;
        }
        self.limit = self.symbols.len().saturating_mul(2).max(FEW);
        Ok(())
    }

    /// Moves the symbols of all expressions together.
    fn gather(&mut self, alloc: Global) -> Result<(), AllocError>
        ensures { IfOk result (λ _. self.new ≡ self.old) }
    {
        let mut symbols = Vec::new(alloc);
        let saved = moved(alloc, &self.symbols, &self.saved, &mut symbols)?;
        let stack = moved(alloc, &self.symbols, &self.stack, &mut symbols)?;
        self.symbols = symbols;
        self.saved = saved;
        self.stack = stack;
        Ok(())
    }
}

/// How many symbols the expressions at these ranges have, all together.
fn total(ranges: &[Range]) -> usize {
    let mut total: usize = 0;
    for range in ranges {
        total = total.saturating_add(range.to.saturating_sub(range.from));
    }
    total
}

/// The range with this number.
fn range_at(ranges: &[Range], number: usize) -> Option<Range>
    ensures { result ≡ slice_get ranges.now number }
{
    ranges.get(number).copied()
}

/// Appends an expression, and returns where it stands.
fn append(to: &mut Vec<u32>, expression: &[u32]) -> Result<Range, AllocError>
    ensures symbols { IfOk result (λ _. to.new.items ≡ to.old.items ++ expression.now) }
    ensures range { IfOk result
        (λ r. (r.from ≡ length to.old.items) × (r.to ≡ length to.new.items)) }
    ensures err { OnErr result (to.new.items ≡ to.old.items) }
{
    let from = to.len();
    to.extend_from_slice(expression)?;
    Ok(Range { from, to: to.len() })
}

/// Appends the expressions at some ranges to other symbols, and returns where they stand.
fn moved(
    alloc: Global,
    symbols: &[u32],
    ranges: &[Range],
    to: &mut Vec<u32>,
) -> Result<Vec<Range>, AllocError>
    requires { AreRanges (length symbols.now) ranges.now }
    ensures front { IfOk result (λ _.
        (more : List ℕ) × (to.new.items ≡ to.old.items ++ more)) }
    ensures within { IfOk result (λ v. AreRanges (length to.new.items) v.items) }
    ensures same { IfOk result (λ v. pieces to.new.items v.items ≡ pieces symbols.now ranges.now) }
{
    let mut moved = Vec::with_capacity(alloc, ranges.len())?;
    for range in ranges {
        moved.push(append(to, piece(symbols, *range))?)?;
    }
    Ok(moved)
}
