// The entries of a stack, which are expressions: lists of symbols, each symbol by its number.
ghost use Rattle.std.specs.Prelude.{◌≡◌, ◌<◌, [], length, drop, slice_index_or};
ghost use Rattle.mm_verify.specs.Ranges.{piece, pieces, IsRange, AreRanges};

use std::marker::Model;

/// Where an expression stands in a list of symbols: from here up to there.
#[derive(Clone, Copy)]
pub(crate) struct Range {
    pub(crate) from: usize,
    pub(crate) to: usize,
}

/// Expressions, the last one on top. Each stands in a list of symbols, which has others too.
/// Contracts see a list of lists.
#[derive(Drop)]
pub(crate) struct Stack<'m> {
    symbols: &'m [u32],
    ranges: &'m [Range],
    longest: usize,
}

impl<'m> Model for Stack<'m> {
    ghost use Rattle.std.specs.Prelude.{ℕ, List};

    ghost Value = { List (List ℕ) };

    ghost use Rattle.mm_verify.specs.StackView.{stack_of, HasRanges};

    ghost view = { stack_of };

    ghost invariant = { HasRanges };
}

impl<'m> Stack<'m> {
    /// The expressions at these ranges. None is longer than `longest`.
    pub(crate) fn new(symbols: &'m [u32], ranges: &'m [Range], longest: usize) -> Stack<'m>
        requires { AreRanges (length symbols.now) ranges.now }
        ensures { result ≡ pieces symbols.now ranges.now }
    {
        Stack {
            symbols,
            ranges,
            longest,
        }
    }

    /// How many expressions there are.
    pub(crate) fn len(&self) -> usize
        ensures { result ≡ length self.now }
    {
        self.ranges.len()
    }

    /// The expression with this number, from 0, the lowest first.
    pub(crate) fn entry(&self, i: usize) -> &[u32]
        requires { i < length self.now }
        ensures { result.now ≡ slice_index_or self.now i [] }
    {
        piece(self.symbols, self.ranges[i])
    }

    /// The expression with this number, from 0, among those from `base` on.
    pub(crate) fn entry_above(&self, base: usize, i: usize) -> &[u32]
        requires { i < length (drop base self.now) }
        ensures { result.now ≡ slice_index_or (drop base self.now) i [] }
    {
        piece(self.symbols, self.ranges[base + i])
    }

    /// No expression has more symbols than this.
    pub(crate) fn longest(&self) -> usize {
        self.longest
    }
}

/// The symbols at a range.
pub(crate) fn piece(symbols: &[u32], range: Range) -> &[u32]
    requires { IsRange (length symbols.now) range }
    ensures { result.now ≡ piece symbols.now range }
{
    &symbols[range.from..range.to]
}
