// Questions to scopes.

ghost use Rattle.std.specs.Prelude.{◌≡◌, ℕ, true, option_map, slice_get, slice_index};
ghost use Rattle.std.specs.Prelude.{option_and_then, []};
ghost use Rattle.mm_scope.specs.ScopeState.{scope_state, named};
ghost use Rattle.mm_frame.specs.CitedView.{cited_hypothesis, cited_assertion};
ghost use Rattle.mm_frame.specs.PlainFrames.{plain_frames, in_group, in_groups, plain_hypothesis};
ghost use Rattle.mm_frame.specs.PlainFrames.{plain_frame};
ghost use Rattle.mm_database.specs.Database.{Context, empty_context};
ghost use Rattle.mm_scope.specs.Standing.{Stands, Tells, FrameFound};
ghost use Rattle.mm_database.specs.Validity.{first_open};
ghost use Rattle.mm_database.specs.Proofs.{active_hypothesis};
ghost use Rattle.mm_frame.specs.Numbered.{named_hypothesis};
ghost use Rattle.mm_scope.specs.StateReads.{frame_named, symbol_is_variable, hypothesis_at};
ghost use Rattle.mm_scope.specs.StateReads.{hypothesis_named, is_mandatory_named};
ghost use Rattle.std.specs.List.Sorted.{IsStrictlyIncreasing};
ghost use Rattle.mm_scope.specs.StateTests.{is_active_number, is_typed_in, number_in, first_block};

use crate::scopes::{Need, Scopes};
use mm_frame::{Cited, Disjoint, Frame, Hyp, Hypotheses, Name, Names, is_among};
use std::alloc::Global;

impl<'a> Scopes<'a> {
    /// The scopes of a database without statements. Takes no memory yet.
    pub fn new(alloc: Global) -> Self
        ensures stands { Stands (scope_state result) empty_context }
        ensures frames { (scope_state result).frames ≡ [] }
    {
        Scopes {
            names: Names::new(alloc),
            symbols: Vec::new(alloc),
            places: Vec::new(alloc),
            types: Vec::new(alloc),
            variables: Vec::new(alloc),
            hyps: Hypotheses::new(alloc),
            disjoint: Disjoint::new(alloc),
            blocks: Vec::new(alloc),
            frames: Vec::new(alloc),
            common: None,
            outer: Vec::new(alloc),
        }
    }

    /// What the token names.
    pub(crate) fn name(&self, word: &'a [u8]) -> Option<Name>
        ensures { result ≡ named self.now word.now }
    {
        self.names.get(word)
    }

    /// Whether the variable with this number is active.
    pub(crate) fn is_active_variable(&self, n: u32) -> bool
        ensures { result ≡ is_active_number (scope_state self.now) n }
    {
        let place = self.places.get(n as usize).copied().unwrap_or(0);
        match self.variables.get(place) {
            None => false,
            Some(variable) => *variable == n,
        }
    }

    /// Whether an active `$f` types the variable with this number.
    pub(crate) fn has_type(&self, n: u32) -> bool
        ensures { result ≡ is_typed_in (scope_state self.now) n }
    {
        match self.hyps.get(self.type_place(n)) {
            None => false,
            Some(hyp) => hyp.types(n),
        }
    }

    /// The place that is kept for the `$f` of the variable with this number.
    pub(crate) fn type_place(&self, n: u32) -> usize
        ensures { result ≡ slice_index (scope_state self.now).types n }
    {
        self.types.get(n as usize).copied().unwrap_or(0)
    }

    /// The number of a symbol, if it is what is needed.
    pub(crate) fn number(&self, need: Need, word: &'a [u8]) -> Option<u32>
        ensures { result ≡ number_in (scope_state self.now) need word.now }
    {
        match self.name(word)? {
            Name::Constant(n) => if need == Need::Variable {
                None
            } else {
                Some(n)
            },
            Name::Variable(n) => {
                if self.is_active_variable(n) && (need != Need::Typed || self.has_type(n)) {
                    Some(n)
                } else {
                    None
                }
            }
            _ => None,
        }
    }

    /// The token of the symbol with this number. Returns `None` exactly when no symbol has this
    /// number. Takes no memory.
    pub fn token(&self, symbol: u32) -> Option<&'a [u8]>
        ensures { option_map (λ t. t.now) result
            ≡ option_map (λ s. s.token) (slice_get (scope_state self.now).symbols symbol) }
    {
        let symbol = self.symbols.get(symbol as usize)?;
        Some(symbol.token)
    }

    /// Whether the symbol was declared by a `$v`. Takes no memory.
    pub fn is_variable(&self, symbol: u32) -> bool
        ensures scope_state { result
            ≡ symbol_is_variable (slice_get (scope_state self.now).symbols symbol) }
        ensures tells { Tells (scope_state self.now)
            (λ c name. result ≡ c.variables (name symbol)) }
    {
        self.has_variable(symbol)
    }

    fn has_variable(&self, symbol: u32) -> bool
        ensures { result ≡ symbol_is_variable (slice_get (scope_state self.now).symbols symbol) }
    {
        match self.symbols.get(symbol as usize) {
            None => false,
            Some(symbol) => symbol.is_variable,
        }
    }

    /// The byte of the first `${` that is not closed. Returns `None` exactly when all are closed.
    /// Takes no memory.
    pub fn unclosed(&self) -> Option<usize>
        ensures { (c : Context) → Stands (scope_state self.now) c → result ≡ first_open c.blocks }
    {
        self.first_block()
    }

    fn first_block(&self) -> Option<usize>
        ensures { result ≡ first_block (scope_state self.now).blocks }
    {
        let block = self.blocks.first()?;
        Some(block.at)
    }

    /// The active hypothesis with this label. Returns `None` exactly when there is none. Takes no
    /// memory.
    pub fn active(&self, label: &'a [u8]) -> Option<&Hyp<'a>>
        ensures scope_state { option_map (λ h. plain_hypothesis h.now) result
            ≡ hypothesis_named (scope_state self.now) label.now }
        ensures tells { Tells (scope_state self.now) (λ c name. active_hypothesis c label.now
            ≡ option_map (λ h. named_hypothesis name (plain_hypothesis h.now)) result) }
    {
        self.hypothesis(label)
    }

    /// Whether the label is that of an active hypothesis, which is mandatory for a statement of
    /// these symbols. They ascend. Takes no memory.
    pub fn is_mandatory(&self, label: &'a [u8], symbols: &[u32]) -> bool
        requires { IsStrictlyIncreasing symbols.now }
        ensures { result ≡ is_mandatory_named (scope_state self.now) symbols.now label.now }
    {
        match self.hypothesis(label) {
            None => false,
            Some(Hyp::Floating(_, _, variable)) => {
                is_among(symbols, *variable) || self.hyps.is_asked(*variable)
            }
            Some(Hyp::Essential(_, _)) => true,
        }
    }

    fn hypothesis(&self, label: &'a [u8]) -> Option<&Hyp<'a>>
        ensures { option_map (λ h. plain_hypothesis h.now) result
            ≡ hypothesis_named (scope_state self.now) label.now }
    {
        match self.name(label)? {
            Name::Hypothesis(place) => self.hypothesis_at(place, label),
            Name::Constant(_) | Name::Variable(_) | Name::Assertion(_) => None,
        }
    }

    fn hypothesis_at(&self, place: usize, label: &'a [u8]) -> Option<&Hyp<'a>>
        ensures { option_map (λ h. plain_hypothesis h.now) result
            ≡ hypothesis_at label.now (slice_get (scope_state self.now).hypotheses place) }
    {
        let hyp = self.hyps.get(place)?;
        if hyp.label() == label {
            Some(hyp)
        } else {
            None
        }
    }

    /// The frame of the assertion with this label. Returns `None` exactly when there is none. Takes
    /// no memory.
    pub fn assertion(&self, label: &'a [u8]) -> Option<&Frame<'a>>
        ensures scope_state { option_map (λ f. plain_frame f.now) result
            ≡ frame_named (scope_state self.now) label.now }
        ensures tells { Tells (scope_state self.now)
            (λ c name. FrameFound name (option_map (λ f. plain_frame f.now) result)
            (c.frames label.now)) }
    {
        self.frame_named(label)
    }

    fn frame_named(&self, label: &'a [u8]) -> Option<&Frame<'a>>
        ensures { option_map (λ f. plain_frame f.now) result
            ≡ frame_named (scope_state self.now) label.now }
    {
        match self.name(label)? {
            Name::Assertion(place) => self.frames.get(place),
            Name::Constant(_) | Name::Variable(_) | Name::Hypothesis(_) => None,
        }
    }

    /// The frames of all assertions, in order.
    pub fn frames(&self) -> &[Frame<'a>]
        ensures { plain_frames result.now ≡ (scope_state self.now).frames }
    {
        &self.frames
    }

    /// What a label cites, found by one look-up. Returns `None` exactly when the label is neither
    /// that of an active hypothesis nor that of an assertion. Takes no memory.
    pub fn cited(&self, label: &'a [u8]) -> Option<Cited<'_, 'a>>
        ensures hypothesis { cited_hypothesis result
            ≡ hypothesis_named (scope_state self.now) label.now }
        ensures assertion { option_and_then (slice_get (scope_state self.now).frames)
            (cited_assertion result)
            ≡ frame_named (scope_state self.now) label.now }
    {
        match self.name(label)? {
            Name::Hypothesis(place) => Some(Cited::Hypothesis(self.hypothesis_at(place, label)?)),
            Name::Assertion(place) => Some(Cited::Assertion(place)),
            Name::Constant(_) | Name::Variable(_) => None,
        }
    }

    /// Whether the two symbols are a pair of an active `$d`. Takes no memory. It takes at most one
    /// search for each active `$d` that has the rarer symbol, the one in fewer active `$d`.
    pub fn apart(&self, a: u32, b: u32) -> bool
        ensures scope_state { result ≡ in_groups (scope_state self.now).disjoint a b }
        ensures tells { Tells (scope_state self.now)
            (λ c name. result ≡ c.scope.apart (name a) (name b)) }
    {
        self.are_grouped(a, b)
    }

    /// Whether an active `$d` is found that has all these symbols. If so, each two different
    /// symbols are a pair of it. Takes no memory, and at most one search for each two symbols.
    pub fn are_together(&self, symbols: &[u32]) -> bool
        ensures { result ≡ true → (a b : ℕ) → in_group a b symbols.now ≡ true
            → in_groups (scope_state self.now).disjoint a b ≡ true }
    {
        self.disjoint.are_together(symbols)
    }

    fn are_grouped(&self, a: u32, b: u32) -> bool
        ensures { result ≡ in_groups (scope_state self.now).disjoint a b }
    {
        self.disjoint.are_apart(a, b)
    }
}
