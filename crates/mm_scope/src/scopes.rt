// What a database has declared so far, and what of it is active.

ghost use Rattle.std.specs.Prelude.{IfSome};
ghost use Rattle.std.proofs.Props.{props};
ghost use Rattle.mm_frame.specs.HypothesesView.{hypotheses_in};
ghost use Rattle.mm_frame.specs.DisjointView.{groups_in};
ghost use Rattle.mm_scope.specs.Sharing.{IsCommon, AreOuter};

use crate::common::Common;
use mm_frame::{Disjoint, Frame, Hypotheses, Names};

/// A constant or a variable.
#[derive(Clone, Copy)]
pub(crate) struct Symbol<'a> {
    pub(crate) token: &'a [u8],
    pub(crate) is_variable: bool,
}

/// A block that is open: the byte of its `${`, and how much was active there.
#[derive(Clone, Copy)]
pub(crate) struct OpenBlock {
    pub(crate) at: usize,
    pub(crate) variables: usize,
    pub(crate) hyps: usize,
    pub(crate) disjoint: usize,
}

/// What the statements of a database have declared so far, and what of it is active. Symbols have
/// numbers.
///
/// What is active is in lists, in the order of its declaration. The end of a block cuts these
/// lists. Each variable has its place in the list of active variables, and the place of its `$f` in
/// the list of active hypotheses. The end of a block does not clear these places: what is at the
/// place shows whether the variable or the `$f` is still active.
///
/// If the active `$e` are long, what they ask for is kept for assertions to share. It grows with
/// each `$e`. The end of a block takes back what was kept when the block was opened.
#[derive(Drop)]
pub struct Scopes<'a> {
    pub(crate) names: Names<'a>,
    pub(crate) symbols: Vec<Symbol<'a>>,
    pub(crate) places: Vec<usize>,
    pub(crate) types: Vec<usize>,
    pub(crate) variables: Vec<u32>,
    pub(crate) hyps: Hypotheses<'a>,
    pub(crate) disjoint: Disjoint,
    pub(crate) blocks: Vec<OpenBlock>,
    pub(crate) frames: Vec<Frame<'a>>,
    pub(crate) common: Option<Common<'a>>,
    pub(crate) outer: Vec<Option<Common<'a>>>,
    ghost common_is: { IfSome common
        (IsCommon types.items (hypotheses_in hyps) (groups_in disjoint)) } by { Prim.hlevel props },
    ghost outer_are: { AreOuter types.items (hypotheses_in hyps) (groups_in disjoint) blocks.items
        outer.items } by { Prim.hlevel props },
}

/// What a symbol has to be.
#[derive(Clone, Copy, PartialEq, Eq)]
pub(crate) enum Need {
    /// A constant, or an active variable.
    Active,
    /// An active variable.
    Variable,
    /// A constant, or an active variable with a type.
    Typed,
}
