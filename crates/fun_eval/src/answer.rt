// The results of an evaluation.
ghost use Rattle.std.specs.Prelude.{◌≡◌};
ghost use Rattle.fun_eval.specs.declared.answer.EvalEnd.TheVariants.{Memory};

use rule_core::Blocked;
use std::alloc::{AllocError, AllocFailed};
use term_core::Term;

/// The value of a pattern, and what is recorded of its evaluation.
#[derive(Drop)]
pub struct Answer<R> {
    pub term: Term,
    pub recorded: R,
}

/// Why there is no value.
#[derive(Clone, Copy, PartialEq, Eq, Debug)]
pub enum EvalEnd {
    /// The evaluation is blocked.
    Blocked(Blocked),
    /// Out of memory.
    Memory,
}

impl From<AllocError> for EvalEnd {
    ghost from_gives = { λ _ end. end ≡ Memory };

    fn from(_error: AllocError) -> EvalEnd {
        EvalEnd::Memory
    }
}

impl<T: Drop> From<AllocFailed<T>> for EvalEnd {
    ghost from_gives = { λ _ end. end ≡ Memory };

    fn from(_error: AllocFailed<T>) -> EvalEnd {
        EvalEnd::Memory
    }
}

// The values of some patterns, in order, and what is recorded of them.
#[derive(Drop)]
pub(crate) struct Answers<R> {
    pub(crate) terms: Vec<Term>,
    pub(crate) records: Vec<R>,
}
