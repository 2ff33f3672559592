// Why a hint file is no path.
ghost use Rattle.std.specs.Prelude.{◌≡◌};
ghost use Rattle.hint_file.specs.declared.ends.HintEnd.TheVariants as hint_end;
ghost use Rattle.hint_file.specs.declared.ends.LineEnd.TheVariants as line_end;

use std::alloc::{AllocError, AllocFailed};

/// Why there is no path.
#[derive(Clone, Copy, PartialEq, Eq, Debug)]
pub enum HintEnd {
    /// The first bad line, counted from 1, and the number by which it is bad.
    Bad(u64, u8),
    /// Out of memory.
    Memory,
}

impl From<AllocError> for HintEnd {
    ghost from_gives = { λ _ end. end ≡ hint_end.Memory };

    fn from(_error: AllocError) -> HintEnd {
        HintEnd::Memory
    }
}

impl<T: Drop> From<AllocFailed<T>> for HintEnd {
    ghost from_gives = { λ _ end. end ≡ hint_end.Memory };

    fn from(_error: AllocFailed<T>) -> HintEnd {
        HintEnd::Memory
    }
}

// Why a line is no step.
#[derive(Clone, Copy, PartialEq, Eq, Debug)]
pub(crate) enum LineEnd {
    // It is bad by this number.
    Bad(u8),
    // Out of memory.
    Memory,
}

impl From<AllocError> for LineEnd {
    ghost from_gives = { λ _ end. end ≡ line_end.Memory };

    fn from(_error: AllocError) -> LineEnd {
        LineEnd::Memory
    }
}
