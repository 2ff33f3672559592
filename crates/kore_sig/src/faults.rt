// Why a definition has no signature.
ghost use Rattle.std.specs.Prelude.{◌≡◌};
ghost use Rattle.kore_sig.specs.declared.faults.SigFault.TheVariants.{Memory};

use std::alloc::{AllocError, AllocFailed};
use thiserror::Error;

/// The first fault of the declarations of a definition, with its byte in the text.
#[derive(Debug, Drop, Error)]
pub enum SigFault {
    /// An import names no earlier module. The byte is that of its keyword.
    #[error("import of no earlier module at {0}")]
    Import(u32),
    /// A module, a sort or a symbol has the name of an earlier one. The byte is that of its
    /// keyword.
    #[error("name declared twice at {0}")]
    Duplicate(u32),
    /// A sort is neither a declared sort without arguments nor a parameter of its symbol. The byte
    /// is that of its name.
    #[error("unknown sort at {0}")]
    UnknownSort(u32),
    /// A symbol has more than 64 arguments. The byte is that of its keyword.
    #[error("too many arguments at {0}")]
    Arity(u32),
    /// A sort has parameters. The byte is that of its keyword.
    #[error("sort with parameters at {0}")]
    SortParameter(u32),
    /// A pair of sorts puts a sort below itself. The byte is that of the axiom's keyword.
    #[error("cycle of sorts at {0}")]
    SubsortCycle(u32),
    /// Out of memory.
    #[error("out of memory")]
    Memory,
}

impl From<AllocError> for SigFault {
    ghost from_gives = { λ _ fault. fault ≡ Memory };

    fn from(_error: AllocError) -> SigFault {
        SigFault::Memory
    }
}

impl<T: Drop> From<AllocFailed<T>> for SigFault {
    ghost from_gives = { λ _ fault. fault ≡ Memory };

    fn from(_error: AllocFailed<T>) -> SigFault {
        SigFault::Memory
    }
}
