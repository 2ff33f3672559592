// Faults of patterns. Only the first one is kept.
ghost use Rattle.std.specs.Prelude.{◌≡◌};
ghost use Rattle.kore_sig.specs.Noted.{leads_by_byte};
ghost use Rattle.kore_check.specs.declared.faults.CheckFault.TheVariants.{Memory};

use std::alloc::AllocError;
use thiserror::Error;

/// The kind of a fault of a pattern. Each kind is the number of its refusal.
#[derive(Clone, Copy, PartialEq, Eq, Debug)]
pub enum FaultKind {
    /// The height of the pattern is above 500.
    Deep = 3,
    /// A sort is not declared, has arguments, or is a sort parameter.
    UnknownSort = 6,
    /// A symbol is not declared.
    UnknownSymbol = 7,
    /// A symbol has a wrong number of sort arguments or of arguments.
    Arity = 8,
    /// The sort of an argument is not that of its place, or the first sort of an injection is not
    /// below the second.
    SortClash = 9,
    /// The text of a domain value is not a value of its sort.
    BadValue = 11,
    /// A symbol has no kind.
    NoKind = 25,
}

/// A fault of a pattern.
#[derive(Clone, Copy, PartialEq, Eq, Debug)]
pub struct PatternFault {
    /// What the fault is.
    pub kind: FaultKind,
    /// The byte of the fault.
    pub at: u32,
}

/// Why a pattern has no rule pattern. Each fault has its byte.
#[derive(Debug, Drop, Error)]
pub enum CheckFault {
    /// The height of the pattern is above 500. The byte is that of the pattern.
    #[error("too high at {0}")]
    Deep(u32),
    /// A sort is not declared, has arguments, or is a sort parameter. The byte is that of its name.
    #[error("unknown sort at {0}")]
    UnknownSort(u32),
    /// A symbol is not declared. The byte is that of its name.
    #[error("unknown symbol at {0}")]
    UnknownSymbol(u32),
    /// A symbol has a wrong number of sort arguments or of arguments. The byte is that of its name.
    #[error("wrong number of sorts or arguments at {0}")]
    Arity(u32),
    /// The sort of an argument is not that of its place: the byte is that of the argument. Or the
    /// first sort of an injection is not below the second: the byte is that of the symbol.
    #[error("wrong sort at {0}")]
    SortClash(u32),
    /// A text is not a value of its sort. The byte is that of the string.
    #[error("no value of its sort at {0}")]
    BadValue(u32),
    /// A symbol has no kind. The byte is that of its name.
    #[error("symbol without a kind at {0}")]
    NoKind(u32),
    /// Out of memory.
    #[error("out of memory")]
    Memory,
}

impl From<AllocError> for CheckFault {
    ghost from_gives = { λ _ fault. fault ≡ Memory };

    fn from(_error: AllocError) -> CheckFault {
        CheckFault::Memory
    }
}

impl From<PatternFault> for CheckFault {
    ghost use Rattle.kore_check.specs.FaultNumbers.{as_refusal};

    ghost from_gives = { λ fault given. given ≡ as_refusal fault };

    fn from(fault: PatternFault) -> CheckFault {
        match fault.kind {
            FaultKind::Deep => CheckFault::Deep(fault.at),
            FaultKind::UnknownSort => CheckFault::UnknownSort(fault.at),
            FaultKind::UnknownSymbol => CheckFault::UnknownSymbol(fault.at),
            FaultKind::Arity => CheckFault::Arity(fault.at),
            FaultKind::SortClash => CheckFault::SortClash(fault.at),
            FaultKind::BadValue => CheckFault::BadValue(fault.at),
            FaultKind::NoKind => CheckFault::NoKind(fault.at),
        }
    }
}

impl FaultKind {
    ghost use Rattle.kore_check.specs.FaultNumbers.{fault_number};

    /// The number of the refusal.
    pub fn number(self) -> u8
        ensures { result ≡ fault_number self }
    {
        self as u8
    }
}

impl PatternFault {
    ghost use Rattle.kore_check.specs.FaultNumbers.{plain_fault};

    // Whether this fault is at a smaller byte than the other, or at its byte with no greater
    // number.
    pub(crate) fn leads(self, other: PatternFault) -> bool
        ensures { result ≡ leads_by_byte (plain_fault self) (plain_fault other) }
    {
        self.at < other.at || (self.at == other.at && self.kind.number() <= other.kind.number())
    }
}
