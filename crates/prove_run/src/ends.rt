// Why a call of a proof does not succeed.
ghost use Rattle.std.specs.Prelude.{◌≡◌};
ghost use Rattle.prove_run.specs.Ends.{fault_by};
ghost use Rattle.prove_run.specs.declared.ends.ProveEnd.TheVariants.{Memory};

use desk_io::DeskFault;
use std::alloc::AllocError;

/// Why a call of a proof did not succeed.
#[derive(Clone, Copy, Debug, PartialEq, Eq)]
pub enum ProveEnd {
    /// The desk failed, and counted it.
    Failed,

    /// Memory ran out.
    Memory,
}

impl From<AllocError> for ProveEnd {
    ghost from_gives = { λ _ e. e ≡ Memory };

    fn from(_error: AllocError) -> ProveEnd {
        ProveEnd::Memory
    }
}

impl From<ProveEnd> for DeskFault {
    ghost from_gives = { λ end fault. fault ≡ fault_by end };

    fn from(end: ProveEnd) -> DeskFault {
        match end {
            ProveEnd::Failed => DeskFault::Failed,
            ProveEnd::Memory => DeskFault::Memory,
        }
    }
}
