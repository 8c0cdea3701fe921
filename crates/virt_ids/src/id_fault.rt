use std::alloc::AllocError;
use thiserror::Error;

/// Why a call of a table of pairs was refused.
#[derive(Clone, Copy, Debug, PartialEq, Eq, Error)]
pub enum IdFault {
    /// The number or address is in no pair.
    #[error("no pair has it")]
    Unknown = 1,
    /// One of the two sides is in a pair already.
    #[error("one of the two is paired already")]
    Taken = 2,
    #[error("out of memory")]
    Memory = 3,
}

impl From<AllocError> for IdFault {
    ghost use Rattle.std.specs.Prelude.{◌≡◌};
    ghost use Rattle.virt_ids.specs.declared.id_fault.IdFault.TheVariants.{Memory};

    ghost from_gives = { λ _ fault. fault ≡ Memory };

    fn from(_error: AllocError) -> IdFault {
        IdFault::Memory
    }
}
