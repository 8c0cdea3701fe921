use std::alloc::AllocError;
use thiserror::Error;

/// Why a call on processes was refused.
#[derive(Clone, Copy, Debug, PartialEq, Eq, Error)]
pub enum ProcFault {
    /// No such process or thread lives.
    #[error("no such process")]
    NoProcess = 1,
    #[error("no such child")]
    NoChild = 2,
    /// No child has ended yet.
    #[error("no child has ended")]
    NotReady = 3,
    /// As many processes, or threads of the process, stand as may.
    #[error("no room for one more")]
    Full = 4,
    #[error("out of memory")]
    Memory = 5,
}

impl From<AllocError> for ProcFault {
    ghost use Rattle.std.specs.Prelude.{◌≡◌};
    ghost use Rattle.proc_book.specs.declared.proc_fault.ProcFault.TheVariants.{Memory};

    ghost from_gives = { λ _ fault. fault ≡ Memory };

    fn from(_error: AllocError) -> ProcFault {
        ProcFault::Memory
    }
}
