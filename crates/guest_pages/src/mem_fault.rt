use std::alloc::AllocError;
use thiserror::Error;

/// Why a call of a space was refused.
#[derive(Clone, Copy, Debug, PartialEq, Eq, Error)]
pub enum MemFault {
    /// A byte's page isn't there.
    #[error("a page is missing")]
    Unmapped = 1,
    /// Each page is there, and one lacks the right.
    #[error("a page lacks the right")]
    Rights = 2,
    /// More than 2,048 pages would stand.
    #[error("the space has no room for more pages")]
    Full = 3,
    #[error("out of memory")]
    Memory = 4,
}

impl From<AllocError> for MemFault {
    ghost use Rattle.std.specs.Prelude.{◌≡◌};
    ghost use Rattle.guest_pages.specs.declared.mem_fault.MemFault.TheVariants.{Memory};

    ghost from_gives = { λ _ fault. fault ≡ Memory };

    fn from(_error: AllocError) -> MemFault {
        MemFault::Memory
    }
}
