use std::alloc::AllocError;
use thiserror::Error;

/// Why a channel was not added.
#[derive(Clone, Copy, Debug, PartialEq, Eq, Error)]
pub enum ConnFault {
    #[error("the channel is there already")]
    Taken = 1,
    #[error("out of memory")]
    Memory = 2,
}

impl From<AllocError> for ConnFault {
    ghost use Rattle.std.specs.Prelude.{◌≡◌};
    ghost use Rattle.conn_table.specs.declared.conn_fault.ConnFault.TheVariants.{Memory};

    ghost from_gives = { λ _ fault. fault ≡ Memory };

    fn from(_error: AllocError) -> ConnFault {
        ConnFault::Memory
    }
}
