use std::alloc::{AllocError, AllocFailed};
use thiserror::Error;

/// Why a folder refused a call.
#[derive(Clone, Copy, Debug, PartialEq, Eq, Error)]
pub enum DiskFault {
    /// The disk failed. The folder's count of faults rose.
    #[error("the disk failed")]
    Failed,
    /// Memory ran out. Everything is as before the call.
    #[error("out of memory")]
    Memory,
}

impl From<AllocError> for DiskFault {
    ghost use Rattle.std.specs.Prelude.{◌≡◌};
    ghost use Rattle.disk_folder.specs.declared.disk_fault.DiskFault.TheVariants.{Memory};

    ghost from_gives = { λ _ fault. fault ≡ Memory };

    fn from(_error: AllocError) -> DiskFault {
        DiskFault::Memory
    }
}

impl<T: Drop> From<AllocFailed<T>> for DiskFault {
    ghost use Rattle.std.specs.Prelude.{◌≡◌};
    ghost use Rattle.disk_folder.specs.declared.disk_fault.DiskFault.TheVariants.{Memory};

    ghost from_gives = { λ _ fault. fault ≡ Memory };

    fn from(_error: AllocFailed<T>) -> DiskFault {
        DiskFault::Memory
    }
}
