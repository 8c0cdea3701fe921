use disk_folder::DiskFault as FolderFault;
use image_format::{Damage, ReadFault};
use std::alloc::{AllocError, AllocFailed};
use thiserror::Error;

/// Why a store refused a call.
#[derive(Clone, Copy, Debug, PartialEq, Eq, Error)]
pub enum StoreFault {
    /// The disk failed. The folder's count of faults rose.
    #[error("the disk failed")]
    DiskFault,
    /// No set of the folder counts.
    #[error("no set")]
    NoSet,
    /// The set that counts is damaged there.
    #[error("damaged: file {} at {}", .0.file, .0.offset)]
    Damaged(Damage),
    #[error("out of memory")]
    Memory,
}

impl From<FolderFault> for StoreFault {
    ghost use Rattle.std.specs.Prelude.{◌≡◌};
    ghost use Rattle.image_store.specs.FaultsOf.{of_folder};

    ghost from_gives = { λ fault made. made ≡ of_folder fault };

    fn from(fault: FolderFault) -> StoreFault {
        match fault {
            FolderFault::Failed => StoreFault::DiskFault,
            FolderFault::Memory => StoreFault::Memory,
        }
    }
}

impl From<ReadFault> for StoreFault {
    ghost use Rattle.std.specs.Prelude.{◌≡◌};
    ghost use Rattle.image_store.specs.FaultsOf.{of_reading};

    ghost from_gives = { λ fault made. made ≡ of_reading fault };

    fn from(fault: ReadFault) -> StoreFault {
        match fault {
            ReadFault::Damaged(damage) => StoreFault::Damaged(damage),
            ReadFault::Memory => StoreFault::Memory,
        }
    }
}

impl From<AllocError> for StoreFault {
    ghost use Rattle.std.specs.Prelude.{◌≡◌};
    ghost use Rattle.image_store.specs.declared.store_fault.StoreFault.TheVariants.{Memory};

    ghost from_gives = { λ _ fault. fault ≡ Memory };

    fn from(_error: AllocError) -> StoreFault {
        StoreFault::Memory
    }
}

impl<T: Drop> From<AllocFailed<T>> for StoreFault {
    ghost use Rattle.std.specs.Prelude.{◌≡◌};
    ghost use Rattle.image_store.specs.declared.store_fault.StoreFault.TheVariants.{Memory};

    ghost from_gives = { λ _ fault. fault ≡ Memory };

    fn from(_error: AllocFailed<T>) -> StoreFault {
        StoreFault::Memory
    }
}
