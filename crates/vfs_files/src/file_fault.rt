use std::alloc::AllocError;
use thiserror::Error;

/// Why a call on files was refused.
#[derive(Clone, Copy, Debug, PartialEq, Eq, Error)]
pub enum FileFault {
    #[error("no such file")]
    NoEntry = 1,
    #[error("the file is there already")]
    Exists = 2,
    /// As many files or bytes stand as may, or no number is left.
    #[error("no space is left")]
    Space = 3,
    #[error("out of memory")]
    Memory = 4,
}

impl From<AllocError> for FileFault {
    ghost use Rattle.std.specs.Prelude.{◌≡◌};
    ghost use Rattle.vfs_files.specs.declared.file_fault.FileFault.TheVariants.{Memory};

    ghost from_gives = { λ _ fault. fault ≡ Memory };

    fn from(_error: AllocError) -> FileFault {
        FileFault::Memory
    }
}
