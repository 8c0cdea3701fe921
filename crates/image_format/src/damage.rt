ghost use Rattle.std.specs.Prelude.{◌≡◌, ◌-◌, ◌≤◌, length};

use std::alloc::AllocError;
use thiserror::Error;

/// Where a set is damaged: a file of the slot, by its index (0 the manifest, 1 the shared image, then the
/// images of processes), and an offset in bytes: that of the first field whose value is not allowed after the
/// fields before it, that of the first byte too many, or that of the end of a file that ends too early, lacks
/// something as a whole or is missing (0).
#[derive(Clone, Copy, Debug, PartialEq, Eq)]
pub struct Damage {
    pub file: u32,
    pub offset: u64,
}

/// Why bytes were not read as an image.
#[derive(Clone, Copy, Debug, PartialEq, Eq, Error)]
pub enum ReadFault {
    #[error("damaged: file {} at {}", .0.file, .0.offset)]
    Damaged(Damage),
    #[error("out of memory")]
    Memory,
}

impl From<AllocError> for ReadFault {
    ghost use Rattle.image_format.specs.declared.damage.ReadFault.TheVariants.{Memory};

    ghost from_gives = { λ _ fault. fault ≡ Memory };

    fn from(_error: AllocError) -> Self {
        ReadFault::Memory
    }
}

/// The damage of a file's field from which on so many bytes are left.
pub fn damaged(file: u32, bytes: &[u8], left: usize) -> ReadFault
    requires { left ≤ length bytes.now }
    ensures { result ≡ ReadFault.Damaged (record { file = file; offset = length bytes.now - left }) }
{
    ReadFault::Damaged(Damage {
        file,
        offset: (bytes.len() - left) as u64,
    })
}
