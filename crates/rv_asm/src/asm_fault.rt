use std::alloc::AllocError;
use thiserror::Error;

/// Why a text gave no file.
#[derive(Clone, Copy, Debug, Error)]
pub enum AsmFault {
    /// The first line that breaks a rule, counted from 1. A line past the last number stands as the last.
    #[error("line {0}")]
    Line(u32),
    #[error("out of memory")]
    Memory,
}

impl From<AllocError> for AsmFault {
    ghost use Rattle.std.specs.Prelude.{◌≡◌};
    ghost use Rattle.rv_asm.specs.declared.asm_fault.AsmFault.TheVariants.{Memory};

    ghost from_gives = { λ _ fault. fault ≡ Memory };

    fn from(_error: AllocError) -> AsmFault {
        AsmFault::Memory
    }
}
