use std::alloc::AllocError;
use thiserror::Error;

/// Why words gave no job.
#[derive(Clone, Copy, Debug, Error)]
pub enum WordFault {
    /// The words are those of no command.
    #[error("the words are of no command")]
    Usage = 1,
    #[error("out of memory")]
    Memory = 2,
}

impl From<AllocError> for WordFault {
    ghost use Rattle.std.specs.Prelude.{◌≡◌};
    ghost use Rattle.job_words.specs.declared.word_fault.WordFault.TheVariants.{Memory};

    ghost from_gives = { λ _ fault. fault ≡ Memory };

    fn from(_error: AllocError) -> WordFault {
        WordFault::Memory
    }
}
