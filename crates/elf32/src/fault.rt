ghost use Rattle.std.specs.Prelude.{◌≡◌, ℕ, codes, IsTrue, OnOk, Some};
ghost use Rattle.std.specs.Result.{result_err};
ghost use Rattle.elf32.specs.Faults.{fault_at, needs, no_memory, reason_text};

use std::alloc::AllocError;
use std::fmt;
use thiserror::Error;

/// Which rule of the file format is broken, or that there was no memory for the program.
#[derive(Clone, Copy, Debug, PartialEq, Eq)]
pub enum ElfReason {
    /// The file ends before its header or its program header table does.
    Short = 1,
    /// The file does not begin with the four bytes of an ELF file.
    Magic = 2,
    /// The file is not of 32 bits, or not little endian, or of another version of ELF.
    Class = 3,
    /// The file is for another machine than RISC-V.
    Machine = 4,
    /// The file is no executable: it is relocatable, shared, a core, or of another kind.
    FileType = 5,
    /// The code is compressed, or takes floating point or the small register file.
    Flags = 6,
    /// The file asks for a dynamic linker or an interpreter.
    Dynamic = 7,
    /// A segment or the entry lies where none may lie, or the table of segments is out of shape.
    Segment = 8,
    /// Two segments share a byte of memory.
    Overlap = 9,
    /// The segments lie in more than 1,536 pages.
    TooLarge = 10,
    /// There was no memory for the program.
    Memory = 11,
}

impl ElfReason {
    /// The reason as one word in lower case, as a log line shows it.
    pub fn word(self) -> &'static str
        ensures { result.now ≡ reason_text self }
    {
        match self {
            ElfReason::Short => "short",
            ElfReason::Magic => "magic",
            ElfReason::Class => "class",
            ElfReason::Machine => "machine",
            ElfReason::FileType => "filetype",
            ElfReason::Flags => "flags",
            ElfReason::Dynamic => "dynamic",
            ElfReason::Segment => "segment",
            ElfReason::Overlap => "overlap",
            ElfReason::TooLarge => "toolarge",
            ElfReason::Memory => "memory",
        }
    }
}

impl fmt::Display for ElfReason {
    ghost output = { λ reason. Some (reason_text reason) };

    fn fmt<W: fmt::Write>(&self, f: &mut fmt::Formatter<W>) -> fmt::Result {
        f.write_str(self.word())
    }
}

/// The first rule that a file breaks, and the place in the file where it does.
#[derive(Clone, Copy, Debug, Error)]
#[error("{reason} at {offset}")]
pub struct ElfFault {
    pub reason: ElfReason,
    /// In bytes from the file's beginning, and 0 with [`ElfReason::Memory`]. A place past
    /// 0xFFFF_FFFF, which only a file of more than 4 GiB has, stands as 0xFFFF_FFFF.
    pub offset: u32,
}

impl ElfFault {
    /// The fault at this byte of the file.
    pub(crate) fn at(reason: ElfReason, place: usize) -> Self
        ensures { result ≡ fault_at reason place }
    {
        ElfFault {
            reason,
            offset: place.min(u32::MAX as usize) as u32,
        }
    }
}

impl From<AllocError> for ElfFault {
    ghost from_gives = { λ _ fault. fault ≡ no_memory };

    fn from(_error: AllocError) -> Self {
        ElfFault {
            reason: ElfReason::Memory,
            offset: 0,
        }
    }
}

/// Nothing where a rule holds, else its fault at this byte of the file.
#[tactic(auto, unfolding(crate::specs::Faults::needs))]
pub(crate) fn check(holds: bool, reason: ElfReason, place: usize) -> Result<(), ElfFault>
    ensures fault { result_err result ≡ needs holds reason place }
    ensures held { OnOk result (IsTrue holds) }
{
    if holds {
        Ok(())
    } else {
        Err(ElfFault::at(reason, place))
    }
}
