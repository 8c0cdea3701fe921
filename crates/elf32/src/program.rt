ghost use Rattle.std.specs.Prelude.{◌≡◌, ℕ};
ghost use Rattle.elf32.specs.Pages.{range_of};

use crate::range::AddressRange;
use views::list_of::ListOf;

/// What a static executable puts into memory, and where it starts.
#[derive(Drop)]
pub struct Program {
    /// The address of the first instruction.
    pub entry: u32,
    /// The loadable segments that are not empty, in the order of their program headers.
    pub segments: ListOf<Segment>,
}

/// A piece of memory that a program header describes.
#[derive(Drop)]
pub struct Segment {
    /// The address of its first byte.
    pub vaddr: u32,
    /// How many bytes of memory it takes.
    pub memsz: u32,
    /// What its pages may be used for: the sum of the rights that they have.
    pub rights: u8,
    /// Its first bytes, from the file. Its other bytes are zero.
    pub bytes: ListOf<u8>,
}

impl Segment {
    /// The right to be read, `PF_R` of a program header.
    pub const READ: u8 = 4;

    /// The right to be written, `PF_W`.
    pub const WRITE: u8 = 2;

    /// The right to be executed, `PF_X`.
    pub const EXECUTE: u8 = 1;

    /// The addresses of the segment.
    pub(crate) fn memory(&self) -> AddressRange
        ensures { result ≡ range_of self.now }
    {
        let start = u64::from(self.vaddr);
        AddressRange {
            start,
            end: start + u64::from(self.memsz),
        }
    }
}
