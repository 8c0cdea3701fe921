ghost use Rattle.std.specs.Prelude.{◌≡◌, ◌+◌, ◌≤◌, length};
ghost use Rattle.std.specs.Prelude.{IfOk};
ghost use Rattle.elf32.specs.ProgramHeaders.{type_of, header_at, describes_memory, memory_of, segment_of};
ghost use Rattle.elf32.specs.Rules.{is_well_placed, is_dynamic};

use crate::fields::word_at;
use crate::program::Segment;
use crate::range::AddressRange;
use std::alloc::{AllocError, Global};
use views::list_of::ListOf;

/// What a program header is for: its `p_type`, as far as this crate tells types apart.
#[derive(Clone, Copy)]
pub enum SegmentType {
    /// `PT_LOAD`: a piece of memory.
    Load,
    /// `PT_DYNAMIC`: what a dynamic linker needs.
    Dynamic,
    /// `PT_INTERP`: the name of an interpreter.
    Interpreter,
    /// A type that does not change what the program is.
    Other,
}

impl SegmentType {
    pub fn of_number(number: u32) -> Self
        ensures { result ≡ type_of number }
    {
        match number {
            1 => SegmentType::Load,
            2 => SegmentType::Dynamic,
            3 => SegmentType::Interpreter,
            _ => SegmentType::Other,
        }
    }

    /// Whether such a header asks for a dynamic linker or an interpreter.
    pub fn is_dynamic(self) -> bool
        ensures { result ≡ is_dynamic self }
    {
        matches!(self, SegmentType::Dynamic | SegmentType::Interpreter)
    }
}

/// One entry of the program header table, with the fields that this crate reads.
#[derive(Clone, Copy)]
pub struct ProgramHeader {
    pub kind: SegmentType,
    /// Where the segment's bytes begin in the file.
    pub offset: u32,
    /// The address of the segment's first byte.
    pub vaddr: u32,
    /// How many bytes of the segment stand in the file.
    pub filesz: u32,
    /// How many bytes of memory the segment takes.
    pub memsz: u32,
    /// What the segment may be used for.
    pub flags: u32,
}

impl ProgramHeader {
    /// How many bytes a program header has.
    pub const SIZE: usize = 32;

    /// The bits `PF_R`, `PF_W` and `PF_X` of the flags.
    const RIGHTS: u32 = 0x7;

    /// The header that begins at this byte of the file.
    #[tactic(auto, unfolding(crate::specs::ProgramHeaders::header_at))]
    pub fn at(file: &[u8], place: usize) -> Self
        requires { place + 32 ≤ length file.now }
        ensures { result ≡ header_at file.now place }
    {
        ProgramHeader {
            kind: SegmentType::of_number(word_at(file, place)),
            offset: word_at(file, place + 4),
            vaddr: word_at(file, place + 8),
            filesz: word_at(file, place + 16),
            memsz: word_at(file, place + 20),
            flags: word_at(file, place + 24),
        }
    }

    /// Whether the header describes a piece of memory.
    pub fn describes_memory(&self) -> bool
        ensures { result ≡ describes_memory self.now }
    {
        matches!(self.kind, SegmentType::Load) && self.memsz > 0
    }

    /// The addresses of the memory that the header describes.
    pub fn memory(&self) -> AddressRange
        ensures { result ≡ memory_of self.now }
    {
        let start = u64::from(self.vaddr);
        AddressRange {
            start,
            end: start + u64::from(self.memsz),
        }
    }

    /// Whether the segment's bytes stand in the file and fit into its memory, and that lies where
    /// programs may lie.
    pub fn is_well_placed(&self, file: &[u8]) -> bool
        ensures { result ≡ is_well_placed file.now self.now }
    {
        let file_end = self.offset as usize + self.filesz as usize;
        let memory = self.memory();
        file_end <= file.len()
            && self.filesz <= self.memsz
            && memory.start >= AddressRange::PROGRAMS.start
            && memory.end <= AddressRange::PROGRAMS.end
    }

    /// The segment that the header describes, with its bytes from the file.
    pub fn segment(&self, alloc: Global, file: &[u8]) -> Result<Segment, AllocError>
        requires { self.now.offset + self.now.filesz ≤ length file.now }
        ensures { IfOk result (λ segment. segment ≡ segment_of file.now self.now) }
    {
        let start = self.offset as usize;
        let bytes = Vec::from_slice(alloc, &file[start..start + self.filesz as usize])?;
        Ok(Segment {
            vaddr: self.vaddr,
            memsz: self.memsz,
            rights: (self.flags & Self::RIGHTS) as u8,
            bytes: ListOf::from_vec(bytes),
        })
    }
}
