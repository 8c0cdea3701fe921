ghost use Rattle.std.specs.Prelude.{◌≡◌, ◌+◌, ◌*◌, ◌≤◌, length, IfOk};
ghost use Rattle.std.specs.Result.{result_err};
ghost use Rattle.elf32.specs.Faults.{first_some};
ghost use Rattle.elf32.specs.FileHeader.{header_of};
ghost use Rattle.elf32.specs.Rules.{bytes_are, file_header_rules, kind_rules};

use crate::fault::{ElfFault, ElfReason, check};
use crate::fields::{half_at, word_at};
use crate::program_header::ProgramHeader;

// Where the fields stand in the header.
const E_TYPE: usize = 16;

const E_MACHINE: usize = 18;

pub const E_ENTRY: usize = 24;

const E_PHOFF: usize = 28;

const E_FLAGS: usize = 36;

const E_PHENTSIZE: usize = 42;

const E_PHNUM: usize = 44;

/// `ELFMAG`, the first four bytes of an ELF file.
const MAGIC: [u8; 4] = [0x7F, b'E', b'L', b'F'];

/// Where the class stands, and after it the data encoding and the version: `EI_CLASS`.
const EI_CLASS: usize = 4;

/// `ELFCLASS32`, `ELFDATA2LSB` and `EV_CURRENT`.
const CLASS: [u8; 3] = [1, 1, 1];

/// `EM_RISCV`.
const RISC_V: u16 = 243;

/// `ET_EXEC`.
const EXECUTABLE: u16 = 2;

/// The bits of `e_flags` for compressed code, floating point and the small register file.
const UNSUPPORTED_FLAGS: u32 = 0x0F;

/// The fields of the ELF header that say where the program starts and where its program headers
/// lie.
#[derive(Clone, Copy)]
pub struct FileHeader {
    pub entry: u32,
    pub phoff: u32,
    pub phnum: u16,
}

impl FileHeader {
    /// How many bytes an ELF header has.
    pub const SIZE: usize = 52;

    /// The most program headers that a file may have here.
    pub const MAX_PROGRAM_HEADERS: u16 = 64;

    /// Reads the header at the beginning of the file.
    #[tactic(auto, using(std::proofs::lemmas::Bool::Decides::nat_tests), unfolding(crate::specs::Faults::first_some))]
    pub fn read(file: &[u8]) -> Result<FileHeader, ElfFault>
        ensures rules { result_err result ≡ first_some (file_header_rules file.now) }
        ensures fields { IfOk result (λ header. header ≡ header_of file.now) }
        ensures table { IfOk result (λ header. header.phoff + 32 * header.phnum ≤ length file.now) }
    {
        check(file.len() >= Self::SIZE, ElfReason::Short, file.len())?;
        check_bytes(file, 0, &MAGIC, ElfReason::Magic)?;
        check_bytes(file, EI_CLASS, &CLASS, ElfReason::Class)?;
        check_kind(file)?;
        let header = FileHeader {
            entry: word_at(file, E_ENTRY),
            phoff: word_at(file, E_PHOFF),
            phnum: half_at(file, E_PHNUM),
        };
        let some = 1..=Self::MAX_PROGRAM_HEADERS;
        check(some.contains(&header.phnum), ElfReason::Segment, E_PHNUM)?;
        let table_end = header.phoff as usize + ProgramHeader::SIZE * header.phnum as usize;
        check(table_end <= file.len(), ElfReason::Short, file.len())?;
        Ok(header)
    }
}

/// Checks that the file is an executable for this machine, with headers of the usual size.
#[tactic(auto, using(std::proofs::lemmas::Bool::Decides::nat_tests), unfolding(crate::specs::Faults::first_some))]
fn check_kind(file: &[u8]) -> Result<(), ElfFault>
    requires { 52 ≤ length file.now }
    ensures { result_err result ≡ first_some (kind_rules file.now) }
{
    let machine = half_at(file, E_MACHINE);
    check(machine == RISC_V, ElfReason::Machine, E_MACHINE)?;
    let file_type = half_at(file, E_TYPE);
    check(file_type == EXECUTABLE, ElfReason::FileType, E_TYPE)?;
    let flags = word_at(file, E_FLAGS);
    check(flags & UNSUPPORTED_FLAGS == 0, ElfReason::Flags, E_FLAGS)?;
    let entry_size = half_at(file, E_PHENTSIZE) as usize;
    check(
        entry_size == ProgramHeader::SIZE,
        ElfReason::Segment,
        E_PHENTSIZE,
    )?;
    Ok(())
}

/// Checks that the bytes from a place on are these.
fn check_bytes(file: &[u8], place: usize, bytes: &[u8], reason: ElfReason) -> Result<(), ElfFault>
    requires { place + length bytes.now ≤ length file.now }
    ensures { result_err result ≡ bytes_are file.now place bytes.now reason }
{
    for (index, byte) in bytes.iter().enumerate() {
        check(file[place + index] == *byte, reason, place + index)?;
    }
    Ok(())
}
