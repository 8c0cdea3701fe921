ghost use Rattle.std.specs.Prelude.{◌≡◌, ℕ, ◌+◌, ◌*◌, ◌<◌, ◌≤◌, ◌++◌, ◌⊎◌, length, IsTrue, All, AllPairs, IfOk, OnOk, IfErr, None, Some};
ghost use Rattle.elf32.specs.Faults.{first_some, no_memory, Reports};
ghost use Rattle.elf32.specs.FileHeader.{header_of, e_phnum};
ghost use Rattle.elf32.specs.Pages.{page_count};
ghost use Rattle.elf32.specs.ProgramHeaders.{segments_before, segments_of, header_at};
ghost use Rattle.elf32.specs.Programs.{program_of, IsWellPlaced, IsApart};
ghost use Rattle.elf32.specs.Rules.{first_fault, program_header_rules, rules_at, is_entry};

use crate::fault::{ElfFault, ElfReason, check};
use crate::file_header::{E_ENTRY, FileHeader};
use crate::layout::Layout;
use crate::page::{PAGE_SIZE, page_rights};
use crate::program::{Program, Segment};
use crate::program_header::ProgramHeader;
use std::alloc::Global;
use views::list_of::ListOf;

/// The program that the bytes of a file describe.
///
/// # Errors
///
/// The first rule of the format that the file breaks, or `Memory`, which may come in place of any
/// other answer.
pub fn read_elf(alloc: Global, bytes: &[u8]) -> Result<Program, ElfFault>
    ensures rules { Reports result (first_fault bytes.now) }
    ensures program { IfOk result (λ program. program ≡ program_of bytes.now) }

    // What follows for each program that is read.
    ensures placed { IfOk result (λ program. All IsWellPlaced program.segments) }
    ensures apart { IfOk result (λ program. AllPairs IsApart program.segments) }
    ensures pages { IfOk result (λ program. page_count program.segments ≤ 1536) }
    ensures entry { IfOk result (λ program. IsTrue (is_entry program.entry program.segments)) }
{
    let header = FileHeader::read(bytes)?;
    let segments = read_segments(alloc, bytes, header)?;
    let starts = is_entry(header.entry, segments.as_slice());
    check(starts, ElfReason::Segment, E_ENTRY)?;
    Ok(Program {
        entry: header.entry,
        segments,
    })
}

/// The segments that the program headers of the file describe.
fn read_segments(
    alloc: Global,
    file: &[u8],
    header: FileHeader,
) -> Result<ListOf<Segment>, ElfFault>
    requires fields { header ≡ header_of file.now }
    requires table { header.phoff + 32 * header.phnum ≤ length file.now }
    ensures rules { Reports result (first_some (program_header_rules file.now header.phnum)) }
    ensures segments { IfOk result (λ segments. segments ≡ segments_before file.now header.phnum) }
{
    let mut layout = Layout::new(alloc);
    for index in 0..header.phnum as usize {
        let place = header.phoff as usize + ProgramHeader::SIZE * index;
        layout.add(alloc, file, place)?;
    }
    Ok(layout.segments)
}

/// Whether a program of these segments may start at this address.
fn is_entry(address: u32, segments: &[Segment]) -> bool
    ensures { result ≡ is_entry address segments.now }
{
    let rights = page_rights(segments, u64::from(address) / PAGE_SIZE);
    address % 4 == 0 && rights & Segment::EXECUTE == Segment::EXECUTE
}
