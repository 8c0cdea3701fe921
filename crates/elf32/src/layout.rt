ghost use Rattle.std.specs.Prelude.{◌≡◌, ◌+◌, ◌∷◌, ◌++◌, ◌^◌, ◌<◌, ◌≤◌, false, true, IfOk, OnOk, length, []};
ghost use Rattle.std.specs.List.{list_any};
ghost use Rattle.std.specs.Result.{result_err};
ghost use Rattle.elf32.specs.declared.program.Segment.{Segment};
ghost use Rattle.elf32.specs.Pages.{range_of, page_count, untouched};
ghost use Rattle.elf32.specs.Ranges.{meets};

use crate::fault::{ElfFault, ElfReason, check};
use crate::page::{PAGE_SIZE, is_touched};
use crate::program::Segment;
use crate::program_header::ProgramHeader;
use crate::range::AddressRange;
use std::alloc::Global;
use views::list_of::ListOf;

/// How many pages the segments of a program may touch.
const MAX_PAGES: u64 = 1536;

/// The segments read so far, which keep the rules, and how many pages they touch.
#[derive(Drop)]
pub struct Layout {
    pub segments: ListOf<Segment>,
    pages: u64,
    ghost counted: { pages ≡ page_count segments },
    ghost within: { pages ≤ 1536 },
}

impl Layout {
    ghost use Rattle.elf32.specs.Faults.{first_some, Reports};
    ghost use Rattle.elf32.specs.ProgramHeaders.{describes_memory, header_at, segment_of, segments_of};
    ghost use Rattle.elf32.specs.Rules.{memory_rules, rules_at};

    pub fn new(alloc: Global) -> Self
        ensures { result.segments ≡ [] }
    {
        Layout {
            segments: ListOf::new(alloc),
            pages: 0,
        }
    }

    /// Adds what the program header at this place of the file describes, if it keeps the rules
    /// beside the headers before it.
    pub fn add(&mut self, alloc: Global, file: &[u8], place: usize) -> Result<(), ElfFault>
        requires { place + 32 ≤ length file.now }
        ensures rules { Reports result (first_some (rules_at file.now self.old.segments place (header_at file.now place))) }
        ensures added { OnOk result (self.new.segments ≡ self.old.segments ++ segments_of file.now (header_at file.now place)) }
    {
        let header = ProgramHeader::at(file, place);
        let pages = self.pages_with(file, place, &header)?;
        if header.describes_memory() {
            self.segments.push(header.segment(alloc, file)?)?;
            self.pages = pages;
        }
        Ok(())
    }

    /// How many pages there are with what the header at this place describes.
    #[tactic(auto, unfolding(crate::specs::Faults::first_some, crate::specs::Rules::rules_at))]
    fn pages_with(&self, file: &[u8], place: usize, header: &ProgramHeader) -> Result<u64, ElfFault>
        ensures rules { result_err result ≡ first_some (rules_at file.now self.now.segments place header.now) }
        ensures pages { IfOk result (λ pages. pages ≡ page_count (self.now.segments ++ segments_of file.now header.now)) }
        ensures within { IfOk result (λ pages. pages ≤ 1536) }
        ensures bytes { OnOk result (describes_memory header.now ≡ true → header.now.offset + header.now.filesz ≤ length file.now) }
    {
        check(!header.kind.is_dynamic(), ElfReason::Dynamic, place)?;
        if header.describes_memory() {
            self.pages_with_memory(file, place, header)
        } else {
            Ok(self.pages)
        }
    }

    /// How many pages there are with the memory that the header at this place describes.
    #[tactic(auto, using(std::proofs::lemmas::Bool::Decides::nat_tests), unfolding(crate::specs::Faults::first_some, crate::specs::Rules::memory_rules))]
    fn pages_with_memory(
        &self,
        file: &[u8],
        place: usize,
        header: &ProgramHeader,
    ) -> Result<u64, ElfFault>
        requires { 0 < header.now.memsz }
        ensures rules { result_err result ≡ first_some (memory_rules file.now self.now.segments place header.now) }
        ensures pages { IfOk result (λ pages. pages ≡ page_count (self.now.segments ++ segment_of file.now header.now ∷ [])) }
        ensures within { IfOk result (λ pages. pages ≤ 1536) }
        ensures bytes { OnOk result (header.now.offset + header.now.filesz ≤ length file.now) }
    {
        let memory = header.memory();
        check(header.is_well_placed(file), ElfReason::Segment, place)?;
        let segments = self.segments.as_slice();
        check(!meets_any(segments, memory), ElfReason::Overlap, place)?;
        let pages = self.pages + new_pages(segments, memory);
        check(pages <= MAX_PAGES, ElfReason::TooLarge, place)?;
        Ok(pages)
    }
}

/// Whether some of the segments share an address with the memory.
fn meets_any(segments: &[Segment], memory: AddressRange) -> bool
    ensures { result ≡ list_any (λ s. meets (range_of s) memory) segments.now }
{
    segments
        .iter()
        .any(|segment| segment.memory().meets(memory))
}

/// How many pages the memory is in that none of the segments touches.
fn new_pages(segments: &[Segment], memory: AddressRange) -> u64
    requires some { memory.start < memory.end }
    requires within { memory.end ≤ 0x4000_0000 }
    requires apart { list_any (λ s. meets (range_of s) memory) segments.now ≡ false }
    ensures counted { (segment : Segment) → range_of segment ≡ memory → page_count (segments.now ++ segment ∷ []) ≡ page_count segments.now + result }
    ensures bound { result ≤ 2 ^ 18 }
{
    let first = memory.start / PAGE_SIZE;
    let last = (memory.end - 1) / PAGE_SIZE;
    if first == last {
        return untouched(segments, first);
    }
    // The pages between are full of the memory, so nothing that is apart from it is in them.
    untouched(segments, first) + (last - first - 1) + untouched(segments, last)
}

/// 1 where none of the segments touches the page, else 0.
fn untouched(segments: &[Segment], page: u64) -> u64
    requires { page < 2 ^ 20 }
    ensures { result ≡ untouched segments.now page }
{
    if is_touched(segments, page) { 0 } else { 1 }
}
