ghost use Rattle.std.specs.Prelude.{◌≡◌, ◌+◌, ◌*◌, ◌^◌, ◌≤◌, ◌<◌, length, find, Some, IfOk, OnOk, OnErr};
ghost use Rattle.std.specs.Option.{option_copied};
ghost use Rattle.std.specs.FinMap as map;
ghost use Rattle.plain_process.specs.Start as start;
ghost use Rattle.elf32.specs.Pages.{page_count};
ghost use Rattle.guest_start.specs.declared.pages.TheConstants.{PROGRAM_PAGES};

use elf32::Segment;
use elf32::page::{is_touched, page_rights};
use guest_mem::{MemFault, Space};
use plain_process::Frame;
use std::alloc::{AllocError, Global};
use sys_abi::Page;

/// Programs lie in the pages below this one.
const PROGRAM_PAGES: u32 = 0x40000;

/// Whether the segment has a byte at the address.
fn is_in(address: u32, segment: &Segment) -> bool
    ensures { result ≡ start.is_in address segment.now }
{
    segment.vaddr <= address && address - segment.vaddr < segment.memsz
}

/// The first segment that has a byte at the address.
fn segment_at(segments: &[Segment], address: u32) -> Option<&Segment>
    ensures { option_copied result ≡ find (start.is_in address) segments.now }
{
    segments.iter().find(|segment| is_in(address, segment))
}

/// The byte of the segments at an address, 0 where none of them has one.
#[tactic(auto, unfolding(plain_process::specs::Start::segment_byte))]
fn segment_byte(segments: &[Segment], address: u32) -> u8
    ensures { result ≡ start.segment_byte segments.now address }
{
    match segment_at(segments, address) {
        None => 0,
        Some(segment) => byte_at(segment, address),
    }
}

fn byte_at(segment: &Segment, address: u32) -> u8
    ensures { result ≡ start.byte_of_segment address (Some segment.now) }
{
    let place = address.saturating_sub(segment.vaddr) as usize;
    let bytes = segment.bytes.as_slice();
    if place < bytes.len() { bytes[place] } else { 0 }
}

/// The content of a page of the program.
fn segment_page(alloc: Global, segments: &[Segment], number: u32) -> Result<Page, AllocError>
    requires { number < 2 ^ 20 }
    ensures { IfOk result (λ page. page ≡ start.segment_bytes segments.now (4096 * number) 4096) }
{
    let mut bytes = Vec::with_capacity(alloc, 4096)?;
    for offset in 0..4096 {
        bytes.push(segment_byte(segments, 4096 * number + offset))?;
    }
    Page::of_slice(alloc, bytes.as_slice())
}

/// Puts a page where there is room for one more.
pub fn insert_page(space: &mut Space, number: u32, frame: Frame) -> Result<(), AllocError>
    requires place { number < 2 ^ 20 }
    requires room { map.len space.old < 2048 }
    ensures page { OnOk result (space.new ≡ map.insert space.old number frame) }
    ensures err { OnErr result (space.new ≡ space.old) }
{
    match space.insert_page(number, frame) {
        Ok(()) => Ok(()),
        Err(MemFault::Memory) => Err(AllocError),
        Err(_) => unreachable!(),
    }
}

/// Puts the pages of the program.
pub fn put_segments(
    alloc: Global,
    space: &mut Space,
    segments: &[Segment],
) -> Result<(), AllocError>
    requires empty { space.old ≡ map.empty }
    requires few { page_count segments.now ≤ 1536 }
    ensures pages { OnOk result (space.new ≡ start.segment_pages segments.now PROGRAM_PAGES) }
    ensures few { OnOk result (map.len space.new ≤ 1536) }
{
    for number in 0..PROGRAM_PAGES {
        if is_touched(segments, number as u64) {
            let frame = segment_frame(alloc, segments, number)?;
            insert_page(space, number, frame)?;
        }
    }
    Ok(())
}

fn segment_frame(alloc: Global, segments: &[Segment], number: u32) -> Result<Frame, AllocError>
    requires { number < 2 ^ 20 }
    ensures { IfOk result (λ frame. frame ≡ start.segment_page segments.now number) }
{
    Ok(Frame {
        rights: page_rights(segments, number as u64),
        page: segment_page(alloc, segments, number)?,
    })
}

/// Puts pages from a number on that hold the content, which fills them.
pub fn put_pages(
    alloc: Global,
    space: &mut Space,
    first: u32,
    count: u32,
    rights: u8,
    content: &[u8],
) -> Result<(), AllocError>
    requires place { first + count ≤ 2 ^ 20 }
    requires room { map.len space.old + count ≤ 2048 }
    requires full { length content.now ≡ 4096 * count }
    ensures pages { OnOk result (space.new ≡ start.with_pages space.old first count rights content.now) }
    ensures room { OnOk result (map.len space.new ≤ map.len space.old + count) }
{
    for index in 0..count {
        let place = 4096 * index as usize;
        let frame = Frame {
            rights,
            page: Page::of_slice(alloc, &content[place..place + 4096])?,
        };
        insert_page(space, first + index, frame)?;
    }
    Ok(())
}
