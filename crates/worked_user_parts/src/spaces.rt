// What no clause can say: that calls succeed with memory to spare. The expected values are worked by hand
// from the little-endian order of the RISC-V unprivileged manual, section 2.6.
ghost use Rattle.std.specs.Prelude.{◌+◌, ◌<◌, ◌≤◌, ◌^◌, IsTrue};

use crate::asserts::all;
use guest_mem::space::PAGE_LIMIT;
use guest_mem::{MemFault, Space};
use plain_process::{Frame, Right};
use std::alloc::Global;
use std::process::Abort;
use std::test::Fail;
use sys_abi::transfer::TRANSFER_LIMIT;
use sys_abi::{Page, Transfer};

type Answer = Result<(), MemFault>;

/// A call of a space, and what it answers.
enum Step {
    /// A zeroed page at a number, with these rights.
    Put(u32, u8, Answer),
    /// So many pages from one on, all of which are free.
    Map(u32, u32, u8, Answer),
    PutZeroed(u32, u32, u8),
    Unmap(u32, u32),
    Remove(u32),
    StoreByte(u32, u32, Answer),
    StoreWord(u32, u32, Answer),
    CopyIn(u32, &'static [u8], Answer),
    CopyOut(u32, &'static [u8]),
    Own(u32, u32, Answer),
    LoadByte(u32, Result<u32, MemFault>),
    LoadHalf(u32, Result<u32, MemFault>),
    LoadWord(u32, Result<u32, MemFault>),
    Fetch(u32, Result<u32, MemFault>),
    ByteWith(Right, u32, Option<u8>),
    IsWritable(u32, u32, bool),
    IsReadable(u32, u32, bool),
    Len(usize),
    IsEmpty,
    Contains(u32, bool),
    NoPage(u32),
    Next(Option<u32>, Option<u32>),
}

/// Whether there are so many page numbers from one on.
fn are_numbers(page: u32, count: u32) -> bool
    ensures { IsTrue result → page + count ≤ 2 ^ 20 }
{
    page <= 1 << 20 && count <= (1 << 20) - page
}

/// Puts a zeroed page at a number.
fn put_page(alloc: Global, space: &mut Space, number: u32, rights: u8) -> Answer
    requires { number < 2 ^ 20 }
{
    let page = Page::zeroed(alloc)?;
    space.insert_page(number, Frame { rights, page })
}

/// Whether the pages are free, and are mapped with this answer.
fn maps(space: &mut Space, page: u32, count: u32, rights: u8, answer: Answer) -> bool {
    rights < 8
        && are_numbers(page, count)
        && space.is_free(page, count)
        && space.map(page, count, rights) == answer
}

fn puts_zeroed(alloc: Global, space: &mut Space, page: u32, count: u32, rights: u8) -> bool {
    rights < 8
        && are_numbers(page, count)
        && count as usize <= PAGE_LIMIT - space.len()
        && space.put_zeroed(alloc, page, count, rights).is_ok()
}

fn unmaps(space: &mut Space, page: u32, count: u32) -> bool {
    if !are_numbers(page, count) {
        return false;
    }
    space.unmap(page, count);
    true
}

/// Whether the piece stands at an address.
fn copies_out(alloc: Global, space: &Space, address: u32, piece: &[u8]) -> bool {
    let Ok(mut transfer) = Transfer::new(alloc) else {
        return false;
    };
    piece.len() <= TRANSFER_LIMIT
        && space.copy_out(address, &mut transfer, piece.len() as u32) == Ok(())
        && transfer.as_slice() == piece
}

/// Whether the call answers so.
fn answers(alloc: Global, space: &mut Space, step: &Step) -> bool {
    match *step {
        Step::Put(number, rights, answer) => {
            number < 1 << 20 && put_page(alloc, space, number, rights) == answer
        }
        Step::Map(page, count, rights, answer) => maps(space, page, count, rights, answer),
        Step::PutZeroed(page, count, rights) => puts_zeroed(alloc, space, page, count, rights),
        Step::Unmap(page, count) => unmaps(space, page, count),
        Step::Remove(page) => {
            space.remove_page(page);
            true
        }
        Step::StoreByte(address, value, answer) => space.store(address, 1, value) == answer,
        Step::StoreWord(address, value, answer) => space.store(address, 4, value) == answer,
        Step::CopyIn(address, piece, answer) => space.copy_in(address, piece) == answer,
        Step::CopyOut(address, piece) => copies_out(alloc, space, address, piece),
        Step::Own(address, n, answer) => space.own_pages(address, n) == answer,
        _ => shows(space, step),
    }
}

/// Whether a call that changes nothing answers so.
fn shows(space: &Space, step: &Step) -> bool {
    match *step {
        Step::LoadByte(address, answer) => space.load(address, 1) == answer,
        Step::LoadHalf(address, answer) => space.load(address, 2) == answer,
        Step::LoadWord(address, answer) => space.load(address, 4) == answer,
        Step::Fetch(address, answer) => space.fetch(address) == answer,
        Step::ByteWith(right, address, answer) => space.byte_with(right, address) == answer,
        Step::IsWritable(address, n, answer) => space.is_writable(address, n) == answer,
        Step::IsReadable(address, n, answer) => space.is_readable(address, n) == answer,
        Step::Len(count) => space.len() == count,
        Step::IsEmpty => space.is_empty(),
        Step::Contains(page, answer) => space.contains_page(page) == answer,
        Step::NoPage(page) => space.page(page).is_none(),
        Step::Next(above, answer) => space.next_page(above) == answer,
        _ => false,
    }
}

/// How many calls answer so, up to the first that doesn't.
fn answered(alloc: Global, space: &mut Space, steps: &[Step]) -> usize {
    for (place, step) in steps.iter().enumerate() {
        if !answers(alloc, space, step) {
            return place;
        }
    }
    steps.len()
}

/// Each call of the space answers so.
fn go_on(rt: &(impl Abort + AllocGlobal), space: &mut Space, steps: &[Step]) {
    all(rt, answered(rt.alloc(), space, steps), steps.len());
}

/// Each call of a new space answers so.
fn follow(rt: &(impl Abort + AllocGlobal), steps: &[Step]) {
    let mut space = Space::new(rt.alloc());
    go_on(rt, &mut space, steps);
}

static PAST_THE_LAST_PAGE: [Step; 13] = [
    Step::Put(0x10, 6, Ok(())),
    Step::StoreWord(0x10FFC, 0x0403_0201, Ok(())),
    Step::StoreWord(0x10FFE, 0x0807_0605, Err(MemFault::Unmapped)),
    Step::LoadWord(0x10FFC, Ok(0x0403_0201)),
    Step::LoadWord(0xFFFF_FFFE, Err(MemFault::Unmapped)),
    Step::Fetch(0x10FFC, Err(MemFault::Rights)),
    Step::Put(0x11, 7, Ok(())),
    Step::StoreWord(0x10FFE, 0x0807_0605, Ok(())),
    Step::LoadWord(0x10FFE, Ok(0x0807_0605)),
    Step::LoadHalf(0x10FFF, Ok(0x0706)),
    Step::LoadByte(0x11001, Ok(0x08)),
    Step::Fetch(0x11000, Ok(0x0807)),
    Step::ByteWith(Right::Execute, 0x10FFF, None),
];

#[test]
fn a_store_past_the_last_page_writes_nothing(rt: HostRuntime) {
    follow(&rt, &PAST_THE_LAST_PAGE);
}

/// The space is filled with as many pages as there may be, the last ones.
static ROOM: [Step; 15] = [
    Step::IsEmpty,
    Step::Map(0, 2049, 6, Err(MemFault::Full)),
    Step::Map(0xFF800, 2048, 6, Ok(())),
    Step::Put(7, 4, Err(MemFault::Full)),
    Step::Unmap(0xFF000, 0x801),
    Step::Len(2047),
    Step::Next(None, Some(0xFF801)),
    Step::Put(7, 4, Ok(())),
    Step::Next(Some(7), Some(0xFF801)),
    Step::Remove(7),
    Step::Contains(7, false),
    Step::Map(7, 2, 6, Err(MemFault::Full)),
    Step::Map(7, 1, 6, Ok(())),
    Step::Len(2048),
    Step::LoadWord(0xFFFF_FFFC, Ok(0)),
];

#[test]
fn a_space_has_room_for_2048_pages(rt: HostRuntime) {
    follow(&rt, &ROOM);
}

const PIECE: [u8; 5000] = [0x5A; 5000];

static COPIED: [Step; 2] = [
    Step::Map(0x20, 3, 6, Ok(())),
    Step::CopyIn(0x20FFF, &PIECE, Ok(())),
];

static AFTER_THE_CLONE: [Step; 5] = [
    Step::StoreByte(0x20FFF, 0, Ok(())),
    Step::CopyIn(0x22FFF, b"no", Err(MemFault::Unmapped)),
    Step::Own(0x20000, 0x3000, Ok(())),
    Step::IsWritable(0x20000, 0x3000, true),
    Step::IsReadable(0x1FFFF, 2, false),
];

/// The clone holds the whole piece.
static CLONE: [Step; 3] = [
    Step::CopyOut(0x20FFF, &PIECE),
    Step::LoadHalf(0x22386, Ok(0x5A)),
    Step::NoPage(0x23),
];

#[test]
fn copies_meet_many_pages(rt: HostRuntime) -> Result<(), Fail> {
    let mut space = Space::new(rt.alloc());
    go_on(&rt, &mut space, &COPIED);
    let mut clone = space.try_clone(rt.alloc())?;
    go_on(&rt, &mut space, &AFTER_THE_CLONE);
    go_on(&rt, &mut clone, &CLONE);
    Ok(())
}

static ZEROED: [Step; 12] = [
    Step::Map(0x20, 2, 4, Ok(())),
    Step::Len(2),
    Step::PutZeroed(0x22, 1, 6),
    Step::StoreWord(0x22FFC, 0x0403_0201, Ok(())),
    Step::StoreWord(0x21FFC, 1, Err(MemFault::Rights)),
    Step::Len(3),
    Step::PutZeroed(0x21, 3, 6),
    Step::Len(4),
    Step::LoadWord(0x22FFC, Ok(0)),
    Step::StoreWord(0x21FFC, 0x0807_0605, Ok(())),
    Step::LoadWord(0x21FFC, Ok(0x0807_0605)),
    Step::StoreWord(0x20FFC, 1, Err(MemFault::Rights)),
];

#[test]
fn zeroed_pages_come_in_the_place_of_those_that_stand(rt: HostRuntime) {
    follow(&rt, &ZEROED);
}

/// Pages 0x20 and 0x21 may be written, page 0x22 only read, and the last page of all may be written. A row
/// that owns pages says what comes of it.
static RANGES: [Step; 29] = [
    Step::Put(0x20, 6, Ok(())),
    Step::Put(0x21, 2, Ok(())),
    Step::Put(0x22, 4, Ok(())),
    Step::Put(0xFFFFF, 6, Ok(())),
    Step::Own(0x20000, 0x1000, Ok(())),
    Step::Own(0x20000, 0x2000, Ok(())),
    Step::Own(0x20FFF, 1, Ok(())),
    Step::Own(0x20FFF, 2, Ok(())),
    Step::Own(0x21FFF, 1, Ok(())),
    Step::Own(0x30000, 0, Ok(())),
    Step::Own(0xFFFF_F000, 0x1000, Ok(())),
    Step::Own(0xFFFF_FFFF, 1, Ok(())),
    Step::Own(0x20000, 0x2001, Err(MemFault::Rights)),
    Step::Own(0x21FFF, 2, Err(MemFault::Rights)),
    Step::Own(0x22000, 1, Err(MemFault::Rights)),
    Step::Own(0x22FFF, 1, Err(MemFault::Rights)),
    Step::Own(0x22FFF, 2, Err(MemFault::Unmapped)),
    Step::Own(0x20000, 0x3001, Err(MemFault::Unmapped)),
    Step::Own(0x1FFFF, 1, Err(MemFault::Unmapped)),
    Step::Own(0x1FFFF, 2, Err(MemFault::Unmapped)),
    Step::Own(0xFFFF_FFFF, 2, Err(MemFault::Unmapped)),
    Step::Own(0xFFFF_F000, 0x1001, Err(MemFault::Unmapped)),
    Step::Own(0x20000, 0xFFFF_FFFF, Err(MemFault::Unmapped)),
    Step::Own(1, 0xFFFF_FFFF, Err(MemFault::Unmapped)),
    Step::StoreWord(0xFFFF_FFFD, 1, Err(MemFault::Unmapped)),
    Step::LoadWord(0xFFFF_FFFC, Ok(0)),
    Step::LoadWord(0xFFFF_FFFD, Err(MemFault::Unmapped)),
    Step::Unmap(0, 1 << 20),
    Step::IsEmpty,
];

#[test]
fn a_range_is_owned_up_to_its_last_byte(rt: HostRuntime) {
    follow(&rt, &RANGES);
}
