ghost use Rattle.std.specs.Prelude.{◌≡◌, ◌+◌, ◌≤◌, ◌^◌, ◌==◌, ◌&&◌, ◌%◌, not, nat_le, nat_lt, IfOk, IfSome};
ghost use Rattle.plain_process.specs.Pages.{MAPPING_START as START, MAPPING_END as END};
ghost use Rattle.plain_process.specs.Rows.Mappings as rows;
ghost use Rattle.plain_memory.specs.LocalAnswers.{DoesRow};

use crate::local_answer::LocalAnswer;
use crate::pages::{free_run, has_room, put_pages, remove_pages};
use plain_process::mappings::{pages_of, rights_of};
use plain_process::memory::Frame;
use plain_process::user_part::UserPart;
use std::alloc::{AllocError, Global};
use sys_abi::Errno;
use sys_abi::errors::{EINVAL, ENOMEM};
use views::number_map::NumberMap;

/// The heap ends here at the latest.
const HEAP_END: u32 = 0x4000_0000;

const MAPPING_START: u32 = 0x4000_0000;

const MAPPING_END: u64 = 0x7000_0000;

/// The rights of the heap's pages.
const READ_WRITE: u8 = 6;

/// MAP_PRIVATE and MAP_ANONYMOUS.
const MAP_FLAGS: u32 = 0x22;

/// Puts the heap's pages up to a break, or takes those above it away.
fn heap_to(
    alloc: Global,
    memory: &mut NumberMap<Frame>,
    old: u32,
    new: u32,
) -> Result<(), AllocError>
    requires old { old ≤ 2 ^ 20 }
    requires new { new ≤ 2 ^ 20 }
    ensures { IfOk result (λ done. memory.new ≡ rows.heap_to memory.old old new) }
{
    if old <= new {
        return put_pages(alloc, memory, old, new - old, READ_WRITE);
    }
    remove_pages(memory, new, old - new);
    Ok(())
}

fn is_break(user: &UserPart, address: u32) -> bool
    ensures { result ≡ rows.is_break user.now address }
{
    user.break_start <= address
        && address <= HEAP_END
        && has_room(&user.memory, pages_of(address), pages_of(user.break_end))
}

/// brk: it answers the break.
#[tactic(auto, unfolding(plain_process::specs::Rows::Mappings::brk_row))]
pub fn brk(
    alloc: Global,
    user: &mut UserPart,
    address: u32,
) -> Result<Result<LocalAnswer, Errno>, AllocError>
    ensures { IfOk result (λ attempt. DoesRow user.old user.new (rows.brk_row user.old address) attempt) }
{
    if !is_break(user, address) {
        return Ok(Ok(LocalAnswer::Value(user.break_end)));
    }
    let old = pages_of(user.break_end);
    heap_to(alloc, &mut user.memory, old, pages_of(address))?;
    user.break_end = address;
    Ok(Ok(LocalAnswer::Value(address)))
}

fn is_unmapping(address: u32, length: u32) -> bool
    ensures { result ≡ ((address % 4096 == 0) && not (length == 0) && nat_le START address && nat_le (address + length) END) }
{
    address % 4096 == 0
        && length != 0
        && MAPPING_START <= address
        && address as u64 + length as u64 <= MAPPING_END
}

/// munmap: it answers 0.
#[tactic(auto, unfolding(plain_process::specs::Rows::Mappings::munmap_row, plain_process::specs::Attempts::and_then, plain_process::specs::Attempts::need))]
pub fn munmap(user: &mut UserPart, address: u32, length: u32) -> Result<LocalAnswer, Errno>
    ensures { DoesRow user.old user.new (rows.munmap_row user.old address length) result }
{
    if !is_unmapping(address, length) {
        return Err(Errno(EINVAL));
    }
    remove_pages(&mut user.memory, address / 4096, pages_of(length));
    Ok(LocalAnswer::Value(0))
}

fn is_mapping(length: u32, protection: u32, flags: u32) -> bool
    ensures { result ≡ ((flags == rows.MAP_FLAGS) && not (length == 0) && nat_lt protection 8) }
{
    flags == MAP_FLAGS && length != 0 && protection < 8
}

/// The lowest page at which so many more pages find a place.
fn room_for(memory: &NumberMap<Frame>, count: u32) -> Option<u32>
    ensures room { result ≡ rows.room_for memory.now count }
    ensures place { IfSome result (λ page. page + count ≤ 458752) }
{
    if has_room(memory, count, 0) {
        free_run(memory, count)
    } else {
        None
    }
}

/// mmap: it answers where the mapping lies.
#[tactic(auto, unfolding(plain_process::specs::Rows::Mappings::mmap_row, plain_process::specs::Attempts::and_then, plain_process::specs::Attempts::need, plain_process::specs::Attempts::found))]
pub fn mmap(
    alloc: Global,
    user: &mut UserPart,
    length: u32,
    protection: u32,
    flags: u32,
) -> Result<Result<LocalAnswer, Errno>, AllocError>
    ensures { IfOk result (λ attempt. DoesRow user.old user.new (rows.mmap_row user.old length protection flags) attempt) }
{
    if !is_mapping(length, protection, flags) {
        return Ok(Err(Errno(EINVAL)));
    }
    let count = pages_of(length);
    let Some(page) = room_for(&user.memory, count) else {
        return Ok(Err(Errno(ENOMEM)));
    };
    let rights = rights_of(protection);
    put_pages(alloc, &mut user.memory, page, count, rights)?;
    Ok(Ok(LocalAnswer::Value(4096 * page)))
}
