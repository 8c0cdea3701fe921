//! brk, munmap and mmap (`man 2 brk`, `man 2 mmap`).
ghost use Rattle.std.specs.Prelude.{◌≡◌, ◌≢◌, ◌+◌, ◌-◌, ◌≤◌, ◌<◌, ◌^◌, ◌==◌, ◌&&◌, ◌%◌, not, nat_le, nat_lt, Err, IfSome, OnOk, OnErr};
ghost use Rattle.std.specs.FinMap as map;
ghost use Rattle.views.specs.Limits as limits;
ghost use Rattle.plain_process.specs.Pages as words;
ghost use Rattle.plain_process.specs.Pages.{MAPPING_START as START, MAPPING_END as END, IsFree};
ghost use Rattle.plain_process.specs.Rows.Mappings as rows;
ghost use Rattle.plain_process.specs.declared.user_part.UserPart.{UserPart};
ghost use Rattle.process_memory.specs.Local.{DoesRow, value_told};
ghost use Rattle.process_memory.specs.MemoryParts.{with_memory_part};

use crate::local_fault::{INVALID, LocalFault};
use crate::memory::ProcessMemory;
use guest_mem::Space;
use guest_mem::space::PAGE_LIMIT;
use plain_process::mappings::{pages_of, rights_of};
use std::alloc::{AllocError, Global};
use sys_abi::Errno;
use sys_abi::errors::ENOMEM;

/// The heap ends here at the latest.
const HEAP_END: u32 = 0x4000_0000;

const MAPPING_START: u32 = 0x4000_0000;

const MAPPING_END: u64 = 0x7000_0000;

/// What a page of the heap can be used for.
const READ_WRITE: u8 = 6;

/// MAP_PRIVATE and MAP_ANONYMOUS.
const MAP_FLAGS: u32 = 0x22;

/// Puts the heap's pages up to a break, or takes those above it away. After a failed allocation all is as
/// before.
fn heap_to(alloc: Global, space: &mut Space, old: u32, new: u32) -> Result<(), AllocError>
    requires old { old ≤ 2 ^ 20 }
    requires new { new ≤ 2 ^ 20 }
    requires room { map.len space.old + new - old ≤ PAGE_LIMIT }
    ensures ok { OnOk result (space.new ≡ rows.heap_to space.old old new) }
    ensures err { OnErr result (space.new ≡ space.old) }
{
    if old <= new {
        return space.put_zeroed(alloc, old, new - old, READ_WRITE);
    }
    space.unmap(new, old - new);
    Ok(())
}

/// The lowest page at which so many more pages find a place.
fn room_for(space: &Space, count: u32) -> Option<u32>
    ensures room { result ≡ rows.room_for space.now count }
    ensures free { IfSome result (λ page. IsFree space.now page count) }
    ensures place { IfSome result (λ page. page + count ≤ 458752) }
    ensures few { IfSome result (λ page. map.len space.now + count ≤ PAGE_LIMIT) }
{
    if space.len() + count as usize <= PAGE_LIMIT {
        space.free_run(count)
    } else {
        None
    }
}

fn is_unmapping(address: u32, length: u32) -> bool
    ensures { result ≡ ((address % 4096 == 0) && not (length == 0) && nat_le START address && nat_le (address + length) END) }
{
    address % 4096 == 0
        && length != 0
        && MAPPING_START <= address
        && address as u64 + length as u64 <= MAPPING_END
}

fn is_mapping(length: u32, protection: u32, flags: u32) -> bool
    ensures { result ≡ ((flags == rows.MAP_FLAGS) && not (length == 0) && nat_lt protection 8) }
{
    flags == MAP_FLAGS && length != 0 && protection < 8
}

impl ProcessMemory {
    /// Whether the break can stand at an address.
    fn is_break(&self, address: u32) -> bool
        ensures { result ≡ (nat_le self.now.break_start address && nat_le address 0x40000000
            && nat_le (map.len self.now.pages + words.pages_of address - words.pages_of self.now.break_end)
            limits.PAGE_LIMIT) }
    {
        let pages = self.ram.space.len() + pages_of(address) as usize;
        self.break_start <= address
            && address <= HEAP_END
            && pages.saturating_sub(pages_of(self.break_end) as usize) <= PAGE_LIMIT
    }

    /// brk: it answers where the break stands then: at the address, unless that is no break.
    #[tactic(auto, unfolding(plain_process::specs::Rows::Mappings::brk_row))]
    pub fn brk(&mut self, alloc: Global, address: u32) -> Result<u32, LocalFault>
        ensures { (user : UserPart) → DoesRow value_told
            (with_memory_part user self.old) (with_memory_part user self.new)
            (rows.brk_row (with_memory_part user self.old) address) result }
    {
        if !self.is_break(address) {
            return Ok(self.break_end);
        }
        let old = pages_of(self.break_end);
        let Ok(()) = heap_to(alloc, &mut self.ram.space, old, pages_of(address)) else {
            return Err(LocalFault::Memory);
        };
        self.break_end = address;
        Ok(address)
    }

    /// munmap: it answers 0.
    #[tactic(auto, unfolding(plain_process::specs::Rows::Mappings::munmap_row, plain_process::specs::Attempts::and_then, plain_process::specs::Attempts::need))]
    pub fn munmap(&mut self, address: u32, length: u32) -> Result<u32, LocalFault>
        ensures row { (user : UserPart) → DoesRow value_told
            (with_memory_part user self.old) (with_memory_part user self.new)
            (rows.munmap_row (with_memory_part user self.old) address length) result }
        ensures memory { result ≢ Err LocalFault.Memory }
    {
        if !is_unmapping(address, length) {
            return Err(INVALID);
        }
        self.ram.space.unmap(address / 4096, pages_of(length));
        Ok(0)
    }

    /// mmap: it answers the first address of the mapping.
    #[tactic(auto, unfolding(plain_process::specs::Rows::Mappings::mmap_row, plain_process::specs::Attempts::and_then, plain_process::specs::Attempts::need, plain_process::specs::Attempts::found))]
    pub fn mmap(&mut self, length: u32, protection: u32, flags: u32) -> Result<u32, LocalFault>
        ensures { (user : UserPart) → DoesRow value_told
            (with_memory_part user self.old) (with_memory_part user self.new)
            (rows.mmap_row (with_memory_part user self.old) length protection flags) result }
    {
        if !is_mapping(length, protection, flags) {
            return Err(INVALID);
        }
        let count = pages_of(length);
        let Some(page) = room_for(&self.ram.space, count) else {
            return Err(LocalFault::Refused(Errno(ENOMEM)));
        };
        let rights = rights_of(protection);
        let Ok(()) = self.ram.space.map_in_room(page, count, rights) else {
            return Err(LocalFault::Memory);
        };
        Ok(4096 * page)
    }
}
