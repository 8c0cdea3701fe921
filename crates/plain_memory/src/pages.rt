ghost use Rattle.std.specs.Prelude.{◌≡◌, ◌+◌, ◌-◌, ◌≤◌, ◌^◌, [], nat_le, IfOk, IfSome};
ghost use Rattle.std.specs.FinMap as map;
ghost use Rattle.views.specs.Limits as limits;
ghost use Rattle.plain_process.specs.Pages as words;
ghost use Rattle.plain_process.specs.Start.{with_pages};

use plain_process::memory::Frame;
use std::alloc::{AllocError, Global};
use sys_abi::Page;
use views::number_map::NumberMap;

/// How many pages a process has at most.
const PAGE_LIMIT: u64 = 2048;

/// The first page of mappings.
const FIRST_PAGE: u32 = 0x4_0000;

/// How many pages lie between the start of mappings and their end, and one more.
const PLACES: u32 = 0x3_0001;

/// Whether the pages are at most so many as a process may have, after these were added and those removed.
pub fn has_room(memory: &NumberMap<Frame>, added: u32, removed: u32) -> bool
    ensures { result ≡ nat_le (map.len memory.now + added - removed) limits.PAGE_LIMIT }
{
    memory.len() as u128 + added as u128 <= PAGE_LIMIT as u128 + removed as u128
}

/// Puts so many pages of zeros from a number on.
pub fn put_pages(
    alloc: Global,
    memory: &mut NumberMap<Frame>,
    first: u32,
    count: u32,
    rights: u8,
) -> Result<(), AllocError>
    requires { first + count ≤ 2 ^ 32 }
    ensures { IfOk result (λ done. memory.new ≡ with_pages memory.old first count rights []) }
{
    for i in 0..count {
        let page = Page::zeroed(alloc)?;
        memory.insert(first + i, Frame { rights, page })?;
    }
    Ok(())
}

/// Takes so many pages away from a number on.
pub fn remove_pages(memory: &mut NumberMap<Frame>, first: u32, count: u32)
    requires { first + count ≤ 2 ^ 32 }
    ensures { memory.new ≡ words.without_pages memory.old first count }
{
    for i in 0..count {
        memory.remove(first + i);
    }
}

/// Whether none of the pages is there.
fn is_free(memory: &NumberMap<Frame>, first: u32, count: u32) -> bool
    requires { first + count ≤ 2 ^ 32 }
    ensures { result ≡ words.is_free memory.now first count }
{
    for i in 0..count {
        if memory.contains_key(first + i) {
            return false;
        }
    }
    true
}

/// The lowest run of so many pages for a mapping.
pub fn free_run(memory: &NumberMap<Frame>, count: u32) -> Option<u32>
    ensures run { result ≡ words.free_run memory.now count }
    ensures place { IfSome result (λ page. page + count ≤ 458752) }
{
    let places = PLACES.saturating_sub(count);
    for i in 0..places {
        if is_free(memory, FIRST_PAGE + i, count) {
            return Some(FIRST_PAGE + i);
        }
    }
    None
}
