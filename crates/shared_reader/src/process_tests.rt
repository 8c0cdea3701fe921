// The tests of the fields of processes, each after the fields before it.
ghost use Rattle.std.specs.Prelude.{◌≡◌, ◌==◌, ◌||◌, OnOk, is_some};
ghost use Rattle.std.specs.FinMap as map;
ghost use Rattle.std.specs.List.{list_any};
ghost use Rattle.shared_items.specs.SharedTests as field;
ghost use Rattle.shared_items.specs.RisingLists.{ChannelsRise, DescriptionsRise, ProcessesRise};
ghost use Rattle.shared_items.specs.Keys.{HasKeys};
ghost use Rattle.shared_reader.specs.KnownThreads.{KnowsThreads};

use shared_items::found::process_of;
use shared_items::made::is_made;
use shared_items::{ChannelImage, DescriptionImage, DescriptorEntry, ProcessEntry, ThreadEntry};
use std::alloc::AllocError;
use sys_abi::Life;
use views::number_map::NumberMap;

/// The least number of a process or a thread.
const FIRST_PID: u32 = 40_000;

/// The parent of a process without one.
const NOBODY: u32 = 1;

/// A process lives (0) or is a zombie (1).
const LAST_STATE: u8 = 1;

const PROCESS_LIMIT: u32 = 128;

const THREAD_LIMIT: u32 = 64;

pub fn is_process_count(n: u32) -> bool
    ensures { result ≡ field.is_process_count n }
{
    n <= PROCESS_LIMIT
}

pub fn is_given_out(next_id: u32, n: u32) -> bool
    ensures { result ≡ field.is_given_out next_id n }
{
    FIRST_PID <= n && n < next_id
}

pub fn is_next_id(n: u32) -> bool
    ensures { result ≡ field.is_next_id n }
{
    FIRST_PID <= n && n < 1 << 31
}

pub fn is_pending_set(life: Life, n: u32) -> bool
    ensures { result ≡ field.is_pending_set life n }
{
    n < 1 << 31 && (life.is_live() || n == 0)
}

pub fn is_thread_count(life: Life, n: u32) -> bool
    ensures { result ≡ field.is_thread_count life n }
{
    if life.is_live() {
        1 <= n && n <= THREAD_LIMIT
    } else {
        n == 0
    }
}

pub fn is_descriptor_count(life: Life, n: u32) -> bool
    ensures { result ≡ field.is_descriptor_count life n }
{
    n <= 256 && (life.is_live() || n == 0)
}

fn is_alive(processes: &[ProcessEntry], n: u32) -> bool
    requires { ProcessesRise processes.now }
    ensures { result ≡ list_any (field.is_live_entry n) processes.now }
{
    match process_of(processes, n) {
        None => false,
        Some(process) => process.life.is_live(),
    }
}

pub fn is_parent(front: &[ProcessEntry], n: u32) -> bool
    requires { ProcessesRise front.now }
    ensures { result ≡ field.is_parent front.now n }
{
    n == NOBODY || is_alive(front, n)
}

/// Whether the state may be that of a process of this number: one that lives has given out no greater number,
/// and a zombie has a parent.
pub fn is_state(
    channels: &[ChannelImage],
    descriptions: &[DescriptionImage],
    pid: u32,
    parent: u32,
    made: u32,
    state: u8,
) -> bool
    requires channels { ChannelsRise channels.now }
    requires descriptions { DescriptionsRise descriptions.now }
    ensures { result ≡ field.is_state channels.now descriptions.now pid parent made state }
{
    if state > LAST_STATE {
        return false;
    }
    if state == 0 {
        is_made(channels, descriptions, pid, made)
    } else {
        parent != NOBODY
    }
}

pub fn is_descriptor_number(front: &[DescriptorEntry], n: u32) -> bool
    ensures { result ≡ field.is_descriptor_number front.now n }
{
    match front.last() {
        None => n < 256,
        Some(before) => before.number < n && n < 256,
    }
}

/// Whether a process of this number stands before.
fn has_process(earlier: &[ProcessEntry], n: u32) -> bool
    requires { ProcessesRise earlier.now }
    ensures { result ≡ list_any (λ process. process.pid.0 == n) earlier.now }
{
    match process_of(earlier, n) {
        None => false,
        Some(_) => true,
    }
}

/// Whether the number is that of an earlier process or of one of its threads.
fn is_number_of_some(earlier: &[ProcessEntry], tids: &NumberMap<()>, n: u32) -> bool
    requires processes { ProcessesRise earlier.now }
    requires threads { KnowsThreads tids.now earlier.now }
    ensures { result ≡ list_any (field.is_number_of n) earlier.now }
{
    has_process(earlier, n) || tids.contains_key(n)
}

pub fn is_process_number(next_id: u32, front: &[ProcessEntry], tids: &NumberMap<()>, n: u32) -> bool
    requires { KnowsThreads tids.now front.now }
    ensures { result ≡ field.is_process_number next_id front.now n }
{
    let is_above = match front.last() {
        None => true,
        Some(before) => before.pid.0 < n,
    };
    is_above && is_given_out(next_id, n) && !tids.contains_key(n)
}

pub fn is_thread_number(
    next_id: u32,
    earlier: &[ProcessEntry],
    tids: &NumberMap<()>,
    front: &[ThreadEntry],
    n: u32,
) -> bool
    requires processes { ProcessesRise earlier.now }
    requires threads { KnowsThreads tids.now earlier.now }
    ensures { result ≡ field.is_thread_number next_id earlier.now front.now n }
{
    let is_above = match front.last() {
        None => true,
        Some(before) => before.tid < n,
    };
    is_above && is_given_out(next_id, n) && !is_number_of_some(earlier, tids, n)
}

/// Notes the threads of a process.
pub fn note_threads(tids: &mut NumberMap<()>, threads: &[ThreadEntry]) -> Result<(), AllocError>
    ensures { OnOk result (HasKeys tids.new (λ n. is_some (map.get tids.old n)
        || list_any (λ thread. thread.tid == n) threads.now)) }
{
    for thread in threads {
        tids.insert(thread.tid, ())?;
    }
    Ok(())
}
