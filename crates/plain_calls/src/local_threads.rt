ghost use Rattle.std.specs.Prelude.{◌≡◌, ◌==◌, Some, IfOk, IfSome, IfNone};
ghost use Rattle.std.specs.FinMap as map;
ghost use Rattle.plain_process.specs.Buffers.{is_wait as waits};
ghost use Rattle.plain_process.specs.Local.{set_tid_address_row, with_clear_tid};
ghost use Rattle.plain_memory.specs.LocalAnswers.{DoesRow};
ghost use Rattle.plain_process.specs.Memory.{little_endian};
ghost use Rattle.plain_process.specs.Rows.Futex as rows;
ghost use Rattle.plain_process.specs.Threads as words;
ghost use Rattle.plain_process.specs.declared.user_part.ThreadPart.{ThreadPart};

use crate::waking::awake;
use plain_memory::local_answer::LocalAnswer;
use plain_process::threads::first_waiter;
use plain_process::user_part::{ThreadPart, UserPart, Waiter};
use std::alloc::{AllocError, Global};
use sys_abi::errors::{EAGAIN, EINVAL, ENOSYS};
use sys_abi::{Errno, Tid};
use views::number_map::NumberMap;

/// Sets the word that the end of a thread clears, if the thread is there.
fn set_clear_tid(threads: &mut NumberMap<ThreadPart>, t: Tid, place: u32)
    ensures there { IfSome (map.get threads.old t.0) (λ thread. threads.new ≡ map.insert threads.old t.0 (with_clear_tid thread place)) }
    ensures none { IfNone (map.get threads.old t.0) (threads.new ≡ threads.old) }
{
    if let Some(thread) = threads.get_mut(t.0) {
        thread.clear_tid = place;
    }
}

/// set_tid_address of a thread that is there: it answers the thread's number.
#[tactic(auto, unfolding(plain_process::specs::Local::set_tid_address_row))]
pub fn set_tid_address(user: &mut UserPart, t: Tid, place: u32) -> Result<LocalAnswer, Errno>
    ensures { (thread : ThreadPart) → map.get user.old.threads t.0 ≡ Some thread
        → DoesRow user.old user.new (set_tid_address_row user.old t.0 thread place) result }
{
    set_clear_tid(&mut user.threads, t, place);
    Ok(LocalAnswer::Value(t.0))
}

fn is_wait(operation: u32) -> bool
    ensures { result ≡ waits operation }
{
    operation == 0 || operation == 128
}

fn is_wake(operation: u32) -> bool
    ensures { result ≡ rows.is_wake operation }
{
    operation == 1 || operation == 129
}

/// Whether the bytes spell the number, the least significant first.
fn spells(bytes: &[u8], value: u32) -> bool
    ensures { result ≡ (little_endian bytes.now == value) }
{
    let mut rest = value;
    for byte in bytes {
        if rest % 256 != *byte as u32 {
            return false;
        }
        rest /= 256;
    }
    rest == 0
}

/// FUTEX_WAIT: the thread waits on the word at an address, unless that is another one.
#[tactic(auto, unfolding(plain_process::specs::Rows::Futex::futex_wait, plain_process::specs::Attempts::and_then, plain_process::specs::Attempts::need))]
fn futex_wait(
    user: &mut UserPart,
    t: Tid,
    given: &[u8],
    address: u32,
    value: u32,
    timeout: u32,
) -> Result<Result<LocalAnswer, Errno>, AllocError>
    ensures { IfOk result (λ attempt. DoesRow user.old user.new (rows.futex_wait user.old t.0 given.now address value timeout) attempt) }
{
    if address % 4 != 0 || timeout != 0 {
        return Ok(Err(Errno(EINVAL)));
    }
    if !spells(given, value) {
        return Ok(Err(Errno(EAGAIN)));
    }
    user.waiters.push(Waiter { tid: t.0, address })?;
    Ok(Ok(LocalAnswer::Stays))
}

/// Wakes those that wait on a word, in waking order, at most so many. Tells how many.
fn wake(alloc: Global, user: &mut UserPart, limit: u32, address: u32) -> u32
    ensures { words.wake limit address user.old ≡ record { user = user.new; count = result } }
{
    for count in 0..limit {
        let Some(waiter) = first_waiter(user.waiters.as_slice(), address) else {
            return count;
        };
        awake(alloc, user, Tid(waiter.tid));
    }
    limit
}

/// FUTEX_WAKE: it answers how many threads it woke.
#[tactic(auto, unfolding(plain_process::specs::Rows::Futex::futex_wake, plain_process::specs::Attempts::and_then, plain_process::specs::Attempts::need))]
fn futex_wake(
    alloc: Global,
    user: &mut UserPart,
    address: u32,
    value: u32,
) -> Result<LocalAnswer, Errno>
    ensures { DoesRow user.old user.new (rows.futex_wake user.old address value) result }
{
    if address % 4 != 0 {
        return Err(Errno(EINVAL));
    }
    Ok(LocalAnswer::Value(wake(alloc, user, value, address)))
}

/// futex: a thread waits on a word, or threads that wait there are awake.
#[tactic(auto, unfolding(plain_process::specs::Rows::Futex::futex_row))]
pub fn futex(
    alloc: Global,
    user: &mut UserPart,
    t: Tid,
    given: &[u8],
    address: u32,
    operation: u32,
    value: u32,
    timeout: u32,
) -> Result<Result<LocalAnswer, Errno>, AllocError>
    ensures { IfOk result (λ attempt. DoesRow user.old user.new (rows.futex_row user.old t.0 given.now address operation value timeout) attempt) }
{
    if is_wait(operation) {
        return futex_wait(user, t, given, address, value, timeout);
    }
    if is_wake(operation) {
        return Ok(futex_wake(alloc, user, address, value));
    }
    Ok(Err(Errno(ENOSYS)))
}
