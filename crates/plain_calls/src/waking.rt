ghost use Rattle.std.specs.Prelude.{◌≡◌, ◌+◌, ℕ, unwrap_or, if◌then◌else◌};
ghost use Rattle.plain_process.specs.Memory.{store};
ghost use Rattle.plain_process.specs.Threads as words;

use plain_memory::memory::store;
use plain_process::memory::Frame;
use plain_process::threads::{after_call, first_waiter, remove_waiter};
use plain_process::user_part::UserPart;
use plain_steps::steps::set_regs;
use std::alloc::Global;
use std::mem;
use sys_abi::Tid;
use views::list_of::ListOf;
use views::number_map::NumberMap;

/// The thread waits on no word any more. Takes no memory.
pub fn stop_waiting(alloc: Global, user: &mut UserPart, t: u32)
    ensures { user.new ≡ words.with_waiters user.old (words.without_waiter t user.old.waiters) }
{
    let mut waiters = mem::replace(&mut user.waiters, ListOf::new(alloc)).into_vec();
    remove_waiter(&mut waiters, t);
    user.waiters = ListOf::from_vec(waiters);
}

/// The thread waits no more, and its call answers 0. Takes no memory.
#[tactic(auto, unfolding(plain_process::specs::Threads::awake))]
pub fn awake(alloc: Global, user: &mut UserPart, t: Tid)
    ensures { user.new ≡ words.awake user.old t.0 }
{
    stop_waiting(alloc, user, t.0);
    let Some(thread) = user.threads.get(t.0) else {
        return;
    };
    let regs = after_call(thread.regs, 0);
    set_regs(&mut user.threads, t, regs);
}

/// Wakes who has waited longest on the word at an address, and tells whether there was one. Takes no memory.
#[tactic(auto, unfolding(plain_process::specs::Threads::wake_one))]
pub fn wake_one(alloc: Global, user: &mut UserPart, address: u32) -> bool
    ensures { (count : ℕ) → words.wake_one address (record { user = user.old; count = count })
        ≡ record { user = user.new; count = if result then count + 1 else count } }
{
    match first_waiter(user.waiters.as_slice(), address) {
        Some(waiter) => {
            awake(alloc, user, Tid(waiter.tid));
            true
        }
        None => false,
    }
}

/// Wakes who has waited longest on the word at an address, if there is one. Takes no memory.
fn wake_first(alloc: Global, user: &mut UserPart, address: u32)
    ensures { user.new ≡ (words.wake 1 address user.old).user }
{
    wake_one(alloc, user, address);
}

/// The word at an address is 0, where it may be written.
fn put_zero(memory: &mut NumberMap<Frame>, address: u32)
    ensures { memory.new ≡ unwrap_or (store memory.old address 4 0) memory.old }
{
    let _ = store(memory, address, 4, 0);
}

/// Clears the word at an address that is not 0, and wakes who has waited longest there.
fn clear_word(alloc: Global, user: &mut UserPart, address: u32)
    ensures { user.new ≡ words.after_clearing user.old address }
{
    if address == 0 {
        return;
    }
    put_zero(&mut user.memory, address);
    wake_first(alloc, user, address);
}

/// Ends a thread: it is gone, the word that its end clears is 0, and who has waited longest there is awake.
/// Takes no memory.
#[tactic(auto, unfolding(plain_process::specs::Threads::after_thread_end))]
pub fn end_thread(alloc: Global, user: &mut UserPart, t: Tid)
    ensures { user.new ≡ words.after_thread_end user.old t.0 }
{
    let Some(thread) = user.threads.get(t.0) else {
        return;
    };
    let address = thread.clear_tid;
    user.threads.remove(t.0);
    stop_waiting(alloc, user, t.0);
    clear_word(alloc, user, address);
}
