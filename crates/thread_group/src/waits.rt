//! futex (`man 2 futex`): a thread waits on a word, or threads that wait there are awake; and set_tid_address
//! (`man 2 set_tid_address`).
ghost use Rattle.std.specs.Prelude.{◌≡◌, ℕ, List, Some, Ok};
ghost use Rattle.std.specs.FinMap as map;
ghost use Rattle.plain_process.specs.Local.{set_tid_address_row};
ghost use Rattle.plain_process.specs.Memory.{little_endian};
ghost use Rattle.plain_process.specs.Rows.Futex as rows;
ghost use Rattle.plain_process.specs.declared.user_part.ThreadPart.{ThreadPart};
ghost use Rattle.process_memory.specs.Local.{DoesRow, value_told};
ghost use Rattle.process_memory.specs.MemoryParts.{MemoryPart};
ghost use Rattle.thread_group.specs.Groups.{joined};
ghost use Rattle.thread_group.specs.Local.{stays_told};

use crate::group::ThreadGroup;
use plain_process::Waiter;
use process_memory::{INVALID, LocalFault};
use sys_abi::errors::EAGAIN;
use sys_abi::{Errno, Tid};

impl ThreadGroup {
    /// FUTEX_WAIT: the thread waits on the word at an address, unless that is another one.
    #[tactic(auto, unfolding(plain_process::specs::Rows::Futex::futex_wait, plain_process::specs::Attempts::and_then, plain_process::specs::Attempts::need))]
    pub(crate) fn futex_wait(
        &mut self,
        t: Tid,
        address: u32,
        word: Option<u32>,
        value: u32,
        timeout: u32,
    ) -> Result<(), LocalFault>
        ensures row { (memory : MemoryPart) (given : List ℕ) → word ≡ Some (little_endian given)
            → DoesRow stays_told (joined memory self.old) (joined memory self.new)
            (rows.futex_wait (joined memory self.old) t.0 given address value timeout) result }
        ensures spare { self.new.spare ≡ self.old.spare }
    {
        if address % 4 != 0 || timeout != 0 {
            return Err(INVALID);
        }
        if word != Some(value) {
            return Err(LocalFault::Refused(Errno(EAGAIN)));
        }
        let Ok(()) = self.waiters.push(Waiter { tid: t.0, address }) else {
            return Err(LocalFault::Memory);
        };
        Ok(())
    }

    /// FUTEX_WAKE: it answers how many threads it woke.
    #[tactic(auto, unfolding(plain_process::specs::Rows::Futex::futex_wake, plain_process::specs::Attempts::and_then, plain_process::specs::Attempts::need))]
    pub(crate) fn futex_wake(&mut self, address: u32, value: u32) -> Result<u32, LocalFault>
        ensures row { (memory : MemoryPart) → DoesRow value_told (joined memory self.old) (joined memory self.new)
            (rows.futex_wake (joined memory self.old) address value) result }
        ensures spare { self.new.spare ≡ self.old.spare }
    {
        if address % 4 != 0 {
            return Err(INVALID);
        }
        Ok(self.wake(value, address))
    }

    /// set_tid_address: it answers the thread's number.
    #[tactic(auto, unfolding(plain_process::specs::Local::set_tid_address_row))]
    pub(crate) fn set_tid_address(&mut self, t: Tid, place: u32) -> u32
        ensures row { (memory : MemoryPart) (thread : ThreadPart) → map.get self.old.threads t.0 ≡ Some thread
            → DoesRow value_told (joined memory self.old) (joined memory self.new)
            (set_tid_address_row (joined memory self.old) t.0 thread place) (Ok result) }
        ensures spare { self.new.spare ≡ self.old.spare }
    {
        self.threads.set_clear_tid(t.0, place);
        t.0
    }
}
