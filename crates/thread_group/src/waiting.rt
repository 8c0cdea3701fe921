//! Who waits on a word goes on, and a thread ends (`man 2 futex`, `man 2 exit`).
ghost use Rattle.std.specs.Prelude.{◌≡◌};
ghost use Rattle.std.specs.FinMap as map;
ghost use Rattle.plain_process.specs.Threads as words;
ghost use Rattle.process_memory.specs.MemoryParts.{MemoryPart};
ghost use Rattle.thread_group.specs.Groups.{joined, with_change};

use crate::group::ThreadGroup;
use plain_process::Waiter;
use plain_process::threads::after_call;
use sys_abi::Tid;

impl ThreadGroup {
    /// A thread's call answers this word, if the thread is there.
    pub fn finish_call(&mut self, t: Tid, word: u32)
        ensures { self.new ≡ with_change self.old t.0 (λ thread. words.after_call thread word) }
    {
        if let Some(regs) = self.threads.regs(t.0) {
            self.threads.set_regs(t.0, after_call(regs, word));
        }
    }

    /// Who has waited longest on a word.
    fn first_waiter(&self, address: u32) -> Option<Waiter>
        ensures { result ≡ words.first_waiter address self.now.waiters }
    {
        self.waiters.first_on(address)
    }

    /// A thread waits no more.
    fn stop_waiting(&mut self, t: Tid)
        ensures { self.new ≡ record self.old { waiters = words.without_waiter t.0 self.old.waiters } }
    {
        self.waiters.remove(t.0);
    }

    /// A thread that waits on a word goes on: its call answers 0.
    fn wake_thread(&mut self, t: Tid)
        ensures awake { (memory : MemoryPart)
            → joined memory self.new ≡ words.awake (joined memory self.old) t.0 }
        ensures spare { self.new.spare ≡ self.old.spare }
    {
        self.stop_waiting(t);
        self.finish_call(t, 0);
    }

    /// Wakes those that wait on a word, in waking order, at most so many. Tells how many. Takes no memory.
    pub fn wake(&mut self, limit: u32, address: u32) -> u32
        ensures woken { (memory : MemoryPart) → words.wake limit address (joined memory self.old)
            ≡ record { user = joined memory self.new; count = result } }
        ensures spare { self.new.spare ≡ self.old.spare }
    {
        for count in 0..limit {
            let Some(waiter) = self.first_waiter(address) else {
                return count;
            };
            self.wake_thread(Tid(waiter.tid));
        }
        limit
    }

    /// The thread is gone, and waits no more. The word that its end clears is its process's to clear.
    pub fn remove(&mut self, t: Tid)
        ensures { self.new ≡ record self.old {
          threads = map.remove self.old.threads t.0;
          waiters = words.without_waiter t.0 self.old.waiters;
        } }
    {
        self.threads.remove(t.0);
        self.waiters.remove(t.0);
    }
}
