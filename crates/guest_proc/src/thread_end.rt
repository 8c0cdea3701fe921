ghost use Rattle.std.specs.Prelude.{◌≡◌, ◌↔◌, IsTrue, option_map};
ghost use Rattle.std.specs.FinMap as map;
ghost use Rattle.plain_process.specs.Threads as words;
ghost use Rattle.guest_proc.specs.Guests.{with_user};

use crate::guest::Guest;
use sys_abi::Tid;

impl Guest {
    /// Ends a thread: the word that it is to clear is 0, and the first that waits there goes on. Tells
    /// whether no thread is left. Takes no memory.
    pub fn end_thread(&mut self, t: Tid) -> bool
        ensures part { self.new ≡ with_user self.old (words.after_thread_end self.old.user t.0) }
        ensures last { IsTrue result ↔ (map.len self.new.user.threads ≡ 0) }
    {
        self.remove_thread(t);
        self.group.is_empty()
    }

    pub(crate) fn remove_thread(&mut self, t: Tid)
        ensures { self.new ≡ with_user self.old (words.after_thread_end self.old.user t.0) }
    {
        let Some(address) = self.clear_tid(t) else {
            return;
        };
        self.forget_thread(t);
        self.clear_word(address);
    }

    fn clear_tid(&self, t: Tid) -> Option<u32>
        ensures { result ≡ option_map (λ thread. thread.clear_tid) (map.get self.now.user.threads t.0) }
    {
        self.group.clear_tid(t)
    }

    /// The thread is gone, and waits no more.
    fn forget_thread(&mut self, t: Tid)
        ensures { self.new ≡ with_user self.old (words.without_thread self.old.user t.0) }
    {
        self.group.remove(t);
    }

    /// Clears the word at an address that is not 0, and wakes the first that waits there.
    fn clear_word(&mut self, address: u32)
        ensures { self.new ≡ with_user self.old (words.after_clearing self.old.user address) }
    {
        if address == 0 {
            return;
        }
        self.store_zero(address);
        self.wake(1, address);
    }

    /// Wakes those that wait on a word, in waking order, at most so many. Tells how many.
    fn wake(&mut self, limit: u32, address: u32) -> u32
        ensures user { words.wake limit address self.old.user ≡ record { user = self.new.user; count = result } }
        ensures pid { self.new.pid ≡ self.old.pid }
        ensures spare { self.new.spare ≡ self.old.spare }
    {
        self.group.wake(limit, address)
    }

    /// Clears the word at an address, if it can be written.
    fn store_zero(&mut self, address: u32)
        ensures { self.new ≡ with_user self.old (words.with_cleared self.old.user address) }
    {
        self.memory.clear_word(address);
    }
}
