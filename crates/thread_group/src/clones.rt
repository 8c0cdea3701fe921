//! New threads and the group of a fork's child (`man 2 clone`, `man 2 fork`).
ghost use Rattle.std.specs.Prelude.{◌≡◌, ◌-◌, ◌≤◌, ℕ, max, [], is_some, true, Some, None, IfOk, OnOk, OnErr};
ghost use Rattle.std.specs.FinMap as map;
ghost use Rattle.plain_process.specs.Threads.{child_thread, with_called_thread_by, with_new_thread};
ghost use Rattle.plain_process.specs.Twins.{alone};
ghost use Rattle.plain_process.specs.declared.user_part.ThreadPart.{ThreadPart};
ghost use Rattle.guest_threads.specs.Threads.{fresh};
ghost use Rattle.process_memory.specs.MemoryParts.{MemoryPart};
ghost use Rattle.thread_group.specs.Groups.{joined};

use crate::group::ThreadGroup;
use guest_threads::Waiters;
use plain_process::Regs;
use plain_process::threads::{after_call, new_clear_tid, new_regs};
use std::alloc::{AllocError, Global};
use sys_abi::Tid;
use views::duplicate::Duplicate;

impl ThreadGroup {
    /// Makes room for one more thread and its saved contexts, if there is none.
    pub fn reserve(&mut self, alloc: Global) -> Result<(), AllocError>
        ensures ok { OnOk result (self.new ≡ record self.old { spare = max 1 self.old.spare }) }
        ensures err { OnErr result (self.new ≡ self.old) }
    {
        self.threads.reserve(alloc)
    }

    /// Adds the thread that a clone with these arguments makes of its caller, which still stands at the call,
    /// into room that is there. Takes no memory.
    pub fn add_called(&mut self, t: Tid, new: u32, flags: u32, stack: u32, tls: u32, child_tid: u32)
        requires thread { is_some (map.get self.old.threads t.0) ≡ true }
        requires free { map.get self.old.threads new ≡ None }
        requires spare { 1 ≤ self.old.spare }
        ensures added { (memory : MemoryPart) → joined memory self.new
            ≡ with_called_thread_by (joined memory self.old) new flags stack tls child_tid
            (map.get self.old.threads t.0) }
        ensures spare { self.new.spare ≡ self.old.spare - 1 }
    {
        let caller = self.regs(t);
        let called = after_call(caller, 0);
        let regs = new_regs(called, flags, stack, tls);
        let mask = self.mask(t);
        let clear_tid = new_clear_tid(flags, child_tid);
        self.insert(new, regs, mask, clear_tid);
    }

    /// Adds the thread that a clone with these arguments makes of its caller, whose call has its answer, into
    /// room that is there. Takes no memory.
    pub fn add_clone(&mut self, t: Tid, new: u32, flags: u32, stack: u32, tls: u32, child_tid: u32)
        requires thread { is_some (map.get self.old.threads t.0) ≡ true }
        requires free { map.get self.old.threads new ≡ None }
        requires spare { 1 ≤ self.old.spare }
        ensures added { (memory : MemoryPart) → joined memory self.new
            ≡ with_new_thread (joined memory self.old) t.0 new flags stack tls child_tid }
        ensures spare { self.new.spare ≡ self.old.spare - 1 }
    {
        let regs = new_regs(self.regs(t), flags, stack, tls);
        let mask = self.mask(t);
        self.insert(new, regs, mask, new_clear_tid(flags, child_tid));
    }

    /// Puts a thread that no handler has interrupted into room that is there.
    fn insert(&mut self, t: u32, regs: Regs, mask: u32, clear_tid: u32)
        requires free { map.get self.old.threads t ≡ None }
        requires spare { 1 ≤ self.old.spare }
        ensures { self.new ≡ record self.old {
          threads = map.insert self.old.threads t (fresh regs mask clear_tid);
          spare = self.old.spare - 1;
        } }
    {
        self.threads.insert(t, regs, mask, clear_tid);
    }

    /// The group that a fork's child begins with: a copy of its caller alone, with what the process does on
    /// signals, and nobody waits.
    pub fn twin(&self, alloc: Global, t: Tid) -> Result<ThreadGroup, AllocError>
        ensures { IfOk result (λ twin. twin ≡ record {
          threads = alone t.0 (map.get self.now.threads t.0);
          actions = self.now.actions;
          waiters = [];
          spare = 0;
        }) }
    {
        Ok(ThreadGroup {
            threads: self.threads.twin(alloc, t.0)?,
            actions: self.actions.duplicate(alloc)?,
            waiters: Waiters::new(alloc),
        })
    }

    /// The one thread that is there goes on as a fork's child with this number, behind the call with these
    /// arguments.
    pub fn settle(&mut self, number: u32, flags: u32, stack: u32, tls: u32, child_tid: u32)
        ensures threads { (t : ℕ) (caller : ThreadPart) → self.old.threads ≡ alone t (Some caller)
            → self.new.threads ≡ alone number (Some (child_thread caller flags stack tls child_tid)) }
        ensures rest { self.new ≡ record self.old { threads = self.new.threads } }
    {
        self.threads.settle(number, flags, stack, tls, child_tid);
    }
}
