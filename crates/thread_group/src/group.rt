ghost use Rattle.std.specs.Prelude.{◌≡◌, ◌==◌, ◌-◌, ◌≤◌, ◌↔◌, [], length, replicate, map as each, find, slice_get, is_some, true, Some, unwrap_or, IsTrue, IfOk, option_map};
ghost use Rattle.std.specs.FinMap as map;
ghost use Rattle.std.specs.List.{list_any};
ghost use Rattle.views.specs.NumberMap.{is_above};
ghost use Rattle.plain_process.specs.Start as start;
ghost use Rattle.plain_process.specs.Steps.{with_regs};
ghost use Rattle.image_process.specs.UserParts.{thread_entry};
ghost use Rattle.thread_group.specs.Groups.{with_change};

use crate::start::start_threads;
use elf32::Program;
use guest_start::start_actions;
use guest_threads::{Threads, Waiters};
use image_process::ThreadImage;
use plain_process::deliveries::action_on;
use plain_process::{Regs, SignalAction, Waiter};
use std::alloc::{AllocError, Global};
use std::marker::Model;
use sys_abi::{Signal, Tid};
use views::duplicate::Duplicate;
use views::list_of::ListOf;

/// The threads of a process and what they share: what the process does on each signal, and who waits on its
/// words.
#[derive(Drop)]
pub struct ThreadGroup {
    pub(crate) threads: Threads,
    pub(crate) actions: ListOf<SignalAction>,
    pub(crate) waiters: Waiters,
}

impl Model for ThreadGroup {
    ghost use Rattle.thread_group.specs.Groups.{GroupPart, group_code};

    ghost Value = { GroupPart };

    ghost coded = { group_code };

    ghost view = { λ g. record {
      threads = g.threads.threads;
      actions = g.actions;
      waiters = g.waiters;
      spare = g.threads.spare;
    } };
}

impl ThreadGroup {
    /// The one thread of a program at its start, which has this number. On each signal the process does the
    /// default, and nobody waits.
    pub fn load(
        alloc: Global,
        t: Tid,
        program: &Program,
        arguments: &[u8],
    ) -> Result<ThreadGroup, AllocError>
        requires some { 1 ≤ length arguments.now }
        requires few { length arguments.now ≤ 4096 }
        ensures { IfOk result (λ group. group ≡ record {
          threads = map.insert map.empty t.0 (start.start_thread (start.start_regs program.now arguments.now));
          actions = replicate 31 start.default_action;
          waiters = [];
          spare = 0;
        }) }
    {
        Ok(ThreadGroup {
            threads: start_threads(alloc, t.0, program, arguments)?,
            actions: start_actions(alloc)?,
            waiters: Waiters::new(alloc),
        })
    }

    /// The group of an image's lists. Of two threads of one number the earlier one counts.
    pub fn of_images(
        alloc: Global,
        threads: ListOf<ThreadImage>,
        actions: ListOf<SignalAction>,
        waiters: ListOf<Waiter>,
    ) -> Result<ThreadGroup, AllocError>
        ensures { IfOk result (λ group. group ≡ record {
          threads = map.from_entries (each thread_entry threads);
          actions = actions;
          waiters = waiters;
          spare = 0;
        }) }
    {
        Ok(ThreadGroup {
            threads: Threads::of_images(alloc, threads)?,
            actions,
            waiters: Waiters::of_list(waiters),
        })
    }

    /// Copies of the threads, in rising order of their numbers.
    pub fn thread_images(&self, alloc: Global) -> Result<ListOf<ThreadImage>, AllocError>
        ensures { IfOk result (λ images. each thread_entry images ≡ map.entries self.now.threads) }
    {
        self.threads.images(alloc)
    }

    /// A copy of what the process does on each signal.
    pub fn actions(&self, alloc: Global) -> Result<ListOf<SignalAction>, AllocError>
        ensures { IfOk result (λ actions. actions ≡ self.now.actions) }
    {
        self.actions.duplicate(alloc)
    }

    /// A copy of who waits, in waking order.
    pub fn waiters(&self, alloc: Global) -> Result<ListOf<Waiter>, AllocError>
        ensures { IfOk result (λ waiters. waiters ≡ self.now.waiters) }
    {
        self.waiters.to_list(alloc)
    }

    /// Whether there is a thread of this number.
    pub fn contains(&self, t: Tid) -> bool
        ensures { result ≡ is_some (map.get self.now.threads t.0) }
    {
        self.threads.contains(t.0)
    }

    /// Whether there is no thread.
    pub fn is_empty(&self) -> bool
        ensures { IsTrue result ↔ (map.len self.now.threads ≡ 0) }
    {
        self.threads.is_empty()
    }

    /// The least number of a thread above this one, if there is one.
    pub fn next_thread(&self, above: u32) -> Option<Tid>
        ensures { option_map (λ t. t.0) result ≡ find (is_above (Some above)) (map.keys self.now.threads) }
    {
        let number = self.threads.next_above(Some(above))?;
        Some(Tid(number))
    }

    /// The registers of a thread that is there.
    pub fn regs(&self, t: Tid) -> Regs
        requires { is_some (map.get self.now.threads t.0) ≡ true }
        ensures { option_map (λ thread. thread.regs) (map.get self.now.threads t.0) ≡ Some result }
    {
        match self.threads.regs(t.0) {
            Some(regs) => regs,
            None => unreachable!(),
        }
    }

    /// The signal mask of a thread that is there.
    pub fn mask(&self, t: Tid) -> u32
        requires { is_some (map.get self.now.threads t.0) ≡ true }
        ensures { option_map (λ thread. thread.mask) (map.get self.now.threads t.0) ≡ Some result }
    {
        match self.threads.mask(t.0) {
            Some(mask) => mask,
            None => unreachable!(),
        }
    }

    /// How many contexts a thread that is there has saved.
    pub fn context_count(&self, t: Tid) -> usize
        requires { is_some (map.get self.now.threads t.0) ≡ true }
        ensures { option_map (λ thread. length thread.contexts) (map.get self.now.threads t.0) ≡ Some result }
    {
        match self.threads.context_count(t.0) {
            Some(count) => count,
            None => unreachable!(),
        }
    }

    /// The address of the word that a thread's end clears, 0 where it clears none.
    pub fn clear_tid(&self, t: Tid) -> Option<u32>
        ensures { result ≡ option_map (λ thread. thread.clear_tid) (map.get self.now.threads t.0) }
    {
        self.threads.clear_tid(t.0)
    }

    /// Whether the thread waits on a word.
    pub fn waits(&self, t: Tid) -> bool
        ensures { result ≡ list_any (λ waiter. waiter.tid == t.0) self.now.waiters }
    {
        self.waiters.contains(t.0)
    }

    /// What the process does on a signal.
    pub fn action_on(&self, s: Signal) -> SignalAction
        ensures { result ≡ unwrap_or (slice_get self.now.actions (s.0 - 1)) start.default_action }
    {
        action_on(self.actions.as_slice(), s)
    }

    /// Sets the registers of a thread, if it is there. Like the other changes of a thread it takes no memory.
    pub fn set_regs(&mut self, t: Tid, regs: Regs)
        ensures { self.new ≡ with_change self.old t.0 (λ thread. with_regs thread regs) }
    {
        self.threads.set_regs(t.0, regs);
    }
}
