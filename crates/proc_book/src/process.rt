ghost use Rattle.std.specs.Prelude.{◌≡◌, ◌≤◌, ◌<◌, Err, IfOk, OnOk, OnErr, IsOkUnless, true};
ghost use Rattle.std.specs.FinMap as map;
ghost use Rattle.virt_ids.specs.Changes.{at_key};
ghost use Rattle.virt_ids.specs.OfSysAbi.Signals as signals;
ghost use Rattle.proc_book.specs.Processes as words;
ghost use Rattle.proc_book.specs.Ends as ends;
ghost use Rattle.proc_book.specs.Procs as procs;
ghost use Rattle.proc_book.specs.declared.limits.TheConstants.{THREAD_LIMIT};

use crate::limits::THREAD_LIMIT;
use crate::proc_fault::ProcFault;
use std::alloc::{AllocError, Global};
use views::number_map::NumberMap;
use virt_ids::sys_abi::signals::{has_signal, with_signal, without_signal};
use virt_ids::sys_abi::{Life, RealPid, Signal};

/// A process: its parent, if it has one, its life, the signals that are pending for it, and for each of its
/// threads those that are pending for that thread.
#[derive(Drop)]
pub struct Process {
    pub parent: Option<RealPid>,
    pub life: Life,
    pub pending: u32,
    pub threads: NumberMap<u32>,
}

impl Process {
    /// A process with one thread, for which no signal is pending.
    pub(crate) fn newborn(
        alloc: Global,
        parent: Option<RealPid>,
        number: u32,
    ) -> Result<Process, AllocError>
        ensures { IfOk result (λ process. process ≡ words.newborn parent number) }
    {
        let mut threads = NumberMap::new(alloc);
        threads.insert(number, 0)?;
        Ok(Process {
            parent,
            life: Life::Live,
            pending: 0,
            threads,
        })
    }

    pub fn is_live(&self) -> bool
        ensures { result ≡ words.is_live self.now }
    {
        self.life.is_live()
    }

    /// Whether its parent is that one.
    pub fn is_child_of(&self, p: RealPid) -> bool
        ensures { result ≡ words.is_child_of p self.now }
    {
        match self.parent {
            None => false,
            Some(parent) => p.cmp(&parent).is_eq(),
        }
    }

    /// Whether it is a child of that one, and has ended.
    pub(crate) fn is_zombie_child_of(&self, p: RealPid) -> bool
        ensures { result ≡ ends.is_zombie_child p self.now }
    {
        self.is_child_of(p) && !self.is_live()
    }

    /// Leaves it without a parent if its parent is that one. Always answers true.
    pub(crate) fn orphan(&mut self, p: RealPid) -> bool
        ensures yes { result ≡ true }
        ensures orphaned { self.new ≡ ends.orphan p self.old }
    {
        if self.is_child_of(p) {
            self.parent = None;
        }
        true
    }

    /// Whether it lives, with this thread if one is named.
    pub(crate) fn lives_with(&self, t: Option<u32>) -> bool
        ensures { result ≡ words.lives_with t self.now }
    {
        match t {
            None => self.is_live(),
            Some(t) => self.is_live() && self.threads.contains_key(t),
        }
    }

    /// The signals pending for a thread.
    pub fn signals_of(&self, t: u32) -> u32
        ensures { result ≡ words.signals_of t self.now }
    {
        match self.threads.get(t) {
            None => 0,
            Some(set) => *set,
        }
    }

    /// Makes the signal pending for the process, or for this thread alone.
    pub(crate) fn raise(&mut self, t: Option<u32>, s: Signal)
        ensures { self.new ≡ words.raised t s.0 self.old }
    {
        match t {
            None => self.pending = with_signal(self.pending, s),
            Some(t) => raise_at(&mut self.threads, t, s),
        }
    }

    /// Takes a pending signal away, of the thread if it has it and else of the process. Answers whether it
    /// was pending.
    pub(crate) fn take(&mut self, t: u32, s: Signal) -> bool
        ensures had { result ≡ words.has_either t s.0 self.old }
        ensures taken { self.new ≡ words.after_take t s.0 self.old }
    {
        if has_signal(self.signals_of(t), s) {
            clear_at(&mut self.threads, t, s);
            return true;
        }
        if !has_signal(self.pending, s) {
            return false;
        }
        self.pending = without_signal(self.pending, s);
        true
    }

    /// A thread more, for which no signal is pending.
    pub(crate) fn add_thread(&mut self, number: u32) -> Result<(), ProcFault>
        ensures refused { THREAD_LIMIT ≤ map.len self.old.threads → result ≡ Err ProcFault.Full }
        ensures granted { map.len self.old.threads < THREAD_LIMIT → IsOkUnless result ProcFault.Memory }
        ensures ok { OnOk result (self.new ≡ procs.with_thread number self.old) }
        ensures err { OnErr result (self.new ≡ self.old) }
    {
        if self.threads.len() >= THREAD_LIMIT {
            return Err(ProcFault::Full);
        }
        self.threads.insert(number, 0)?;
        Ok(())
    }

    /// A thread less, if it is there.
    pub(crate) fn end_thread(&mut self, t: u32)
        ensures { self.new ≡ procs.without_thread t self.old }
    {
        self.threads.remove(t);
    }

    /// It has ended with that status.
    pub(crate) fn end(&mut self, alloc: Global, status: u32)
        ensures { self.new ≡ words.zombie status self.old }
    {
        self.life = Life::Zombie(status);
        self.pending = 0;
        self.threads = NumberMap::new(alloc);
    }
}

fn raise_at(threads: &mut NumberMap<u32>, t: u32, s: Signal)
    ensures { threads.new ≡ at_key threads.old t (λ set. signals.with_signal set s.0) }
{
    if let Some(set) = threads.get_mut(t) {
        *set = with_signal(*set, s);
    }
}

fn clear_at(threads: &mut NumberMap<u32>, t: u32, s: Signal)
    ensures { threads.new ≡ at_key threads.old t (λ set. signals.without_signal set s.0) }
{
    if let Some(set) = threads.get_mut(t) {
        *set = without_signal(*set, s);
    }
}
