ghost use Rattle.std.specs.Prelude.{◌≡◌, ◌+◌, ◌≤◌, ◌<◌, ◌^◌, true, false, None, Ok, Err, find, length, replicate, IfOk, OnOk, OnErr, IsOkUnless, option_and_then, is_some, if◌then◌else◌};
ghost use Rattle.std.specs.FinMap as map;
ghost use Rattle.proc_book.specs.declared.limits.TheConstants.{PROCESS_LIMIT, THREAD_LIMIT};
ghost use Rattle.virt_ids.specs.Changes.{at_key};
ghost use Rattle.proc_book.specs.Ends.{is_live_at, after_end};
ghost use Rattle.proc_book.specs.Procs as words;
ghost use Rattle.proc_book.specs.Waits.{Finds};

use crate::ends::{end, raise_at};
use crate::limits::{PROCESS_LIMIT, THREAD_LIMIT};
use crate::proc_fault::ProcFault;
use crate::process::Process;
use crate::waiting::{Waiting, wait_for};
use std::alloc::{AllocError, Global};
use std::marker::Model;
use virt_ids::ByRealPid;
use virt_ids::sys_abi::{Life, RealPid, Signal};

/// The processes of all nodes, and for each node the number that it hands out next.
#[derive(Drop)]
pub struct Procs {
    alloc: Global,
    processes: ByRealPid<Process>,
    next: Vec<u64>,
}

impl Model for Procs {
    ghost use Rattle.proc_book.specs.Procs.{ProcTable, AllHandedOut, coded_table};

    ghost Value = { ProcTable };

    ghost coded = { coded_table };

    ghost view = { λ a. record { processes = a.processes; next = a.next.items } };

    ghost invariant = { λ a. AllHandedOut a.processes a.next.items };
}

impl Procs {
    /// No processes on so many nodes, whose numbers begin at the base.
    pub fn new(alloc: Global, nodes: u32, pid_base: u32) -> Result<Procs, AllocError>
        ensures { IfOk result (λ procs. procs ≡ record { processes = map.empty; next = replicate nodes pid_base }) }
    {
        let next = vec![in alloc; u64::from(pid_base); nodes as usize]?;
        Ok(Procs {
            alloc,
            processes: ByRealPid::new(alloc),
            next,
        })
    }

    /// Each number in the map is below the one that its node hands out next. It does nothing.
    pub fn whole(&self)
        ensures { words.AllHandedOut self.now.processes self.now.next }
    {
        let _ = &self.next;
    }

    /// The number that the node hands out next, to a process or a thread.
    pub fn next_real(&self, node: u32) -> u32
        requires node { node < length self.now.next }
        requires left { words.next_of self.now node < 2 ^ 32 }
        ensures number { result ≡ words.next_of self.now node }
        ensures unused { words.IsUnused self.now.processes node result }
    {
        self.next[node as usize] as u32
    }

    /// Whether the node is there and has a number left, so that it can start a process or a thread.
    pub fn has_real(&self, node: u32) -> bool
        ensures { result ≡ words.has_number self.now node }
    {
        (node as usize) < self.next.len() && self.next[node as usize] <= u64::from(u32::MAX)
    }

    /// Whether as many processes stand as may.
    pub fn is_full(&self) -> bool
        ensures { result ≡ words.is_full self.now }
    {
        self.processes.len() >= PROCESS_LIMIT
    }

    /// How many threads the process has, none where it is not there.
    pub fn thread_count(&self, p: RealPid) -> usize
        ensures { result ≡ words.threads_at self.now.processes p }
    {
        match self.processes.get(p) {
            None => 0,
            Some(process) => process.threads.len(),
        }
    }

    /// Whether the process is there and has not ended.
    pub fn is_live(&self, p: RealPid) -> bool
        ensures { result ≡ is_live_at self.now.processes p }
    {
        crate::ends::is_live_at(&self.processes, p)
    }

    /// A new process with one thread of its own number.
    pub fn start(&mut self, node: u32, parent: Option<RealPid>) -> Result<RealPid, ProcFault>
        requires node { node < length self.old.next }
        requires left { words.next_of self.old node < 2 ^ 32 }
        ensures refused { PROCESS_LIMIT ≤ map.len self.old.processes → result ≡ Err ProcFault.Full }
        ensures granted { map.len self.old.processes < PROCESS_LIMIT → IsOkUnless result ProcFault.Memory }
        ensures number { IfOk result (λ r. r ≡ words.real node (words.next_of self.old node)) }
        ensures ok { OnOk result (self.new ≡ words.after_start self.old node parent) }
        ensures err { OnErr result (self.new ≡ self.old) }
    {
        if self.processes.len() >= PROCESS_LIMIT {
            return Err(ProcFault::Full);
        }
        let pid = self.next[node as usize] as u32;
        let process = Process::newborn(self.alloc, parent, pid)?;
        let r = RealPid { node, pid };
        self.processes.insert(r, process)?;
        self.next[node as usize] = u64::from(pid) + 1;
        Ok(r)
    }

    /// A new thread of a process that lives, for which no signal is pending.
    pub fn add_thread(&mut self, p: RealPid) -> Result<u32, ProcFault>
        requires node { p.node < length self.old.next }
        requires left { words.next_of self.old p.node < 2 ^ 32 }
        requires lives { is_live_at self.old.processes p ≡ true }
        ensures refused { THREAD_LIMIT ≤ words.threads_at self.old.processes p → result ≡ Err ProcFault.Full }
        ensures granted { words.threads_at self.old.processes p < THREAD_LIMIT → IsOkUnless result ProcFault.Memory }
        ensures number { IfOk result (λ t. t ≡ words.next_of self.old p.node) }
        ensures ok { OnOk result (self.new ≡ words.after_add_thread self.old p) }
        ensures err { OnErr result (self.new ≡ self.old) }
    {
        let number = self.next[p.node as usize] as u32;
        add_thread_at(&mut self.processes, p, number)?;
        self.next[p.node as usize] = u64::from(number) + 1;
        Ok(number)
    }

    /// Makes a signal pending for a process, or for this thread of it alone. No signal, such as 0, only asks
    /// whether it lives.
    pub fn raise(&mut self, p: RealPid, t: Option<u32>, s: Signal) -> Result<(), ProcFault>
        ensures answer { result ≡ (if words.can_raise self.old.processes p t then Ok tt else Err ProcFault.NoProcess) }
        ensures raised { self.new ≡ record self.old { processes = words.after_raise self.old.processes p t s.0 } }
    {
        if !can_raise(&self.processes, p, t) {
            return Err(ProcFault::NoProcess);
        }
        raise_at(&mut self.processes, p, t, s);
        Ok(())
    }

    /// Takes a pending signal away, of the thread if it has it and else of its process. Answers whether it
    /// was pending.
    pub fn take(&mut self, p: RealPid, t: u32, s: Signal) -> bool
        ensures had { result ≡ words.is_taken self.old.processes p t s.0 }
        ensures taken { self.new ≡ record self.old { processes = words.after_take self.old.processes p t s.0 } }
    {
        take_at(&mut self.processes, p, t, s)
    }

    /// The signals that are pending for the thread or its process.
    pub fn pending(&self, p: RealPid, t: u32) -> u32
        ensures { result ≡ words.pending self.now.processes p t }
    {
        match self.processes.get(p) {
            None => 0,
            Some(process) => process.pending | process.signals_of(t),
        }
    }

    /// The signals that are pending for the process itself, or for this thread alone.
    pub fn pending_of(&self, p: RealPid, t: Option<u32>) -> u32
        ensures { result ≡ words.pending_of t (map.get self.now.processes p) }
    {
        match self.processes.get(p) {
            None => 0,
            Some(process) => match t {
                None => process.pending,
                Some(t) => process.signals_of(t),
            },
        }
    }

    /// The thread is gone, with its pending signals.
    pub fn end_thread(&mut self, p: RealPid, t: u32)
        ensures { self.new ≡ record self.old { processes = words.after_end_thread self.old.processes p t } }
    {
        end_thread_at(&mut self.processes, p, t);
    }

    /// The process ends, if it lives: its children have no parent any more and its zombies are gone; its live
    /// parent gets a signal and it stays as a zombie, without a live parent it is gone.
    pub fn end_process(&mut self, p: RealPid, status: u32)
        ensures { self.new ≡ record self.old { processes = after_end self.old.processes p status } }
    {
        end(&mut self.processes, self.alloc, p, status);
    }

    /// The least process above this one, live or zombie, or the least of all where none is given.
    pub fn next_process(&self, above: Option<RealPid>) -> Option<RealPid>
        ensures { result ≡ find (words.is_above above) (map.keys self.now.processes) }
    {
        self.processes.keys().copied().find(|r| is_above(above, *r))
    }

    /// The least thread of the process above this number.
    pub fn next_real_thread(&self, p: RealPid, above: u32) -> Option<u32>
        ensures { result ≡ words.next_thread above (map.get self.now.processes p) }
    {
        match self.processes.get(p) {
            None => None,
            Some(process) => process.threads.next_above(Some(above)),
        }
    }

    /// The process's parent, if it has one.
    pub fn parent(&self, p: RealPid) -> Option<RealPid>
        ensures { result ≡ option_and_then (λ process. process.parent) (map.get self.now.processes p) }
    {
        match self.processes.get(p) {
            None => None,
            Some(process) => process.parent,
        }
    }

    /// The status of a zombie.
    pub fn status(&self, p: RealPid) -> Option<u32>
        ensures { result ≡ option_and_then words.status_of (map.get self.now.processes p) }
    {
        match self.processes.get(p) {
            None => None,
            Some(process) => match process.life {
                Life::Live => None,
                Life::Zombie(status) => Some(status),
            },
        }
    }

    /// What a wait for this child, or for any, would find.
    pub fn look(&self, p: RealPid, child: Option<RealPid>) -> Waiting
        ensures found { result ≡ words.wait_for self.now.processes p child }
        ensures least { child ≡ None → Finds self.now.processes p result }
    {
        wait_for(&self.processes, p, child)
    }

    /// Waits for this child, or for any: the least one that has ended is gone then. Answers it with its
    /// status.
    pub fn wait(&mut self, p: RealPid, child: Option<RealPid>) -> Result<(RealPid, u32), ProcFault>
        ensures answer { result ≡ words.waited (words.wait_for self.old.processes p child) }
        ensures least { child ≡ None → Finds self.old.processes p (words.wait_for self.old.processes p child) }
        ensures gone { self.new ≡ record self.old {
          processes =
              words.after_wait (words.wait_for self.old.processes p child) self.old.processes;
        } }
    {
        match wait_for(&self.processes, p, child) {
            Waiting::NoChild => Err(ProcFault::NoChild),
            Waiting::NotReady => Err(ProcFault::NotReady),
            Waiting::Ended(r, status) => {
                self.processes.remove(r);
                Ok((r, status))
            }
        }
    }
}

fn is_above(above: Option<RealPid>, r: RealPid) -> bool
    ensures { result ≡ words.is_above above r }
{
    match above {
        None => true,
        Some(least) => least.cmp(&r).is_lt(),
    }
}

fn can_raise(processes: &ByRealPid<Process>, p: RealPid, t: Option<u32>) -> bool
    ensures { result ≡ words.can_raise processes.now p t }
{
    match processes.get(p) {
        None => false,
        Some(process) => process.lives_with(t),
    }
}

fn take_at(processes: &mut ByRealPid<Process>, p: RealPid, t: u32, s: Signal) -> bool
    ensures had { result ≡ words.is_taken processes.old p t s.0 }
    ensures taken { processes.new ≡ words.after_take processes.old p t s.0 }
{
    match processes.get_mut(p) {
        None => false,
        Some(process) => process.take(t, s),
    }
}

fn end_thread_at(processes: &mut ByRealPid<Process>, p: RealPid, t: u32)
    ensures { processes.new ≡ words.after_end_thread processes.old p t }
{
    if let Some(process) = processes.get_mut(p) {
        process.end_thread(t);
    }
}

fn add_thread_at(
    processes: &mut ByRealPid<Process>,
    p: RealPid,
    number: u32,
) -> Result<(), ProcFault>
    requires { is_some (map.get processes.old p) ≡ true }
    ensures refused { THREAD_LIMIT ≤ words.threads_at processes.old p → result ≡ Err ProcFault.Full }
    ensures granted { words.threads_at processes.old p < THREAD_LIMIT → IsOkUnless result ProcFault.Memory }
    ensures ok { OnOk result (processes.new ≡ at_key processes.old p (words.with_thread number)) }
    ensures err { OnErr result (processes.new ≡ processes.old) }
{
    match processes.get_mut(p) {
        None => unreachable!(),
        Some(process) => process.add_thread(number),
    }
}
