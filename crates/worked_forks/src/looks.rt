// What is to be seen of a kernel part.
use crate::kernels::FIRST;
use plain_machine::{Life, PlainKernel};
use sys_abi::{Maker, Slot, Tid, VPid};

pub enum Table {
    Processes,
    Makers,
    Descriptors,
    Descriptions,
}

pub enum Look {
    /// How many entries a table has.
    Count(Table, usize),
    /// The number that the next process or thread gets.
    NextId(u32),
    /// Whether the process is there, living or ended.
    IsThere(VPid, bool),
    /// The process's host and its own next number.
    Maker(VPid, Option<Maker>),
    IsLive(VPid, bool),
    Parent(VPid, u32),
    ThreadCount(VPid, usize),
    HasThread(VPid, Tid),
    /// The set of signals that are pending for a thread.
    Pending(VPid, Tid, u32),
    /// The process has ended with this status and is still there, without threads, descriptors or pending
    /// signals.
    Zombie(VPid, u32),
    /// The process's descriptor has the description and the mark of the same one of the first process.
    Shares(VPid, u32),
    /// The owner of what the first process's descriptor 0 refers to.
    Owner(u32),
}

/// Whether that is to be seen.
pub fn shows(kernel: &PlainKernel, look: &Look) -> bool {
    match *look {
        Look::Count(ref table, count) => count_of(kernel, table) == count,
        Look::NextId(number) => kernel.next_id == number,
        Look::IsThere(p, is_there) => kernel.processes.contains_key(p) == is_there,
        Look::Maker(p, maker) => kernel.makers.get(p).copied() == maker,
        Look::IsLive(p, is_live) => kernel.is_live(p) == is_live,
        Look::Parent(p, parent) => parent_of(kernel, p) == Some(parent),
        Look::ThreadCount(p, count) => kernel.thread_count(p) == count,
        Look::HasThread(p, t) => kernel.has_thread(p, t.0),
        Look::Pending(p, t, signals) => kernel.pending(p, t) == signals,
        Look::Zombie(p, status) => is_zombie(kernel, p, status),
        Look::Shares(p, fd) => shares(kernel, p, fd),
        Look::Owner(owner) => owner_of(kernel) == Some(owner),
    }
}

fn count_of(kernel: &PlainKernel, table: &Table) -> usize {
    match table {
        Table::Processes => kernel.processes.len(),
        Table::Makers => kernel.makers.len(),
        Table::Descriptors => kernel.descriptors.len(),
        Table::Descriptions => kernel.descriptions.len(),
    }
}

fn parent_of(kernel: &PlainKernel, p: VPid) -> Option<u32> {
    Some(kernel.processes.get(p)?.parent)
}

/// The status of a process that has ended and is still there.
fn status_of(kernel: &PlainKernel, p: VPid) -> Option<u32> {
    match kernel.processes.get(p)?.life {
        Life::Zombie(status) => Some(status),
        Life::Live => None,
    }
}

fn is_zombie(kernel: &PlainKernel, p: VPid, status: u32) -> bool {
    !kernel.is_live(p)
        && status_of(kernel, p) == Some(status)
        && kernel.thread_count(p) == 0
        && kernel.pending(p, Tid(p.0)) == 0
        && !kernel.descriptors.contains_key(Slot { pid: p, fd: 0 })
}

fn shares(kernel: &PlainKernel, p: VPid, fd: u32) -> bool {
    let own = kernel.descriptors.get(Slot { pid: p, fd });
    let first = kernel.descriptors.get(Slot { pid: FIRST, fd });
    match (own, first) {
        (Some(own), Some(first)) => own.desc == first.desc && own.cloexec == first.cloexec,
        _ => false,
    }
}

fn owner_of(kernel: &PlainKernel) -> Option<u32> {
    Some(kernel.description_at(FIRST, 0)?.owner)
}
