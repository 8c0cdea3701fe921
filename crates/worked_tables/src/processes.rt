// The book of processes, threads and signals.
use crate::asserting::holds;
use proc_book::{ProcFault, Procs, Waiting};
use std::alloc::AllocGlobal;
use std::process::Abort;
use sys_abi::{RealPid, Signal};

/// The next number of the node, where it has one.
fn next_real(procs: &Procs, node: u32) -> Option<u32> {
    if procs.has_real(node) {
        Some(procs.next_real(node))
    } else {
        None
    }
}

/// A new process; `NoProcess` where the node has no number.
fn start(procs: &mut Procs, node: u32, parent: Option<RealPid>) -> Result<RealPid, ProcFault> {
    if !procs.has_real(node) {
        return Err(ProcFault::NoProcess);
    }
    procs.start(node, parent)
}

/// A new thread; `NoProcess` where the node has no number or the process does not live.
fn add_thread(procs: &mut Procs, p: RealPid) -> Result<u32, ProcFault> {
    if !procs.has_real(p.node) || !procs.is_live(p) {
        return Err(ProcFault::NoProcess);
    }
    procs.add_thread(p)
}

const FIRST: RealPid = RealPid { node: 1, pid: 100 };

const CHILD: RealPid = RealPid { node: 1, pid: 102 };

/// Whether the node 1 has numbers from 100 on for processes and threads.
fn are_numbered(procs: &mut Procs) -> bool {
    let are_found = next_real(procs, 1) == Some(100)
        && start(procs, 1, None) == Ok(FIRST)
        && procs.is_live(FIRST)
        && add_thread(procs, FIRST) == Ok(101)
        && start(procs, 1, Some(FIRST)) == Ok(CHILD)
        && procs.next_process(None) == Some(FIRST)
        && procs.next_process(Some(FIRST)) == Some(CHILD)
        && procs.next_process(Some(CHILD)).is_none()
        && procs.next_real_thread(FIRST, 100) == Some(101)
        && procs.thread_count(FIRST) == 2;
    procs.whole();
    are_found
        && procs.parent(CHILD) == Some(FIRST)
        && procs.parent(FIRST).is_none()
        && next_real(procs, 1) == Some(103)
        && next_real(procs, 0) == Some(100)
        && !procs.has_real(2)
}

const SIGNAL: Signal = Signal(10);

const ONLY: RealPid = RealPid { node: 0, pid: 7 };

/// Whether signals of the process and of its thread are raised, where they are there.
fn are_raised(procs: &mut Procs) -> bool {
    procs.raise(ONLY, None, SIGNAL) == Err(ProcFault::NoProcess)
        && start(procs, 0, None) == Ok(ONLY)
        && procs.raise(ONLY, Some(8), SIGNAL) == Err(ProcFault::NoProcess)
        && procs.raise(ONLY, None, Signal(0)).is_ok()
        && procs.pending(ONLY, 7) == 0
        && procs.raise(ONLY, None, SIGNAL).is_ok()
        && procs.raise(ONLY, Some(7), SIGNAL).is_ok()
        && procs.pending_of(ONLY, None) == 0x200
        && procs.pending_of(ONLY, Some(7)) == 0x200
}

/// Whether the thread's signal is taken before the process's, and the thread ends.
fn are_taken(procs: &mut Procs) -> bool {
    let are_both = procs.take(ONLY, 7, SIGNAL)
        && procs.pending_of(ONLY, Some(7)) == 0
        && procs.pending(ONLY, 7) == 0x200
        && procs.take(ONLY, 7, SIGNAL)
        && !procs.take(ONLY, 7, SIGNAL);
    procs.end_thread(ONLY, 7);
    are_both && procs.next_real_thread(ONLY, 0).is_none()
}

/// Whether the processes from 1 to 128 are started, and no more.
fn are_full(procs: &mut Procs) -> bool {
    let mut all = !procs.is_full();
    for pid in 1..=128 {
        all &= start(procs, 0, None) == Ok(RealPid { node: 0, pid });
    }
    all && procs.is_full() && procs.has_real(0) && start(procs, 0, None) == Err(ProcFault::Full)
}

/// Whether a process gets the threads from 2 to 64, and no more.
fn is_full(procs: &mut Procs) -> bool {
    let mut all = start(procs, 0, None) == Ok(ROOT);
    for thread in 2..=64 {
        all &= add_thread(procs, ROOT) == Ok(thread);
    }
    all && procs.has_real(0)
        && procs.is_live(ROOT)
        && add_thread(procs, ROOT) == Err(ProcFault::Full)
}

/// The first process of a node. In the tables below `ELDER` and `YOUNGER` are its children, and `GRANDCHILD`
/// is a child of `ELDER`.
const ROOT: RealPid = RealPid { node: 0, pid: 1 };

const ELDER: RealPid = RealPid { node: 0, pid: 2 };

const YOUNGER: RealPid = RealPid { node: 0, pid: 3 };

const GRANDCHILD: RealPid = RealPid { node: 0, pid: 4 };

/// A call or some of them, and what is answered.
enum Step {
    Start(Option<RealPid>, RealPid),
    EndProcess(RealPid, u32),
    Status(RealPid, Option<u32>),
    /// What a wait of the process 1 would find.
    Look(Waiting),
    /// A wait of the process 1.
    Wait(Option<RealPid>, Result<(RealPid, u32), ProcFault>),
    /// The signals that wait for the process 1.
    Pending(u32),
    IsLive(RealPid),
    Parent(RealPid, Option<RealPid>),
    NextProcess(Option<RealPid>, Option<RealPid>),
    Numbered,
    Signalled,
    Full,
    FullProcess,
}

/// Whether the step is answered so.
fn answers(procs: &mut Procs, step: &Step) -> bool {
    match *step {
        Step::Start(parent, process) => start(procs, 0, parent) == Ok(process),
        Step::EndProcess(process, status) => {
            procs.end_process(process, status);
            true
        }
        Step::Status(process, answer) => procs.status(process) == answer,
        Step::Look(answer) => procs.look(ROOT, None) == answer,
        Step::Wait(child, answer) => procs.wait(ROOT, child) == answer,
        Step::Pending(signals) => procs.pending_of(ROOT, None) == signals,
        Step::IsLive(process) => procs.is_live(process),
        Step::Parent(process, answer) => procs.parent(process) == answer,
        Step::NextProcess(last, answer) => procs.next_process(last) == answer,
        Step::Numbered => are_numbered(procs),
        Step::Signalled => are_raised(procs) && are_taken(procs),
        Step::Full => are_full(procs),
        Step::FullProcess => is_full(procs),
    }
}

/// Each step of a new book of so many nodes, which begin at this number, is answered so.
fn follow(rt: &(impl Abort + AllocGlobal), nodes: u32, base: u32, steps: &[Step]) {
    let mut procs = Procs::new(rt.alloc(), nodes, base).expect(rt, "memory for the book");
    for step in steps {
        holds(rt, answers(&mut procs, step));
    }
}

#[test]
fn numbers_rise_on_each_node(rt: HostRuntime) {
    follow(&rt, 2, 100, &[Step::Numbered]);
}

#[test]
fn signals_are_raised_and_taken(rt: HostRuntime) {
    follow(&rt, 1, 7, &[Step::Signalled]);
}

#[rattlefmt::skip]
static ZOMBIES: [Step; 18] = [
    Step::Start(None, ROOT), Step::Start(Some(ROOT), ELDER), Step::Start(Some(ROOT), YOUNGER),
    Step::Start(Some(ELDER), GRANDCHILD), Step::Wait(Some(GRANDCHILD), Err(ProcFault::NoChild)),
    Step::Wait(None, Err(ProcFault::NotReady)), Step::EndProcess(GRANDCHILD, 9),
    Step::Status(GRANDCHILD, Some(9)), Step::EndProcess(YOUNGER, 256), Step::EndProcess(ELDER, 512),
    Step::Look(Waiting::Ended(ELDER, 512)), Step::Status(GRANDCHILD, None), Step::Pending(0x1_0000),
    Step::Wait(Some(YOUNGER), Ok((YOUNGER, 256))), Step::Wait(None, Ok((ELDER, 512))),
    Step::Wait(None, Err(ProcFault::NoChild)), Step::EndProcess(ROOT, 0), Step::NextProcess(None, None),
];

#[test]
fn ends_leave_zombies(rt: HostRuntime) {
    follow(&rt, 1, 1, &ZOMBIES);
}

#[rattlefmt::skip]
static ORPHAN: [Step; 13] = [
    Step::Start(None, ROOT), Step::Start(Some(ROOT), ELDER), Step::Start(Some(ROOT), YOUNGER),
    Step::Start(Some(ELDER), GRANDCHILD), Step::Parent(GRANDCHILD, Some(ELDER)),
    Step::EndProcess(ELDER, 512), Step::IsLive(GRANDCHILD), Step::Parent(GRANDCHILD, None),
    Step::Parent(YOUNGER, Some(ROOT)), Step::EndProcess(GRANDCHILD, 9), Step::Status(GRANDCHILD, None),
    Step::NextProcess(Some(YOUNGER), None), Step::Status(ELDER, Some(512)),
];

#[test]
fn a_live_child_is_left_without_a_parent(rt: HostRuntime) {
    follow(&rt, 1, 1, &ORPHAN);
}

#[test]
fn there_are_128_processes_at_most(rt: HostRuntime) {
    follow(&rt, 1, 1, &[Step::Full]);
}

#[test]
fn a_process_has_64_threads_at_most(rt: HostRuntime) {
    follow(&rt, 1, 1, &[Step::FullProcess]);
}
