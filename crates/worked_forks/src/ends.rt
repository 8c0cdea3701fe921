// Processes and threads that end, and what each end leaves.
use crate::kernels::{Came, Change, FIRST, FORK, THREAD};
use crate::looks::{Look, Table};
use crate::steps::{Step, follow};
use plain_machine::FIRST_PID;
use std::test::Fail;
use sys_abi::{Signal, Tid, VPid};

const CHILD: VPid = VPid(FIRST_PID + 1);

const GRANDCHILD: VPid = VPid(FIRST_PID + 2);

/// The parent of a process whose own has ended.
const NOBODY: u32 = 1;

/// The first process gets a child.
const FORK_CHILD: Step = Step::Clone(FIRST, FORK, Came::Value(40_001), None);

/// The child gets a child.
const FORK_GRANDCHILD: Step = Step::Clone(CHILD, FORK, Came::Value(40_002), None);

static CHILD_ENDS: [Step; 10] = [
    FORK_CHILD,
    FORK_GRANDCHILD,
    Step::Change(Change::Raise(CHILD, Signal(10))),
    Step::Change(Change::Exit(CHILD, 5)),
    Step::See(Look::Zombie(CHILD, 0x500)),
    Step::See(Look::Pending(FIRST, Tid(FIRST_PID), 0x1_0000)),
    Step::See(Look::Parent(GRANDCHILD, NOBODY)),
    Step::See(Look::Pending(GRANDCHILD, Tid(40_002), 0)),
    Step::See(Look::Count(Table::Descriptors, 6)),
    Step::See(Look::Count(Table::Descriptions, 1)),
];

#[test]
fn child_that_ends(rt: HostRuntime) -> Result<(), Fail> {
    follow(&rt, &CHILD_ENDS)
}

static ORPHAN_ENDS: [Step; 7] = [
    FORK_CHILD,
    FORK_GRANDCHILD,
    Step::Change(Change::Exit(CHILD, 0)),
    Step::Change(Change::Exit(GRANDCHILD, 0)),
    Step::See(Look::IsThere(GRANDCHILD, false)),
    Step::See(Look::Maker(GRANDCHILD, None)),
    Step::See(Look::Count(Table::Processes, 2)),
];

#[test]
fn orphan_that_ends(rt: HostRuntime) -> Result<(), Fail> {
    follow(&rt, &ORPHAN_ENDS)
}

static PARENT_ENDS: [Step; 11] = [
    FORK_CHILD,
    FORK_GRANDCHILD,
    Step::Change(Change::Exit(GRANDCHILD, 0)),
    Step::See(Look::Count(Table::Processes, 3)),
    Step::Change(Change::Exit(CHILD, 0)),
    Step::See(Look::IsThere(GRANDCHILD, false)),
    Step::See(Look::Count(Table::Makers, 2)),
    Step::Change(Change::Exit(FIRST, 0)),
    Step::See(Look::Count(Table::Processes, 0)),
    Step::See(Look::Count(Table::Makers, 0)),
    Step::See(Look::Count(Table::Descriptions, 0)),
];

#[test]
fn parent_that_ends_before_a_wait(rt: HostRuntime) -> Result<(), Fail> {
    follow(&rt, &PARENT_ENDS)
}

static OWNER_ENDS: [Step; 7] = [
    FORK_CHILD,
    FORK_GRANDCHILD,
    Step::Change(Change::Own(CHILD)),
    Step::Change(Change::Exit(GRANDCHILD, 0)),
    Step::See(Look::Owner(40_001)),
    Step::Change(Change::Exit(CHILD, 0)),
    Step::See(Look::Owner(0)),
];

#[test]
fn owner_that_ends(rt: HostRuntime) -> Result<(), Fail> {
    follow(&rt, &OWNER_ENDS)
}

static LAST_THREAD: [Step; 7] = [
    FORK_CHILD,
    FORK_GRANDCHILD,
    Step::Clone(CHILD, THREAD, Came::Value(40_003), None),
    Step::Change(Change::ExitThread(CHILD, Tid(40_001), 1)),
    Step::See(Look::IsLive(CHILD, true)),
    Step::Change(Change::ExitThread(CHILD, Tid(40_003), 7)),
    Step::See(Look::Zombie(CHILD, 0x700)),
];

#[test]
fn last_thread_that_ends(rt: HostRuntime) -> Result<(), Fail> {
    follow(&rt, &LAST_THREAD)
}
