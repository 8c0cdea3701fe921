// Calls that make processes and threads.
use crate::kernels::{Came, Change, FIRST, FORK, HOST, THREAD};
use crate::looks::{Look, Table};
use crate::steps::{Step, follow, follow_each};
use plain_machine::FIRST_PID;
use std::test::Fail;
use sys_abi::errors::{EAGAIN, EINVAL};
use sys_abi::{Maker, Signal, Tid, VPid};

const CHILD: VPid = VPid(FIRST_PID + 1);

const PARENT_SETTID: u32 = 0x0010_0000;

/// CHILD_SETTID and CHILD_CLEARTID.
const CHILD_PLACES: u32 = 0x0120_0000;

const NO_ROOM: Came = Came::Fails(EAGAIN);

const INVALID: Came = Came::Fails(EINVAL);

/// The answer to each of these flags, and the number where the parent asks for it.
static FORMS: [&[Step]; 10] = [
    &[Step::Clone(FIRST, FORK, Came::Value(40_001), None)],
    &[Step::Clone(
        FIRST,
        FORK | PARENT_SETTID,
        Came::Value(40_001),
        Some(40_001),
    )],
    &[Step::Clone(FIRST, FORK | CHILD_PLACES, Came::Value(40_001), None)],
    &[Step::Clone(
        FIRST,
        FORK | CHILD_PLACES | PARENT_SETTID,
        Came::Value(40_001),
        Some(40_001),
    )],
    &[Step::Clone(FIRST, 0, INVALID, None)],
    &[Step::Clone(FIRST, 18, INVALID, None)],
    &[Step::Clone(FIRST, FORK | 0x0008_0000, INVALID, None)],
    &[Step::Clone(FIRST, FORK | 0x100, INVALID, None)],
    &[Step::Clone(FIRST, FORK | THREAD, INVALID, None)],
    &[Step::Clone(FIRST, THREAD - 0x100, INVALID, None)],
];

#[test]
fn forms_of_clone(rt: HostRuntime) -> Result<(), Fail> {
    follow_each(&rt, &FORMS)
}

const MADE: Maker = Maker {
    host: HOST,
    made: 1,
};

static FORKED: [Step; 12] = [
    Step::Change(Change::CloseOnExec(2)),
    Step::Change(Change::Raise(FIRST, Signal(10))),
    Step::Clone(FIRST, FORK, Came::Value(40_001), None),
    Step::See(Look::Count(Table::Processes, 2)),
    Step::See(Look::NextId(40_002)),
    Step::See(Look::Parent(CHILD, FIRST_PID)),
    Step::See(Look::IsLive(CHILD, true)),
    Step::See(Look::ThreadCount(CHILD, 1)),
    Step::See(Look::HasThread(CHILD, Tid(40_001))),
    Step::See(Look::Pending(CHILD, Tid(40_001), 0)),
    Step::See(Look::Pending(FIRST, Tid(FIRST_PID), 0x200)),
    Step::See(Look::Maker(CHILD, Some(MADE))),
];

#[test]
fn child_of_a_fork(rt: HostRuntime) -> Result<(), Fail> {
    follow(&rt, &FORKED)
}

static INHERITED: [Step; 6] = [
    Step::Change(Change::CloseOnExec(2)),
    Step::Clone(FIRST, FORK, Came::Value(40_001), None),
    Step::See(Look::Count(Table::Descriptors, 6)),
    Step::See(Look::Count(Table::Descriptions, 1)),
    Step::See(Look::Shares(CHILD, 0)),
    Step::See(Look::Shares(CHILD, 2)),
];

#[test]
fn descriptors_of_a_child(rt: HostRuntime) -> Result<(), Fail> {
    follow(&rt, &INHERITED)
}

/// An ended process counts among the 128.
static PROCESSES: [Step; 7] = [
    Step::Clones(126, FORK),
    Step::Change(Change::Exit(CHILD, 0)),
    Step::Clone(FIRST, FORK, Came::Value(40_127), None),
    Step::See(Look::Count(Table::Processes, 128)),
    Step::Clone(FIRST, FORK, NO_ROOM, None),
    Step::Clone(FIRST, 0, INVALID, None),
    Step::See(Look::Count(Table::Processes, 128)),
];

#[test]
fn no_more_than_128_processes(rt: HostRuntime) -> Result<(), Fail> {
    follow(&rt, &PROCESSES)
}

static THREADS: [Step; 5] = [
    Step::Clones(62, THREAD),
    Step::Clone(FIRST, THREAD, Came::Value(40_063), None),
    Step::See(Look::ThreadCount(FIRST, 64)),
    Step::Clone(FIRST, THREAD, NO_ROOM, None),
    Step::Clone(FIRST, FORK, Came::Value(40_064), None),
];

#[test]
fn no_more_than_64_threads(rt: HostRuntime) -> Result<(), Fail> {
    follow(&rt, &THREADS)
}

/// Forks where these are the next numbers.
static LAST: [&[Step]; 2] = [
    &[
        Step::Change(Change::NextId(0x7FFF_FFFE)),
        Step::Clone(FIRST, FORK, Came::Value(0x7FFF_FFFE), None),
    ],
    &[
        Step::Change(Change::NextId(0x7FFF_FFFF)),
        Step::Clone(FIRST, FORK, NO_ROOM, None),
    ],
];

#[test]
fn last_number(rt: HostRuntime) -> Result<(), Fail> {
    follow_each(&rt, &LAST)
}
