// Calls that await children.
use crate::kernels::{Came, Change, FIRST, FORK};
use crate::looks::{Look, Table};
use crate::steps::{Step, follow};
use plain_machine::FIRST_PID;
use std::test::Fail;
use sys_abi::errors::{ECHILD, EINVAL};
use sys_abi::{Tid, VPid};

const LOW: VPid = VPid(FIRST_PID + 1);

const HIGH: VPid = VPid(FIRST_PID + 2);

/// -1.
const ANY: u32 = 0xFFFF_FFFF;

/// WNOHANG.
const AT_ONCE: u32 = 1;

const INVALID: Came = Came::Fails(EINVAL);

const NO_CHILD: Came = Came::Fails(ECHILD);

/// Two children of the first process.
const FAMILY: Step = Step::Clones(2, FORK);

static OF_LIVE: [Step; 14] = [
    FAMILY,
    Step::Wait(FIRST, (ANY, 0, 1), INVALID),
    Step::Wait(FIRST, (ANY, 2, 0), INVALID),
    Step::Wait(FIRST, (0, 0, 0), INVALID),
    Step::Wait(FIRST, (0xFFFF_FFFE, 0, 0), INVALID),
    Step::Wait(FIRST, (0x8000_0000, 1, 0), INVALID),
    Step::Wait(FIRST, (7, 3, 0), INVALID),
    Step::Wait(FIRST, (7, 0, 0x1000), INVALID),
    Step::Wait(FIRST, (7, 0, 0), NO_CHILD),
    Step::Wait(FIRST, (FIRST_PID, 1, 0), NO_CHILD),
    Step::Wait(FIRST, (0x7FFF_FFFF, 0, 0), NO_CHILD),
    Step::Wait(FIRST, (ANY, 0, 0), Came::Waits),
    Step::Wait(FIRST, (40_002, 0, 0), Came::Waits),
    Step::Wait(FIRST, (ANY, AT_ONCE, 0), Came::Value(0)),
];

#[test]
fn waits_for_live_children(rt: HostRuntime) -> Result<(), Fail> {
    follow(&rt, &OF_LIVE)
}

/// A process without children: its parent and its sibling are none.
static OF_NONE: [Step; 5] = [
    FAMILY,
    Step::Wait(LOW, (ANY, 0, 0), NO_CHILD),
    Step::Wait(LOW, (ANY, AT_ONCE, 0), NO_CHILD),
    Step::Wait(LOW, (FIRST_PID, 0, 0), NO_CHILD),
    Step::Wait(LOW, (40_002, 0, 0), NO_CHILD),
];

#[test]
fn waits_without_children(rt: HostRuntime) -> Result<(), Fail> {
    follow(&rt, &OF_NONE)
}

static LEAST: [Step; 11] = [
    FAMILY,
    Step::Change(Change::Exit(HIGH, 3)),
    Step::Change(Change::Exit(LOW, 0x1FF)),
    Step::Reap(ANY, 40_001, 0xFF00),
    Step::Reap(ANY, 40_002, 0x300),
    Step::Wait(FIRST, (ANY, 0, 0), NO_CHILD),
    Step::Wait(FIRST, (ANY, AT_ONCE, 0), NO_CHILD),
    Step::Wait(FIRST, (FIRST_PID, 0, 0), NO_CHILD),
    Step::Wait(FIRST, (40_002, 0, 0), NO_CHILD),
    Step::See(Look::Count(Table::Processes, 1)),
    Step::See(Look::NextId(40_003)),
];

#[test]
fn the_least_that_has_ended(rt: HostRuntime) -> Result<(), Fail> {
    follow(&rt, &LEAST)
}

static NAMED: [Step; 6] = [
    FAMILY,
    Step::Change(Change::Exit(LOW, 1)),
    Step::Change(Change::Exit(HIGH, 0)),
    Step::Reap(40_002, 40_002, 0),
    Step::See(Look::IsThere(LOW, true)),
    Step::Reap(40_001, 40_001, 0x100),
];

#[test]
fn the_one_that_is_named(rt: HostRuntime) -> Result<(), Fail> {
    follow(&rt, &NAMED)
}

static AMONG_OTHERS: [Step; 6] = [
    FAMILY,
    Step::Change(Change::End(HIGH, 9)),
    Step::Wait(FIRST, (40_001, 0, 0), Came::Waits),
    Step::Wait(FIRST, (40_001, AT_ONCE, 0), Came::Value(0)),
    Step::Reap(ANY, 40_002, 9),
    Step::See(Look::Pending(FIRST, Tid(FIRST_PID), 0x1_0000)),
];

#[test]
fn the_one_that_has_ended_among_others(rt: HostRuntime) -> Result<(), Fail> {
    follow(&rt, &AMONG_OTHERS)
}
