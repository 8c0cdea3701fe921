// What no clause can say: that a fork's child is made with memory to spare; and its part at values worked out
// by hand.
ghost use Rattle.std.specs.Prelude.{◌≡◌, is_some, OnOk, true};
ghost use Rattle.plain_process.specs.Buffers.{lent};

use crate::guests::hello;
use crate::steps::{NEW, Step, THREAD, WORD, go_on};
use call_table::Request;
use guest_proc::Guest;
use std::alloc::Global;
use std::test::Fail;
use sys_abi::{Transfer, VPid};

/// A fork whose child's number stands at a word of the child's memory, which the end of its thread clears.
const FORK: Request = Request::Clone {
    flags: 0x0120_0011,
    stack: 0x7FFF_8000,
    parent_tid: 0,
    tls: 0x1234,
    child_tid: WORD,
};

/// The child of a fork of the first thread.
#[tactic(auto, unfolding(plain_process::specs::Put::made_by))]
fn child_of(alloc: Global, guest: &Guest) -> Result<Guest, Fail> {
    let mut child = guest.fork_guest(alloc, THREAD)?;
    lend(alloc, &mut child, &FORK)?;
    child.settle(VPid(NEW.0), &FORK);
    Ok(child)
}

/// Asserts that the fork has what it needs of its process's memory.
fn lend(alloc: Global, guest: &mut Guest, request: &Request) -> Result<(), Fail>
    ensures { OnOk result (is_some (lent guest.new.user.memory request.now) ≡ true) }
{
    let mut transfer = Transfer::new(alloc)?;
    guest.lend(THREAD, request, &mut transfer)?;
    Ok(())
}

static CHILD: [Step; 7] = [
    Step::Pid(40_001),
    Step::NextThread(0, Some(NEW)),
    Step::Register(NEW, 2, 0x7FFF_8000),
    Step::Register(NEW, 4, 0),
    Step::Register(NEW, 10, 0),
    Step::ClearTid(NEW, WORD),
    Step::Word(WORD / 4096, 40_001),
];

#[test]
fn a_fork_makes_a_child(rt: HostRuntime) -> Result<(), Fail> {
    let guest = hello(rt.alloc())?;
    let mut child = child_of(rt.alloc(), &guest)?;
    go_on(&rt, &mut child, &CHILD);
    Ok(())
}
