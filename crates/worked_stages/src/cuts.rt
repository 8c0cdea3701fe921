//! One channel between two processes, drained and filled again.
ghost use Rattle.worked_stages.specs.Alone.{IsAlone};
ghost use Rattle.worked_stages.specs.Handed.{IsHanded};

use crate::channel::{CONN, ENDS, FIRST, SECOND, carry, one_channel, say, shut};
use crate::checks::{holds, reads};
use crate::drains::{self, lists};
use crate::refills;
use refill_core::Refill;
use std::alloc::AllocError;
use std::process::Abort;
use std::test::Fail;
use sys_abi::Transfer;
use wire_net::{CutRoom, DrainedNet, Net};

/// All that was drained comes back.
fn refilled(rt: &impl Abort, net: &mut Net, drained: DrainedNet, room: CutRoom)
    requires { IsHanded net.old.channels ENDS drained room }
{
    refills::finish(rt, net, Refill::begin(room, drained, &ENDS));
}

/// Asserts whether the first direction is ended, and what stands in its queues. The other one is empty.
fn stands(rt: &impl Abort, net: &Net, is_ended: bool, first: [u32; 3]) {
    holds(rt, net.is_ended(FIRST) == is_ended);
    holds(rt, net.counts(FIRST) == first);
    holds(rt, net.counts(SECOND) == [0, 0, 0]);
}

/// The first direction is drained of this text, which comes back. Between, this stands in its queues.
fn comes_back(
    rt: &(impl Abort + AllocGlobal),
    net: &mut Net,
    text: &[u8],
    in_place: bool,
    between: [u32; 3],
) -> Result<(), AllocError>
    requires { IsAlone CONN net.old.channels }
{
    let mut drain = drains::begin(rt.alloc(), net)?;
    drains::go_on(net, &mut drain);
    let (given, room) = drains::finished(rt, net, drain);
    lists(rt, &given, in_place, [text, b""]);
    stands(rt, net, in_place, between);
    refilled(rt, net, given, room);
    Ok(())
}

fn in_order(rt: &(impl Abort + AllocGlobal), net: &mut Net) -> Result<(), Fail>
    requires { IsAlone CONN net.old.channels }
{
    say(rt, net, FIRST, b"ninebytes");
    carry(net, 5, 3);
    holds(rt, net.counts(FIRST) == [4, 2, 3]);
    comes_back(rt, net, b"ninebytes", false, [0, 0, 0])?;
    stands(rt, net, false, [0, 0, 9]);
    let mut xfer = Transfer::new(rt.alloc())?;
    reads(rt, net, FIRST, 100, &mut xfer, b"ninebytes");
    Ok(())
}

#[test]
fn bytes_of_all_three_queues_come_back_in_order(rt: HostRuntime) -> Result<(), Fail> {
    let mut net = one_channel(&rt, rt.alloc())?;
    in_order(&rt, &mut net)
}

fn in_place(rt: &(impl Abort + AllocGlobal), net: &mut Net) -> Result<(), Fail>
    requires { IsAlone CONN net.old.channels }
{
    say(rt, net, FIRST, b"the last words");
    shut(net, FIRST);
    comes_back(rt, net, b"the last words", true, [0, 0, 14])?;
    stands(rt, net, true, [0, 0, 14]);
    holds(rt, net.carried(FIRST) == 14);
    let mut xfer = Transfer::new(rt.alloc())?;
    reads(rt, net, FIRST, 100, &mut xfer, b"the last words");
    reads(rt, net, FIRST, 100, &mut xfer, b"");
    Ok(())
}

#[test]
fn a_channel_that_has_ended_keeps_its_bytes_in_the_network(rt: HostRuntime) -> Result<(), Fail> {
    let mut net = one_channel(&rt, rt.alloc())?;
    in_place(&rt, &mut net)
}
