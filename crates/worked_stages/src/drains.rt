//! Drains of one channel between two processes.
ghost use Rattle.std.specs.Prelude.{IfOk};
ghost use Rattle.worked_stages.specs.Alone.{IsAlone};
ghost use Rattle.worked_stages.specs.Handed.{IsDraining, IsHanded};

use crate::channel::{
    CLIENT, CONN, ENDS, FIRST, SECOND, SERVER, STRANGER, one_channel, say, shut, stands, tick,
};
use crate::checks::holds;
use drain_core::{Drain, drain_laws};
use std::alloc::{AllocError, Global};
use std::process::Abort;
use std::test::Fail;
use sys_abi::RealPid;
use wire_net::{CutRoom, DirBytes, DrainedNet, Net, Stepped};

pub(crate) fn begin(alloc: Global, net: &Net) -> Result<Drain, AllocError>
    requires { IsAlone CONN net.now.channels }
    ensures { IfOk result (λ drain. IsDraining net.now.channels ENDS drain) }
{
    let lengths = [(FIRST, stands(net, FIRST)), (SECOND, stands(net, SECOND))];
    let room = CutRoom::reserve(alloc, &lengths)?;
    Ok(Drain::begin(room, net, &ENDS))
}

fn step(net: &mut Net, drain: &mut Drain, agent: RealPid) -> Stepped
    requires { IsDraining net.old.channels ENDS drain.old }
    ensures { IsDraining net.new.channels ENDS drain.new }
{
    drain.step(net, agent)
}

/// Both agents make a step, and the wire moves.
fn round(net: &mut Net, drain: &mut Drain)
    requires { IsDraining net.old.channels ENDS drain.old }
    ensures { IsDraining net.new.channels ENDS drain.new }
{
    drain_laws();
    step(net, drain, CLIENT);
    step(net, drain, SERVER);
    tick(net);
}

pub(crate) fn go_on(net: &mut Net, drain: &mut Drain)
    requires { IsDraining net.old.channels ENDS drain.old }
    ensures { IsDraining net.new.channels ENDS drain.new }
{
    for _round in 0..6 {
        round(net, drain);
    }
}

/// The drain is done. What it gives, and the room.
pub(crate) fn finished(rt: &impl Abort, net: &Net, drain: Drain) -> (DrainedNet, CutRoom)
    requires { IsDraining net.now.channels ENDS drain }
    ensures { IsHanded net.now.channels ENDS result.0 result.1 }
{
    holds(rt, drain.is_done(net));
    drain.finish(net)
}

/// Whether the list has this text, which was left in place or not.
fn is_list(list: &DirBytes, in_place: bool, text: &[u8]) -> bool {
    list.in_place == in_place && list.bytes.as_slice() == text
}

/// What was drained of both directions.
pub(crate) fn lists(rt: &impl Abort, drained: &DrainedNet, in_place: bool, texts: [&[u8]; 2]) {
    let lists = drained.lists.as_slice();
    holds(rt, lists.len() == 2);
    holds(rt, is_list(&lists[0], in_place, texts[0]));
    holds(rt, is_list(&lists[1], in_place, texts[1]));
}

/// The drain goes on to its end, and gives these lists.
fn gives(rt: &impl Abort, net: &mut Net, mut drain: Drain, in_place: bool, texts: [&[u8]; 2])
    requires { IsDraining net.old.channels ENDS drain }
{
    go_on(net, &mut drain);
    let (drained, _room) = finished(rt, net, drain);
    lists(rt, &drained, in_place, texts);
}

/// A stranger has nothing to do, and the client moves what it can at once.
fn first_steps(rt: &impl Abort, net: &mut Net, drain: &mut Drain)
    requires { IsDraining net.old.channels ENDS drain.old }
    ensures { IsDraining net.new.channels ENDS drain.new }
{
    holds(rt, step(net, drain, STRANGER) == Stepped::Finished);
    holds(rt, step(net, drain, CLIENT) == Stepped::Moved);
    holds(rt, step(net, drain, CLIENT) == Stepped::Again);
}

fn empties(rt: &(impl Abort + AllocGlobal), net: &mut Net) -> Result<(), Fail>
    requires { IsAlone CONN net.old.channels }
{
    say(rt, net, FIRST, b"hello");
    say(rt, net, SECOND, b"good morning");
    let mut drain = begin(rt.alloc(), net)?;
    first_steps(rt, net, &mut drain);
    gives(rt, net, drain, false, [b"hello", b"good morning"]);
    holds(rt, net.counts(FIRST) == [0, 0, 0]);
    holds(rt, net.counts(SECOND) == [0, 0, 0]);
    holds(rt, net.carried(FIRST) == 21);
    Ok(())
}

#[test]
fn both_ways_are_emptied(rt: HostRuntime) -> Result<(), Fail> {
    let mut net = one_channel(&rt, rt.alloc())?;
    empties(&rt, &mut net)
}

fn leaves(rt: &(impl Abort + AllocGlobal), net: &mut Net) -> Result<(), Fail>
    requires { IsAlone CONN net.old.channels }
{
    say(rt, net, FIRST, b"the last words");
    shut(net, FIRST);
    let drain = begin(rt.alloc(), net)?;
    holds(rt, !drain.has_work(net, SERVER));
    holds(rt, !drain.is_done(net));
    gives(rt, net, drain, true, [b"the last words", b""]);
    holds(rt, net.counts(FIRST) == [0, 0, 14]);
    Ok(())
}

#[test]
fn a_channel_that_has_ended_is_left_in_place(rt: HostRuntime) -> Result<(), Fail> {
    let mut net = one_channel(&rt, rt.alloc())?;
    leaves(&rt, &mut net)
}
