//! Rounds of a drain: each agent makes one step, and the bytes of each direction pass on.
ghost use Rattle.std.specs.Prelude.{◌≡◌, ◌<◌, true, Some};
ghost use Rattle.drain_core.specs.Drains.{is_done};
ghost use Rattle.drain_core.specs.Work.{work_left, GoesOn};
ghost use Rattle.cut_stages.specs.Drains.{drain_task};
ghost use Rattle.cut_stages.specs.Rounds as words;

use cut_stages::base::{PASSING, acts_among, pump_on};
use drain_core::{Drain, drain_laws};
use sys_abi::{Dir, RealPid};
use wire_net::{AgentEnd, Net};

/// Rounds until all bytes are drained. Takes no memory.
pub(crate) fn drain_through(drain: &mut Drain, net: &mut Net, ends: &[AgentEnd])
    requires going { words.IsGoing drain_task (words.under_way net.old drain.old) }
    requires acting { words.AreActing ends.now (words.under_way net.old drain.old) }
    ensures on { words.IsFurther drain_task (words.under_way net.old drain.old)
        (words.under_way net.new drain.new) }
    ensures done { is_done net.new.channels drain.new ≡ true }
{
    while !drain.is_done(net) {
        go_round(drain, net, ends);
    }
}

fn go_round(drain: &mut Drain, net: &mut Net, ends: &[AgentEnd])
    requires going { words.IsGoing drain_task (words.under_way net.old drain.old) }
    requires acting { words.AreActing ends.now (words.under_way net.old drain.old) }
    requires left { GoesOn net.old.channels drain.old }
    ensures on { words.IsFurther drain_task (words.under_way net.old drain.old)
        (words.under_way net.new drain.new) }
    ensures less { work_left net.new.channels drain.new < work_left net.old.channels drain.old }
{
    for (place, e) in ends.iter().enumerate() {
        take_turn(drain, net, &ends[..place], *e);
    }
}

/// Who acts for the end makes a step, unless it acts for an end before, and the bytes of the direction that
/// the end sends pass on.
fn take_turn(drain: &mut Drain, net: &mut Net, before: &[AgentEnd], e: AgentEnd)
    requires { words.IsGoing drain_task (words.under_way net.old drain.old) }
    ensures on { words.IsFurther drain_task (words.under_way net.old drain.old)
        (words.under_way net.new drain.new) }
    ensures passed { words.Passed drain_task
        (words.IsStillAfter drain_task (words.under_way net.old drain.old) before.now e)
        (words.under_way net.old drain.old) (words.under_way net.new drain.new) }
{
    act_once(drain, net, before, e.agent);
    let d = Dir {
        conn: e.conn,
        side: e.side,
    };
    pass_on(drain, net, d);
}

/// The agent makes a step, unless it acts for an end before, where it had its step.
fn act_once(drain: &mut Drain, net: &mut Net, before: &[AgentEnd], agent: Option<RealPid>)
    requires { words.IsGoing drain_task (words.under_way net.old drain.old) }
    ensures on { words.IsFurther drain_task (words.under_way net.old drain.old)
        (words.under_way net.new drain.new) }
    ensures passed { words.Passed drain_task
        (words.IsIdleAfter drain_task (words.under_way net.old drain.old) before.now agent)
        (words.under_way net.old drain.old) (words.under_way net.new drain.new) }
{
    let Some(p) = agent else {
        return;
    };
    if acts_among(p, before) {
        return;
    }
    act(drain, net, p);
}

fn act(drain: &mut Drain, net: &mut Net, p: RealPid)
    requires { words.IsGoing drain_task (words.under_way net.old drain.old) }
    ensures on { words.IsFurther drain_task (words.under_way net.old drain.old)
        (words.under_way net.new drain.new) }
    ensures passed { words.Passed drain_task
        (words.IsIdle drain_task (words.under_way net.old drain.old) (Some p))
        (words.under_way net.old drain.old) (words.under_way net.new drain.new) }
{
    drain.step(net, p);
}

fn pass_on(drain: &Drain, net: &mut Net, d: Dir)
    requires { words.IsGoing drain_task (words.under_way net.old drain.now) }
    ensures on { words.IsFurther drain_task (words.under_way net.old drain.now)
        (words.under_way net.new drain.now) }
    ensures passed { words.Passed drain_task (words.IsQuiet (words.under_way net.old drain.now) d)
        (words.under_way net.old drain.now) (words.under_way net.new drain.now) }
{
    if d.side >= 2 {
        return;
    }
    drain_laws();
    pump_on(net, d, PASSING);
}
