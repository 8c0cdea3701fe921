//! Rounds of a refill: each agent makes one step, and the bytes of each direction pass on.
ghost use Rattle.std.specs.Prelude.{◌≡◌, ◌<◌, true, Some};
ghost use Rattle.refill_core.specs.Stepping.{state};
ghost use Rattle.refill_core.specs.Work.{is_done, work_left, GoesOn};
ghost use Rattle.cut_stages.specs.Resumptions.{refill_task};
ghost use Rattle.cut_stages.specs.Rounds as words;

use crate::base::{PASSING, acts_among, pump_on};
use refill_core::{Refill, refill_laws};
use sys_abi::{Dir, RealPid};
use wire_net::{AgentEnd, Net};

/// Rounds until all bytes are back. Takes no memory.
pub(crate) fn refill_through(refill: &mut Refill, net: &mut Net, ends: &[AgentEnd])
    requires going { words.IsGoing refill_task (words.under_way net.old refill.old) }
    requires acting { words.AreActing ends.now (words.under_way net.old refill.old) }
    ensures on { words.IsFurther refill_task (words.under_way net.old refill.old)
        (words.under_way net.new refill.new) }
    ensures done { is_done net.new.channels refill.new ≡ true }
{
    while !refill.is_done(net) {
        go_round(refill, net, ends);
    }
}

fn go_round(refill: &mut Refill, net: &mut Net, ends: &[AgentEnd])
    requires going { words.IsGoing refill_task (words.under_way net.old refill.old) }
    requires acting { words.AreActing ends.now (words.under_way net.old refill.old) }
    requires left { GoesOn (state refill.old net.old) }
    ensures on { words.IsFurther refill_task (words.under_way net.old refill.old)
        (words.under_way net.new refill.new) }
    ensures less { work_left net.new.channels refill.new < work_left net.old.channels refill.old }
{
    for (place, e) in ends.iter().enumerate() {
        take_turn(refill, net, &ends[..place], *e);
    }
}

/// Who acts for the end makes a step, unless it acts for an end before, and the bytes of the direction that
/// the end sends pass on.
fn take_turn(refill: &mut Refill, net: &mut Net, before: &[AgentEnd], e: AgentEnd)
    requires { words.IsGoing refill_task (words.under_way net.old refill.old) }
    ensures on { words.IsFurther refill_task (words.under_way net.old refill.old)
        (words.under_way net.new refill.new) }
    ensures passed { words.Passed refill_task
        (words.IsStillAfter refill_task (words.under_way net.old refill.old) before.now e)
        (words.under_way net.old refill.old) (words.under_way net.new refill.new) }
{
    act_once(refill, net, before, e.agent);
    let d = Dir {
        conn: e.conn,
        side: e.side,
    };
    pass_on(refill, net, d);
}

/// The agent makes a step, unless it acts for an end before, where it had its step.
fn act_once(refill: &mut Refill, net: &mut Net, before: &[AgentEnd], agent: Option<RealPid>)
    requires { words.IsGoing refill_task (words.under_way net.old refill.old) }
    ensures on { words.IsFurther refill_task (words.under_way net.old refill.old)
        (words.under_way net.new refill.new) }
    ensures passed { words.Passed refill_task
        (words.IsIdleAfter refill_task (words.under_way net.old refill.old) before.now agent)
        (words.under_way net.old refill.old) (words.under_way net.new refill.new) }
{
    let Some(p) = agent else {
        return;
    };
    if acts_among(p, before) {
        return;
    }
    act(refill, net, p);
}

fn act(refill: &mut Refill, net: &mut Net, p: RealPid)
    requires { words.IsGoing refill_task (words.under_way net.old refill.old) }
    ensures on { words.IsFurther refill_task (words.under_way net.old refill.old)
        (words.under_way net.new refill.new) }
    ensures passed { words.Passed refill_task
        (words.IsIdle refill_task (words.under_way net.old refill.old) (Some p))
        (words.under_way net.old refill.old) (words.under_way net.new refill.new) }
{
    refill.step(net, p);
}

fn pass_on(refill: &Refill, net: &mut Net, d: Dir)
    requires { words.IsGoing refill_task (words.under_way net.old refill.now) }
    ensures on { words.IsFurther refill_task (words.under_way net.old refill.now)
        (words.under_way net.new refill.now) }
    ensures passed { words.Passed refill_task (words.IsQuiet (words.under_way net.old refill.now) d)
        (words.under_way net.old refill.now) (words.under_way net.new refill.now) }
{
    if d.side >= 2 {
        return;
    }
    refill_laws();
    pump_on(net, d, PASSING);
}
