//! One channel between two processes.
ghost use Rattle.std.specs.Prelude.{◌≡◌, ◌<◌, ◌≤◌, length, IfOk};
ghost use Rattle.std.specs.FinMap as map;
ghost use Rattle.std.specs.Option.{option_map_or};
ghost use Rattle.wire_channels.specs.Channels.{direction_at, new_channel};
ghost use Rattle.wire_channels.specs.Directions.{standing};
ghost use Rattle.worked_stages.specs.Alone.{IsAlone};
ghost use Rattle.worked_stages.specs.Ticks.{ticked};

use crate::checks::holds;
use std::alloc::Global;
use std::process::Abort;
use sys_abi::{ConnId, Dir, RealPid, VPid};
use wire_net::{AgentEnd, Net, NetFault, Place};

pub(crate) const CONN: ConnId = ConnId {
    pid: VPid(40_000),
    num: 1,
};

pub(crate) const FIRST: Dir = Dir {
    conn: CONN,
    side: 0,
};

pub(crate) const SECOND: Dir = Dir {
    conn: CONN,
    side: 1,
};

pub(crate) const CLIENT: RealPid = RealPid { node: 0, pid: 2000 };

pub(crate) const SERVER: RealPid = RealPid { node: 1, pid: 2000 };

pub(crate) const STRANGER: RealPid = RealPid { node: 1, pid: 2001 };

pub(crate) const ENDS: [AgentEnd; 2] = [
    AgentEnd {
        conn: CONN,
        side: 0,
        agent: Some(CLIENT),
    },
    AgentEnd {
        conn: CONN,
        side: 1,
        agent: Some(SERVER),
    },
];

/// A network with that channel, on which nothing was sent, and no other.
pub(crate) fn one_channel(rt: &impl Abort, alloc: Global) -> Result<Net, NetFault>
    ensures new { IfOk result (λ net. net.channels ≡ map.insert map.empty CONN new_channel) }
    ensures alone { IfOk result (λ net. IsAlone CONN net.channels) }
{
    let mut net = Net::new(alloc, 2, 20_000)?;
    holds(rt, !net.has(CONN));
    net.pair(CONN)?;
    Ok(net)
}

/// The whole text is sent.
pub(crate) fn say(rt: &impl Abort, net: &mut Net, d: Dir, text: &[u8])
    requires side { d.side < 2 }
    requires few { length text.now ≤ 65536 }
    requires alone { IsAlone CONN net.old.channels }
    ensures { IsAlone CONN net.new.channels }
{
    holds(rt, net.send(d, text) == Ok(text.len() as u32));
}

pub(crate) fn shut(net: &mut Net, d: Dir)
    requires side { d.side < 2 }
    requires alone { IsAlone CONN net.old.channels }
    ensures { IsAlone CONN net.new.channels }
{
    net.end(d);
}

/// The first direction's bytes go on: so many onto the wire, and so many of these to the receiver.
pub(crate) fn carry(net: &mut Net, onto: u32, off: u32)
    requires { IsAlone CONN net.old.channels }
    ensures { IsAlone CONN net.new.channels }
{
    net.move_bytes(FIRST, Place::Send, onto);
    net.move_bytes(FIRST, Place::Wire, off);
}

/// How many bytes stand in a direction.
pub(crate) fn stands(net: &Net, d: Dir) -> u32
    requires { d.side < 2 }
    ensures { result ≡ option_map_or standing (direction_at net.now.channels d) 0 }
{
    let [sent, wire, received] = net.counts(d);
    sent + wire + received
}

/// The wire of both directions moves what it can.
pub(crate) fn tick(net: &mut Net)
    ensures { net.new ≡ ticked FIRST SECOND net.old }
{
    net.move_bytes(FIRST, Place::Send, 9);
    net.move_bytes(FIRST, Place::Wire, 9);
    net.move_bytes(SECOND, Place::Send, 9);
    net.move_bytes(SECOND, Place::Wire, 9);
}
