//! How the notes on each direction begin.
ghost use Rattle.std.specs.Prelude.{◌≡◌, ◌≢◌, ◌<◌, ◌≤◌, ℕ, map as each, IfSome, All};
ghost use Rattle.std.specs.Option.{option_map_or};
ghost use Rattle.sys_abi.specs.declared.identity.ConnId.{ConnId};
ghost use Rattle.wire_channels.specs.declared.limits.TheConstants.{QUEUE_LIMIT};
ghost use Rattle.wire_channels.specs.Channels.{direction_at};
ghost use Rattle.wire_channels.specs.Directions.{standing};
ghost use Rattle.wire_net.specs.Ends.{agent_of};
ghost use Rattle.wire_net.specs.Noted.{Apart, dirs_of};
ghost use Rattle.drain_core.specs.Openings.{opened};

use sys_abi::{ConnId, Dir};
use wire_net::{AgentEnd, DirNotes, Net, agent_of};

/// How many bytes stand in a direction, if its channel is there.
fn standing_in(net: &Net, notes: &DirNotes) -> u32
    requires { notes.now.dir.side < 2 }
    ensures standing { result ≡ option_map_or standing (direction_at net.now.channels notes.now.dir) 0 }
    ensures few { result ≤ QUEUE_LIMIT }
{
    let [sent, wire, received] = net.counts(notes.dir);
    sent + wire + received
}

/// Notes how many bytes stand in the direction, and the agents of its ends where its channel is live.
fn open(notes: &mut DirNotes, net: &Net, ends: &[AgentEnd])
    requires { notes.old.dir.side < 2 }
    ensures opened { notes.new ≡ opened net.now.channels ends.now notes.old }
    ensures few { notes.new.count ≤ QUEUE_LIMIT }
{
    notes.count = standing_in(net, notes);
    if net.is_live(notes.dir.conn) {
        notes.sender = agent_of(ends, notes.dir.conn, notes.dir.side);
        notes.reader = agent_of(ends, notes.dir.conn, 1 - notes.dir.side);
    }
}

/// The ends behind the first one, if that is of the connection, and else all of them.
fn ends_behind(ends: &[AgentEnd], conn: ConnId) -> &[AgentEnd]
    ensures { (c : ConnId) (side : ℕ) → c ≢ conn → agent_of result.now c side ≡ agent_of ends.now c side }
{
    if ends.is_empty() || ends[0].conn.cmp(&conn).is_ne() {
        return ends;
    }
    &ends[1..]
}

/// The ends that are left once a direction has begun behind the last one: where both are of one connection,
/// no other direction is, and its ends mostly stand first.
fn ends_left(ends: &[AgentEnd], last: Option<Dir>, d: Dir) -> &[AgentEnd]
    ensures { (c : ConnId) (side : ℕ) → IfSome last (λ e. e.conn ≡ d.conn → c ≢ d.conn)
        → agent_of result.now c side ≡ agent_of ends.now c side }
{
    let Some(before) = last else {
        return ends;
    };
    if before.conn.cmp(&d.conn).is_ne() {
        return ends;
    }
    ends_behind(ends_behind(ends, d.conn), d.conn)
}

/// Opens the notes on all directions. Ends mostly stand in the order of the notes, so that they are the next
/// ones.
pub(crate) fn open_all(all: &mut [DirNotes], net: &Net, ends: &[AgentEnd])
    requires apart { Apart (dirs_of all.old) }
    requires sides { All (λ notes. notes.dir.side < 2) all.old }
    ensures opened { all.new ≡ each (opened net.now.channels ends.now) all.old }
    ensures few { All (λ notes. notes.count ≤ QUEUE_LIMIT) all.new }
{
    let mut rest = ends;
    let mut last = None;
    for notes in all.iter_mut() {
        let d = notes.dir;
        open(notes, net, rest);
        rest = ends_left(rest, last, d);
        last = Some(d);
    }
}
