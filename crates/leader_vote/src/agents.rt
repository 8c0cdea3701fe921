//! Who acts for the ends of channels, once leaders are elected.
ghost use Rattle.std.specs.Prelude.{◌≡◌, false, [], length, map as each, All};
ghost use Rattle.std.specs.Option.{option_map, option_map_or, option_and_then};
ghost use Rattle.std.specs.FinMap as map;
ghost use Rattle.wire_net.specs.Reserves.{reserve};
ghost use Rattle.leader_vote.specs.Agents as words;

use fd_book::{Book, Object};
use sys_abi::{ConnId, DescId, Dir, RealAddr, RealPid};
use wire_net::{AgentEnd, Net, Room};

/// The side of a connection that waits to be accepted.
const ACCEPTING_SIDE: u8 = 1;

/// Behind which description the last end of each side was found: the next one mostly stands near it.
#[derive(Drop)]
struct Nearby {
    connecting: Option<DescId>,
    accepting: Option<DescId>,
}

/// Who leads a description, and the one before that, if there is one.
#[derive(Drop)]
struct Found {
    leader: RealPid,
    behind: Option<DescId>,
}

/// Lists the sending end of each direction with its agent, in room that was taken for them. Takes no memory.
pub fn name_agents(ends: &mut Room<AgentEnd>, dirs: &[Dir], book: &Book, net: &Net)
    requires { ends.old ≡ reserve [] (length dirs.now) }
    ensures places { each words.place_of ends.new.items ≡ dirs.now }
    ensures agents { All (words.IsActedFor book.now net.now.listeners) ends.new.items }
{
    let mut nearby = Nearby {
        connecting: None,
        accepting: None,
    };
    for d in dirs {
        ends.push(end_at(book, net, &mut nearby, *d));
    }
}

fn end_at(book: &Book, net: &Net, nearby: &mut Nearby, d: Dir) -> AgentEnd
    ensures place { words.place_of result ≡ d }
    ensures agent { words.IsActedFor book.now net.now.listeners result }
{
    let agent = if d.side == ACCEPTING_SIDE {
        agent_at(book, net, &mut nearby.accepting, d.conn, d.side)
    } else {
        agent_at(book, net, &mut nearby.connecting, d.conn, d.side)
    };
    AgentEnd {
        conn: d.conn,
        side: d.side,
        agent,
    }
}

/// The leader of a description that names the end, if one does. It is looked for first behind a description
/// that may be near, and then behind none.
fn agent_at(
    book: &Book,
    net: &Net,
    near: &mut Option<DescId>,
    conn: ConnId,
    side: u8,
) -> Option<RealPid>
    ensures { words.IsAgent book.now net.now.listeners conn side result }
{
    if let Some(found) = agent_after(book, net, *near, conn, side) {
        *near = found.behind;
        return Some(found.leader);
    }
    let Some(found) = agent_after(book, net, None, conn, side) else {
        return None;
    };
    *near = found.behind;
    Some(found.leader)
}

/// The leader of a description after that one which names the end, if one does.
fn agent_after(
    book: &Book,
    net: &Net,
    after: Option<DescId>,
    conn: ConnId,
    side: u8,
) -> Option<Found>
    ensures { words.IsAgentAfter book.now net.now.listeners after conn side
        (option_map (λ found. found.leader) result) }
{
    let mut above = after;
    while let Some(id) = book.next_desc(above) {
        if let Some(leader) = leader_at(book, net, id, conn, side) {
            return Some(Found {
                leader,
                behind: above,
            });
        }
        above = Some(id);
    }
    None
}

/// The leader of the description, where it names the end.
fn leader_at(book: &Book, net: &Net, id: DescId, conn: ConnId, side: u8) -> Option<RealPid>
    ensures { result
        ≡ option_and_then (words.leads_end net.now.listeners conn side) (map.get book.now.descriptions id) }
{
    let Some(desc) = book.desc(id) else {
        return None;
    };
    if names_end(net, &desc.object, conn, side) {
        desc.owner
    } else {
        None
    }
}

/// Whether it is the end of that side of the channel, or a listener at which that end waits.
fn names_end(net: &Net, object: &Object, conn: ConnId, side: u8) -> bool
    ensures { result ≡ words.names_end net.now.listeners conn side object.now }
{
    match *object {
        Object::Stream {
            conn: own,
            side: at,
        } => conn.cmp(&own).is_eq() && side == at,
        Object::Listener { at } => side == ACCEPTING_SIDE && waits_at(net, at, conn),
        Object::Console | Object::File { .. } | Object::Socket => false,
        Object::Datagram { .. } | Object::Counter { .. } => false,
    }
}

/// Whether the connection waits at the port.
fn waits_at(net: &Net, at: RealAddr, conn: ConnId) -> bool
    ensures { result ≡ option_map_or (words.waits_in conn) (map.get net.now.listeners at) false }
{
    let Some(backlog) = net.backlog(at) else {
        return false;
    };
    for place in 0..backlog {
        let Some(own) = net.queued(at, place) else {
            return false;
        };
        if conn.cmp(&own).is_eq() {
            return true;
        }
    }
    false
}
