//! What a call makes: the call over real numbers, its entry in the table of channels, and how many numbers of
//! its process it takes.
ghost use Rattle.std.specs.Prelude.{◌≡◌};
ghost use Rattle.wrap_makers.specs.Making as words;

use crate::entries::Entry;
use call_table::Request;
use conn_table::ConnTable;
use host_tables::{ChannelIds, PairIds, RealRequest};
use sys_abi::{ConnId, DescId, VPid, VirtAddr};
use wrap_names::naming::{made_by, next_desc};

/// The kinds of channels in the table: a pair of sockets, and a pipe.
const PAIR: u8 = 0;

const PIPE: u8 = 2;

/// The type of a pair of streams.
const STREAMS: u32 = 1;

/// Numbers of what a process makes are below this one, so that a call has room for those that it takes.
const LAST_MADE: u32 = 0xFFFF_FFFC;

/// What a call makes.
#[derive(Clone, Copy)]
pub struct Making {
    pub call: RealRequest,
    pub entry: Entry,
    pub count: u32,
}

/// What a call of the process makes.
#[tactic(auto, unfolding(crate::specs::Making::making_in))]
pub(crate) fn making_of(conns: &ConnTable, p: VPid, request: &Request) -> Making
    ensures { result ≡ words.making_in conns.now.makers p request.now }
{
    match *request {
        Request::Socket {
            domain,
            socket_type,
            protocol,
        } => making_socket(conns, p, domain, socket_type, protocol),
        Request::Pipe2 { flags, .. } => making_pipe(conns, p, flags),
        Request::Socketpair {
            domain,
            socket_type,
            protocol,
            ..
        } => making_pair(conns, p, domain, socket_type, protocol),
        _ => Making {
            call: RealRequest::Unknown(0),
            entry: Entry::Nothing,
            count: 0,
        },
    }
}

/// A socket, which has the port 0 of its host until it is bound.
fn making_socket(conns: &ConnTable, p: VPid, domain: u32, socket_type: u32, protocol: u32) -> Making
    ensures { result ≡ words.making_socket conns.now.makers p domain socket_type protocol }
{
    let id = next_desc(conns, p);
    Making {
        call: RealRequest::Socket {
            domain,
            socket_type,
            protocol,
            id,
        },
        entry: name_of(id, host_of(conns, p)),
        count: 1,
    }
}

/// A pipe and its two descriptions.
fn making_pipe(conns: &ConnTable, p: VPid, flags: u32) -> Making
    ensures { result ≡ words.making_pipe conns.now.makers p flags }
{
    let ids = next_channel(conns, p);
    Making {
        call: RealRequest::Pipe2 { flags, ids },
        entry: channel_of(ids, PIPE),
        count: 3,
    }
}

/// A pair of streams, which is a channel and two descriptions, or the two descriptions of a pair of datagram
/// ends.
fn making_pair(conns: &ConnTable, p: VPid, domain: u32, socket_type: u32, protocol: u32) -> Making
    ensures { result ≡ words.making_pair conns.now.makers p domain socket_type protocol }
{
    let streams = next_channel(conns, p);
    let call = RealRequest::Socketpair {
        domain,
        socket_type,
        protocol,
        streams,
        datagrams: next_pair(conns, p),
    };
    if socket_type % 16 == STREAMS {
        Making {
            call,
            entry: channel_of(streams, PAIR),
            count: 3,
        }
    } else {
        Making {
            call,
            entry: Entry::Nothing,
            count: 2,
        }
    }
}

fn name_of(id: Option<DescId>, host: u32) -> Entry
    ensures { result ≡ words.name_of id host }
{
    match id {
        Some(id) => Entry::Name(id, VirtAddr { host, port: 0 }),
        None => Entry::Nothing,
    }
}

fn channel_of(ids: Option<ChannelIds>, kind: u8) -> Entry
    ensures { result ≡ words.channel_of ids kind }
{
    match ids {
        Some(ids) => Entry::Channel(ids.channel, kind),
        None => Entry::Nothing,
    }
}

/// The next numbers for a channel and its ends, None where the process has no more to give out.
fn next_channel(conns: &ConnTable, p: VPid) -> Option<ChannelIds>
    ensures { result ≡ words.channel_in conns.now.makers p }
{
    let made = made_by(conns, p);
    if made >= LAST_MADE {
        return None;
    }
    Some(ChannelIds {
        channel: ConnId { pid: p, num: made },
        first: DescId {
            pid: p,
            num: made + 1,
        },
        second: DescId {
            pid: p,
            num: made + 2,
        },
    })
}

/// The next numbers for the ends of a datagram pair, None where the process has no more to give out.
fn next_pair(conns: &ConnTable, p: VPid) -> Option<PairIds>
    ensures { result ≡ words.pair_in conns.now.makers p }
{
    let made = made_by(conns, p);
    if made >= LAST_MADE {
        return None;
    }
    Some(PairIds {
        first: DescId { pid: p, num: made },
        second: DescId {
            pid: p,
            num: made + 1,
        },
    })
}

/// The host of a process.
fn host_of(conns: &ConnTable, p: VPid) -> u32
    ensures { result ≡ words.host_in conns.now.makers p }
{
    match conns.maker(p) {
        Some(maker) => maker.host,
        None => 0,
    }
}
