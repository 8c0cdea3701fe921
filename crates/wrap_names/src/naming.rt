//! What a guest's call names, by look-ups in the tables of its system.
ghost use Rattle.std.specs.Prelude.{◌≡◌};
ghost use Rattle.std.specs.FinMap as map;
ghost use Rattle.host_streams.specs.OfHostTables.Network.{is_pipe_conn};
ghost use Rattle.plain_tables.specs.Tables as tables;
ghost use Rattle.wrap_names.specs.Naming as words;

use conn_table::ConnTable;
use fd_book::Object;
use host_streams::{System, held_at};
use sys_abi::{ConnId, DescId, Maker, RealPid, VPid};

/// Numbers of what a process makes are below this one, so that a call has room for those that it takes.
const LAST_MADE: u32 = 0xFFFF_FFFC;
/// The kinds of channels that are no pipes.
const PAIR: u8 = 0;

const INTERNET: u8 = 1;

/// Whether the descriptor leads to an end of a pipe.
pub fn leads_to_pipe(system: &System, who: RealPid, fd: u32) -> bool
    ensures { result ≡ words.of_pipe_in system.now who fd }
{
    let Some(held) = held_at(&system.kernel.book, who, fd) else {
        return false;
    };
    match held.description.object {
        Object::Stream { conn, .. } => is_pipe(&system.conns, conn),
        _ => false,
    }
}

/// Whether the channel is a pipe.
fn is_pipe(conns: &ConnTable, conn: ConnId) -> bool
    ensures { result ≡ is_pipe_conn (map.get conns.now.conns conn) }
{
    let Some(listed) = conns.get(conn) else {
        return false;
    };
    if listed.kind == PAIR {
        return false;
    }
    if listed.kind == INTERNET {
        return false;
    }
    true
}

/// The real number of the process of the caller's host that has the number, live or not.
pub fn named(system: &System, p: VPid, number: u32) -> Option<RealPid>
    ensures { result ≡ words.named_in system.now p number }
{
    if !same_host(system.conns.maker(p), system.conns.maker(VPid(number))) {
        return None;
    }
    let Ok(real) = system.ids.real_pid(number) else {
        return None;
    };
    Some(real)
}

pub fn same_host(a: Option<Maker>, b: Option<Maker>) -> bool
    ensures { result ≡ tables.same_host a b }
{
    let Some(a) = a else {
        return false;
    };
    let Some(b) = b else {
        return false;
    };
    a.host == b.host
}

/// The number of the next description that the process makes, None where it has no more to give out.
pub fn next_desc(conns: &ConnTable, p: VPid) -> Option<DescId>
    ensures { result ≡ words.desc_in conns.now.makers p }
{
    let made = made_by(conns, p);
    if made >= LAST_MADE {
        return None;
    }
    Some(DescId { pid: p, num: made })
}

/// How many things the process has made.
pub fn made_by(conns: &ConnTable, p: VPid) -> u32
    ensures { result ≡ words.made_in conns.now.makers p }
{
    match conns.maker(p) {
        Some(maker) => maker.made,
        None => 0,
    }
}
