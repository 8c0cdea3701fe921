//! The directions of channels, and how many bytes of each are on the way.
ghost use Rattle.std.specs.Prelude.{◌≡◌, ◌<◌, find, option_map};
ghost use Rattle.std.specs.FinMap as map;
ghost use Rattle.conn_table.specs.Conns as table;
ghost use Rattle.plain_machine.specs.declared.kernel.PlainKernel.{PlainKernel};
ghost use Rattle.plain_tables.specs.Objects.{dir};
ghost use Rattle.wire_channels.specs.Channels as channels;
ghost use Rattle.wrap_passing.specs.OfWrapNames.Changes.{missing_in};
ghost use Rattle.wrap_passing.specs.OfWrapNames.Wrapping.{IsWrapped};
ghost use Rattle.wrap_calls.specs.Directions as words;

use conn_table::ConnTable;
use host_tables::System;
use sys_abi::{ConnId, Dir};
use wire_net::Net;

/// The least direction above this one, or the least of all where none is given.
pub fn next_dir(system: &System, above: Option<Dir>) -> Option<Dir>
    ensures { (k : PlainKernel) (next_id : _) → IsWrapped system.now next_id k
        → result ≡ find (words.is_above above) (map.keys k.directions) }
{
    let Some(last) = above else {
        return first_dir(&system.conns, None);
    };
    if is_first_side(&system.conns, last) {
        return Some(Dir {
            conn: last.conn,
            side: 1,
        });
    }
    first_dir(&system.conns, Some(last.conn))
}

/// Whether the direction is that of side 0 of a channel.
fn is_first_side(conns: &ConnTable, dir: Dir) -> bool
    ensures { result ≡ words.is_first_side conns.now.conns dir }
{
    dir.side == 0 && conns.get(dir.conn).is_some()
}

/// The direction of side 0 of the least channel above this one.
fn first_dir(conns: &ConnTable, above: Option<ConnId>) -> Option<Dir>
    ensures { result ≡ option_map (λ conn. dir conn 0)
        (find (table.is_above above) (map.keys conns.now.conns)) }
{
    let Some(conn) = conns.next_conn(above) else {
        return None;
    };
    Some(Dir { conn, side: 0 })
}

/// How many bytes of the direction are on the way: sent, and not arrived.
pub fn missing(system: &System, dir: Dir) -> u32
    ensures { (k : PlainKernel) (next_id : _) → IsWrapped system.now next_id k
        → result ≡ missing_in (map.get k.directions dir) }
{
    if dir.side > 1 {
        return 0;
    }
    on_the_way(&system.kernel.net, dir)
}

/// How many bytes stand in the sender's queue and on the wire.
fn on_the_way(net: &Net, dir: Dir) -> u32
    requires { dir.side < 2 }
    ensures { result ≡ words.on_the_way (channels.direction_at net.now.channels dir) }
{
    let counts = net.counts(dir);
    counts[0] + counts[1]
}
