//! Addresses as they are written for a guest.
ghost use Rattle.std.specs.Prelude.{◌≡◌, ◌≤◌, take, length};
ghost use Rattle.conn_table.specs.Pairs.{Pairs};
ghost use Rattle.plain_process.specs.Memory.{low_bytes};
ghost use Rattle.plain_machine.specs.declared.kernel.PlainKernel.{PlainKernel};
ghost use Rattle.plain_machine.specs.Addresses as words;
ghost use Rattle.plain_machine.specs.SocketWords as sockets;
ghost use Rattle.plain_machine.specs.Rows.Sockets as rows;
ghost use Rattle.plain_tables.specs.Objects as objects;
ghost use Rattle.host_streams.specs.OfHostTables.Descriptions.{seen_object};
ghost use Rattle.wrap_names.specs.Wrapping.{IsWrapped};
ghost use Rattle.wrap_names.specs.Ends.{end_in};

use crate::look_ups::address_of;
use conn_table::ConnTable;
use fd_book::Object;
use host_streams::System;
use plain_ports::addresses::PAIR_BYTES;
use plain_process::handlers::word_in;
use sys_abi::transfer::Transfer;
use sys_abi::{ConnId, DescId, VirtAddr};

/// The address of a socket that isn't bound.
const UNBOUND_BYTES: [u8; 16] = [2, 0, 0, 0, 0, 0, 0, 0, 0, 0, 0, 0, 0, 0, 0, 0];

/// An address as bytes.
fn address_bytes(address: VirtAddr) -> [u8; 16]
    ensures { result ≡ words.address_bytes address }
{
    let high = (address.port / 256 % 256) as u8;
    let low = (address.port % 256) as u8;
    let host = ((address.host as u64 + 1) % 256) as u8;
    [2, 0, high, low, 10, 0, 0, host, 0, 0, 0, 0, 0, 0, 0, 0]
}

/// The first bytes, at most so many.
fn front(bytes: &[u8], count: usize) -> &[u8]
    ensures front { result.now ≡ take count bytes.now }
    ensures few { length result.now ≤ length bytes.now }
{
    &bytes[..bytes.len().min(count)]
}

fn length_bytes(length: usize) -> [u8; 4]
    ensures { result ≡ low_bytes 4 length }
{
    let first = (length % 256) as u8;
    let second = (length / 256 % 256) as u8;
    let third = (length / 256 / 256 % 256) as u8;
    let fourth = (length / 256 / 256 / 256 % 256) as u8;
    [first, second, third, fourth]
}

/// Puts a name into the transfer, cut to the room that the transfer tells, and then its true length.
fn put_cut(transfer: &mut Transfer, name: &[u8])
    requires { length name.now ≤ 16 }
    ensures { transfer.new ≡ words.cut_to transfer.old name.now }
{
    let room = word_in(transfer.as_slice(), 0);
    transfer.clear();
    transfer.put(front(name, room as usize));
    transfer.put(&length_bytes(name.len()));
}

/// Puts an address into the transfer, or these bytes where there is none, cut to the room that the transfer
/// tells, and then the true length. Takes no memory.
pub fn put_name(transfer: &mut Transfer, other: &[u8], address: Option<VirtAddr>)
    requires { length other.now ≤ 16 }
    ensures { transfer.new ≡ words.cut_to transfer.old (sockets.shown_as other.now address) }
{
    match address {
        None => put_cut(transfer, other),
        Some(address) => put_cut(transfer, &address_bytes(address)),
    }
}

/// The address of an end of a channel, where it has one.
pub fn end_address(conns: &ConnTable, conn: ConnId, side: u8) -> Option<VirtAddr>
    ensures { result ≡ end_in conns.now.conns conn side }
{
    let Some(listed) = conns.get(conn) else {
        return None;
    };
    if side == 0 {
        return listed.addr[0];
    }
    listed.addr[1]
}

/// The address to which a socket is bound, or at which somebody listens.
fn bound_at(conns: &ConnTable, desc: DescId, object: Object) -> Option<VirtAddr>
    ensures { (pairs : Pairs) → result ≡ objects.bound_at (seen_object conns.now.names pairs desc object) }
{
    match object {
        Object::Socket => {
            let address = address_of(conns, desc);
            if address.port == 0 {
                return None;
            }
            Some(address)
        }
        Object::Listener { .. } => Some(address_of(conns, desc)),
        _ => None,
    }
}

/// Puts the own address of a socket into the transfer, as [`put_name`] does.
pub(crate) fn put_own_name(system: &System, desc: DescId, object: Object, transfer: &mut Transfer)
    ensures { (k : PlainKernel) (next_id : _) → IsWrapped system.now next_id k
        → transfer.new ≡ words.cut_to transfer.old
        (rows.own_name k (seen_object system.now.conns.names system.now.kernel.datagrams desc object)) }
{
    match object {
        Object::Stream { conn, side } => {
            let address = end_address(&system.conns, conn, side);
            put_name(transfer, &PAIR_BYTES, address)
        }
        Object::Datagram { .. } => put_name(transfer, &PAIR_BYTES, None),
        _ => {
            let address = bound_at(&system.conns, desc, object);
            put_name(transfer, &UNBOUND_BYTES, address)
        }
    }
}
