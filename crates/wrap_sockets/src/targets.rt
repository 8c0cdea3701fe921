//! What a connect names over real numbers.
ghost use Rattle.std.specs.Prelude.{◌≡◌};
ghost use Rattle.fd_tables.specs.Slots as slots;
ghost use Rattle.host_descriptors.specs.Held.{held_in};
ghost use Rattle.wrap_sockets.specs.Naming as words;
ghost use Rattle.wrap_sockets.specs.Naming.{NamesConnect};

use conn_table::{Conn, ConnTable};
use fd_book::Object;
use host_descriptors::{Held, held_at};
use host_tables::System;
use plain_ports::addresses::{ADDRESS_SIZE, AF_INET, family_of, named_host, port_of};
use sys_abi::errors::{EADDRNOTAVAIL, EAFNOSUPPORT, EINVAL};
use sys_abi::{ConnId, DescId, Errno, RealAddr, RealPid, VPid, VirtAddr};
use virt_ids::Ids;
use wrap_names::look_ups::address_of;
use wrap_names::naming::{leads_to_pipe, next_desc};
use wrap_names::ports::bound_or;

/// The kind of a channel between internet sockets.
const INTERNET: u8 = 1;

/// What is listed for a connect before the kernel serves it: its channel, and the description of its socket,
/// which has no address of its own once it is connected.
#[derive(Clone, Copy)]
pub struct Listed {
    pub conn: Conn,
    pub desc: DescId,
}

/// What a connect names: as `host_sockets::connect` wants it, and what is listed for it.
#[derive(Clone, Copy)]
pub struct Named {
    pub of_pipe: bool,
    pub channel: Option<ConnId>,
    pub to: Result<Option<RealAddr>, Errno>,
    pub port_free: bool,
    pub listed: Option<Listed>,
}

/// A socket that isn't connected, with its address.
#[derive(Clone, Copy)]
pub struct OwnSocket {
    pub desc: DescId,
    pub address: VirtAddr,
}

/// What the guest's connect names; `bytes` are those of the address.
pub fn name_connect(
    system: &System,
    p: VPid,
    who: RealPid,
    fd: u32,
    length: u32,
    bytes: &[u8],
) -> Named
    ensures { NamesConnect system.now p who fd length bytes.now result }
{
    system.kernel.book.whole();
    let channel = next_conn(&system.conns, p);
    let of_pipe = leads_to_pipe(system, who, fd);
    let Some(socket) = own_socket(system, who, fd) else {
        return Named {
            of_pipe,
            channel,
            to: Ok(None),
            port_free: false,
            listed: None,
        };
    };
    let target = target_of(socket.address, length, bytes);
    let bound = bound_or(system, socket.address, EADDRNOTAVAIL);
    Named {
        of_pipe,
        channel,
        to: real_target(&system.ids, target),
        port_free: bound.is_ok(),
        listed: entry_of(channel, bound, target, socket.desc),
    }
}

/// The number of the next channel that the process makes, None where it has no more to give out.
fn next_conn(conns: &ConnTable, p: VPid) -> Option<ConnId>
    ensures { result ≡ words.conn_in conns.now.makers p }
{
    let id = next_desc(conns, p)?;
    Some(ConnId {
        pid: id.pid,
        num: id.num,
    })
}

/// The descriptor's socket, None where it leads to no socket that isn't connected.
fn own_socket(system: &System, who: RealPid, fd: u32) -> Option<OwnSocket>
    ensures { result ≡ words.own_socket system.now.conns.names
        (held_in system.now.kernel.book (slots.slot who fd)) }
{
    let Some(held) = held_at(&system.kernel.book, who, fd) else {
        return None;
    };
    socket_of(&system.conns, held)
}

fn socket_of(conns: &ConnTable, held: Held) -> Option<OwnSocket>
    ensures { result ≡ words.socket_of conns.now.names held.desc held.description.object }
{
    match held.description.object {
        Object::Socket => Some(OwnSocket {
            desc: held.desc,
            address: address_of(conns, held.desc),
        }),
        _ => None,
    }
}

/// The virtual address that the bytes name, None where they name no host; EINVAL, EAFNOSUPPORT.
fn target_of(own: VirtAddr, length: u32, bytes: &[u8]) -> Result<Option<VirtAddr>, Errno>
    ensures { result ≡ words.virtual_target own length bytes.now }
{
    if length < ADDRESS_SIZE {
        return Err(Errno(EINVAL));
    }
    if family_of(bytes) != AF_INET {
        return Err(Errno(EAFNOSUPPORT));
    }
    let Some(host) = named_host(own.host, bytes) else {
        return Ok(None);
    };
    Ok(Some(VirtAddr {
        host,
        port: port_of(bytes),
    }))
}

/// The port at which the address is listened, if it is.
fn real_target(
    ids: &Ids,
    target: Result<Option<VirtAddr>, Errno>,
) -> Result<Option<RealAddr>, Errno>
    ensures { result ≡ words.real_target ids.now.addresses target }
{
    match target {
        Err(error) => Err(error),
        Ok(None) => Ok(None),
        Ok(Some(address)) => Ok(listened_at(ids, address)),
    }
}

fn listened_at(ids: &Ids, address: VirtAddr) -> Option<RealAddr>
    ensures { result ≡ words.place_at ids.now.addresses address }
{
    let Ok(at) = ids.real_addr(address) else {
        return None;
    };
    Some(at)
}

/// The new channel with the addresses of its ends, where it can be made.
fn entry_of(
    channel: Option<ConnId>,
    own: Result<VirtAddr, Errno>,
    target: Result<Option<VirtAddr>, Errno>,
    desc: DescId,
) -> Option<Listed>
    ensures { result ≡ words.entry_of channel own target desc }
{
    let Some(id) = channel else {
        return None;
    };
    let Ok(own) = own else {
        return None;
    };
    let Ok(Some(to)) = target else {
        return None;
    };
    let conn = Conn {
        id,
        kind: INTERNET,
        addr: [Some(own), Some(to)],
        open_ends: [true, true],
    };
    Some(Listed { conn, desc })
}
