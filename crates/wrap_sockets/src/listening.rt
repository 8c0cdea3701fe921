//! A socket listens at the next port of its node, which is paired with its address.
ghost use Rattle.std.specs.Prelude.{◌≡◌, true, max, min, OnOk, OnErr};
ghost use Rattle.std.specs.FinMap as map;
ghost use Rattle.plain_machine.specs.RowLaws.{IsAsked};
ghost use Rattle.plain_machine.specs.Serve.{row};
ghost use Rattle.host_sockets.specs.Tests as tests;
ghost use Rattle.wrap_names.specs.Wrapping.{IsWrapped, StandsAfter};
ghost use Rattle.wrap_sockets.specs.Listening.{FindsSocket, Listens};
ghost use Rattle.wrap_sockets.specs.Meeting.{is_listen};

use crate::callers::real_caller;
use call_table::Request;
use conn_table::ConnTable;
use fd_book::Object;
use host_descriptors::Held;
use host_tables::{KernelReply, System};
use std::alloc::AllocError;
use sys_abi::errors::{EADDRINUSE, EINVAL, EOPNOTSUPP};
use sys_abi::transfer::Transfer;
use sys_abi::{Errno, RealAddr, RealPid, Tid, VPid, VirtAddr};
use virt_ids::Ids;
use wire_net::NetFault;
use wrap_names::look_ups::{address_of, socket_at};
use wrap_names::ports::bound_or;
use wrap_names::stood::Stood;

/// A socket that isn't connected, with the address at which it listens then.
#[derive(Clone, Copy)]
pub struct Unbound {
    pub held: Held,
    pub address: VirtAddr,
}

/// listen (`man 2 listen`).
pub fn listen(
    system: &mut System,
    stood: &Stood,
    next_id: u32,
    p: VPid,
    t: Tid,
    request: &Request,
    transfer: &mut Transfer,
) -> KernelReply
    requires wrapped { IsWrapped system.old next_id stood.now.kernel }
    requires asked { IsAsked stood.now.kernel p t.0 request.now transfer.old }
    requires listens { is_listen request.now ≡ true }
    ensures { StandsAfter system.new next_id stood.now.kernel transfer.old transfer.new result
        (row stood.now.kernel p t.0 request.now transfer.old) }
{
    let Request::Listen { fd, backlog } = *request else {
        unreachable!();
    };
    let who = real_caller(system, stood, next_id, p, t, request, transfer);
    match find_socket(system, who, fd) {
        Err(error) => KernelReply::Error(error),
        Ok(found) => listen_at(system, who.node, found, backlog),
    }
}

/// The socket of the descriptor, and its address or an automatic one of its host; EBADF, ENOTSOCK,
/// EOPNOTSUPP, EINVAL, EADDRINUSE.
fn find_socket(system: &System, who: RealPid, fd: u32) -> Result<Unbound, Errno>
    ensures { FindsSocket system.now who fd result }
{
    let held = match socket_at(system, who, fd) {
        Ok(held) => held,
        Err(error) => return Err(error),
    };
    match may_listen(held.description.object) {
        Ok(()) => {}
        Err(error) => return Err(error),
    }
    let own = address_of(&system.conns, held.desc);
    match bound_or(system, own, EADDRINUSE) {
        Ok(address) => Ok(Unbound { held, address }),
        Err(error) => Err(error),
    }
}

/// A socket that is not connected may listen; EOPNOTSUPP, EINVAL.
fn may_listen(object: Object) -> Result<(), Errno>
    ensures { tests.may_listen object ≡ tests.tried result }
{
    match object {
        Object::Socket => Ok(()),
        Object::Datagram { .. } => Err(Errno(EOPNOTSUPP)),
        _ => Err(Errno(EINVAL)),
    }
}

/// At least one connection may wait, and at most 128.
fn waiting_room(backlog: u32) -> u32
    ensures { result ≡ max 1 (min backlog 128) }
{
    backlog.min(128).max(1)
}

/// The socket listens at the next port of the node; EADDRINUSE where each is used. After an error and after
/// want of memory all is as before.
fn listen_at(system: &mut System, node: u32, found: Unbound, backlog: u32) -> KernelReply
    ensures { Listens system.old system.new node found (max 1 (min backlog 128)) result }
{
    let at = match system.kernel.net.listen(node, waiting_room(backlog)) {
        Ok(at) => at,
        Err(NetFault::PortUsed) => return KernelReply::Error(Errno(EADDRINUSE)),
        Err(_) => return KernelReply::Memory,
    };
    let Ok(()) = pair_place(&mut system.ids, &mut system.conns, found, at) else {
        system.kernel.net.close_listener(at);
        return KernelReply::Memory;
    };
    system
        .kernel
        .book
        .set_object(found.held.desc, Object::Listener { at });
    KernelReply::Done(0)
}

/// The address is paired with the port, and is the socket's. After want of memory all is as before.
fn pair_place(
    ids: &mut Ids,
    conns: &mut ConnTable,
    found: Unbound,
    at: RealAddr,
) -> Result<(), AllocError>
    ensures paired { OnOk result (ids.new ≡ record ids.old {
      addresses = map.insert ids.old.addresses found.address at;
      ports = map.insert ids.old.ports at found.address;
    }) }
    ensures named { OnOk result (conns.new ≡ record conns.old {
      names = map.insert conns.old.names found.held.desc found.address;
    }) }
    ensures ids { OnErr result (ids.new ≡ ids.old) }
    ensures conns { OnErr result (conns.new ≡ conns.old) }
{
    let Ok(()) = ids.add_addr(found.address, at) else {
        return Err(AllocError);
    };
    let Ok(()) = conns.set_name(found.held.desc, found.address) else {
        ids.drop_addr(found.address);
        return Err(AllocError);
    };
    Ok(())
}
