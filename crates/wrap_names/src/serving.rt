//! bind, getsockname and getpeername, as guests call them.
ghost use Rattle.std.specs.Prelude.{◌≡◌, true, Some};
ghost use Rattle.std.specs.FinMap as map;
ghost use Rattle.sys_abi.specs.declared.identity.DescId.{DescId};
ghost use Rattle.plain_machine.specs.declared.kernel.PlainKernel.{PlainKernel};
ghost use Rattle.plain_machine.specs.RowLaws.{IsAsked};
ghost use Rattle.plain_machine.specs.Rows.Sockets as rows;
ghost use Rattle.plain_machine.specs.Serve.{row};
ghost use Rattle.host_streams.specs.OfHostTables.Descriptions.{seen_object};
ghost use Rattle.wrap_names.specs.Wrapping.{IsWrapped, Answers, StandsAfter};
ghost use Rattle.wrap_names.specs.Calls.{is_address_call, peer_named};

use crate::binding::bind;
use crate::look_ups::socket_at;
use crate::names::{end_address, put_name, put_own_name};
use crate::numbers::caller_of;
use crate::stood::Stood;
use call_table::Request;
use fd_book::Object;
use host_streams::{KernelReply, System};
use plain_ports::addresses::PAIR_BYTES;
use plain_ports::look_ups::across;
use sys_abi::errors::ENOTCONN;
use sys_abi::transfer::Transfer;
use sys_abi::{Errno, RealPid, Tid, VPid};

/// Whether the call is a bind, a getsockname or a getpeername.
#[tactic(auto, unfolding(crate::specs::Calls::is_address_call))]
pub fn serves(request: &Request) -> bool
    ensures { result ≡ is_address_call request.now }
{
    match *request {
        Request::Bind { .. } | Request::Getsockname { .. } | Request::Getpeername { .. } => true,
        _ => false,
    }
}

/// Serves a bind, a getsockname or a getpeername.
#[tactic(auto, unfolding(crate::specs::Calls::is_address_call))]
pub fn serve_addresses(
    system: &mut System,
    stood: &Stood,
    next_id: u32,
    p: VPid,
    t: Tid,
    request: &Request,
    transfer: &mut Transfer,
) -> KernelReply
    requires wrapped { IsWrapped system.old next_id stood.now.kernel }
    requires asked { IsAsked stood.now.kernel p t.0 request.now transfer.old }
    requires family { is_address_call request.now ≡ true }
    ensures { StandsAfter system.new next_id stood.now.kernel transfer.old transfer.new result
        (row stood.now.kernel p t.0 request.now transfer.old) }
{
    let _ = stood;
    let _ = next_id;
    let Some(caller) = caller_of(&system.ids, p, t) else {
        unreachable!();
    };
    match *request {
        Request::Bind { fd, length, .. } => bind(system, caller.who, fd, length, transfer),
        Request::Getsockname { fd, .. } => getsockname(system, caller.who, fd, transfer),
        Request::Getpeername { fd, .. } => getpeername(system, caller.who, fd, transfer),
        _ => unreachable!(),
    }
}

/// getsockname (`man 2 getsockname`): the address stands in the transfer then, cut to the room that the
/// transfer told. Takes no memory.
fn getsockname(system: &System, who: RealPid, fd: u32, transfer: &mut Transfer) -> KernelReply
    ensures { (k : PlainKernel) (next_id : _) (p : VPid) → IsWrapped system.now next_id k
        → map.get system.now.ids.pids p.0 ≡ Some who
        → Answers k k transfer.old transfer.new result (rows.getsockname_row k p fd transfer.old) }
{
    match socket_at(system, who, fd) {
        Err(error) => KernelReply::Error(error),
        Ok(held) => {
            put_own_name(system, held.desc, held.description.object, transfer);
            KernelReply::Done(0)
        }
    }
}

/// The answer of a getpeername, by what the socket is of.
fn put_peer_name(system: &System, object: Object, transfer: &mut Transfer) -> KernelReply
    ensures { (k : PlainKernel) (next_id : _) (id : DescId) → IsWrapped system.now next_id k
        → Answers k k transfer.old transfer.new result (peer_named k transfer.old
        (seen_object system.now.conns.names system.now.kernel.datagrams id object)) }
{
    match object {
        Object::Stream { conn, side } => {
            let address = end_address(&system.conns, conn, across(side));
            put_name(transfer, &PAIR_BYTES, address);
            KernelReply::Done(0)
        }
        Object::Datagram { .. } => {
            put_name(transfer, &PAIR_BYTES, None);
            KernelReply::Done(0)
        }
        _ => KernelReply::Error(Errno(ENOTCONN)),
    }
}

/// getpeername (`man 2 getpeername`), as [`getsockname`].
fn getpeername(system: &System, who: RealPid, fd: u32, transfer: &mut Transfer) -> KernelReply
    ensures { (k : PlainKernel) (next_id : _) (p : VPid) → IsWrapped system.now next_id k
        → map.get system.now.ids.pids p.0 ≡ Some who
        → Answers k k transfer.old transfer.new result (rows.getpeername_row k p fd transfer.old) }
{
    match socket_at(system, who, fd) {
        Err(error) => KernelReply::Error(error),
        Ok(held) => put_peer_name(system, held.description.object, transfer),
    }
}
