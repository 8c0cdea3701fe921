//! A connection is taken, and its client's address told.
ghost use Rattle.std.specs.Prelude.{◌≡◌, true};
ghost use Rattle.plain_machine.specs.RowLaws.{IsAsked};
ghost use Rattle.plain_machine.specs.Serve.{row};
ghost use Rattle.wrap_names.specs.Wrapping.{IsWrapped, StandsAfter};
ghost use Rattle.wrap_sockets.specs.Clients.{TellsClient};
ghost use Rattle.wrap_sockets.specs.Meeting.{is_accept};

use crate::callers::real_caller;
use call_table::Request;
use fd_book::Object;
use host_descriptors::held_at;
use host_tables::{Attempt, KernelReply, System};
use plain_ports::addresses::PAIR_BYTES;
use sys_abi::transfer::Transfer;
use sys_abi::{RealPid, Tid, VPid};
use wrap_names::counting::count_made;
use wrap_names::names::{end_address, put_name};
use wrap_names::naming::{leads_to_pipe, next_desc};
use wrap_names::stood::Stood;

/// accept (`man 2 accept`). Where the guest names a place for it, the client's address stands in the transfer
/// then, cut to the room that the transfer told before.
pub fn accept(
    system: &mut System,
    stood: &Stood,
    next_id: u32,
    p: VPid,
    t: Tid,
    request: &Request,
    transfer: &mut Transfer,
) -> KernelReply
    requires wrapped { IsWrapped system.old next_id stood.now.kernel }
    requires asked { IsAsked stood.now.kernel p t.0 request.now transfer.old }
    requires accepts { is_accept request.now ≡ true }
    ensures { StandsAfter system.new next_id stood.now.kernel transfer.old transfer.new result
        (row stood.now.kernel p t.0 request.now transfer.old) }
{
    let Request::Accept { fd, address, .. } = *request else {
        unreachable!();
    };
    let who = real_caller(system, stood, next_id, p, t, request, transfer);
    system.kernel.book.whole();
    let id = next_desc(&system.conns, p);
    let of_pipe = leads_to_pipe(system, who, fd);
    match host_sockets::accept(&mut system.kernel, who, fd, id, of_pipe) {
        Err(_) => KernelReply::Memory,
        Ok(Attempt::Fails(error)) => KernelReply::Error(error),
        Ok(Attempt::NotReady) => KernelReply::NotReady,
        Ok(Attempt::Gives(new)) => {
            count_made(&mut system.conns, p, 1);
            tell_client(system, who, new, address, transfer);
            KernelReply::Done(new)
        }
    }
}

/// The client's address of the connection that the descriptor leads to, unless the place for it is 0.
fn tell_client(system: &System, who: RealPid, fd: u32, address: u32, transfer: &mut Transfer)
    ensures { TellsClient system.now who fd address transfer.old transfer.new }
{
    if address == 0 {
        return;
    }
    system.kernel.book.whole();
    let Some(held) = held_at(&system.kernel.book, who, fd) else {
        return;
    };
    let Object::Stream { conn, .. } = held.description.object else {
        return;
    };
    let client = end_address(&system.conns, conn, 0);
    put_name(transfer, &PAIR_BYTES, client);
}
