//! A socket connects.
ghost use Rattle.std.specs.Prelude.{◌≡◌, true};
ghost use Rattle.plain_machine.specs.RowLaws.{IsAsked};
ghost use Rattle.plain_machine.specs.Serve.{row};
ghost use Rattle.wrap_names.specs.Wrapping.{IsWrapped, StandsAfter};
ghost use Rattle.wrap_sockets.specs.Meeting.{is_connect};

use crate::callers::real_caller;
use crate::listing::{list, settle, unlist};
use crate::replies::reply_of;
use crate::targets::name_connect;
use call_table::Request;
use host_tables::{KernelReply, System};
use sys_abi::transfer::Transfer;
use sys_abi::{Tid, VPid};
use wrap_names::counting::is_done;
use wrap_names::stood::Stood;

/// connect (`man 2 connect`). The transfer holds the bytes of the address.
pub fn connect(
    system: &mut System,
    stood: &Stood,
    next_id: u32,
    p: VPid,
    t: Tid,
    request: &Request,
    transfer: &mut Transfer,
) -> KernelReply
    requires wrapped { IsWrapped system.old next_id stood.now.kernel }
    requires asked { IsAsked stood.now.kernel p t.0 request.now transfer.old }
    requires connects { is_connect request.now ≡ true }
    ensures { StandsAfter system.new next_id stood.now.kernel transfer.old transfer.new result
        (row stood.now.kernel p t.0 request.now transfer.old) }
{
    let Request::Connect { fd, length, .. } = *request else {
        unreachable!();
    };
    let who = real_caller(system, stood, next_id, p, t, request, transfer);
    let named = name_connect(system, p, who, fd, length, transfer.as_slice());
    let Ok(()) = list(&mut system.conns, named.listed) else {
        return KernelReply::Memory;
    };
    let reply = reply_of(host_sockets::connect(
        &mut system.kernel,
        who,
        fd,
        named.to,
        named.channel,
        named.port_free,
        named.of_pipe,
    ));
    if !is_done(reply) {
        unlist(&mut system.conns, named.listed);
        return reply;
    }
    settle(&mut system.conns, p, named.listed);
    reply
}
