//! The calls that make sockets, pipes and pairs of sockets.
ghost use Rattle.std.specs.Prelude.{◌≡◌, true};
ghost use Rattle.plain_machine.specs.RowLaws.{IsAsked};
ghost use Rattle.plain_machine.specs.Serve.{row};
ghost use Rattle.wrap_names.specs.Wrapping.{IsWrapped, StandsAfter};
ghost use Rattle.wrap_makers.specs.Making.{makes_ends};

use crate::entries::{put_entry, settle};
use crate::making::making_of;
use call_table::Request;
use host_tables::{KernelReply, System};
use sys_abi::transfer::Transfer;
use sys_abi::{Tid, VPid};
use wrap_names::numbers::caller_of;
use wrap_names::stood::Stood;

/// Whether the call makes a socket, a pipe or a pair of sockets.
#[tactic(auto, unfolding(crate::specs::Making::makes_ends))]
pub fn serves(request: &Request) -> bool
    ensures { result ≡ makes_ends request.now }
{
    match *request {
        Request::Socket { .. } | Request::Pipe2 { .. } | Request::Socketpair { .. } => true,
        _ => false,
    }
}

/// Serves socket, pipe2 and socketpair (`man 2 socket`, `man 2 pipe`, `man 2 socketpair`). The descriptors of
/// two ends stand in the transfer then. `next_id` is the next virtual number. After Memory the system stands
/// for the kernel part of before.
pub fn serve_making_ends(
    system: &mut System,
    stood: &Stood,
    next_id: u32,
    p: VPid,
    t: Tid,
    request: &Request,
    transfer: &mut Transfer,
) -> KernelReply
    requires wrapped { IsWrapped system.old next_id stood.now.kernel }
    requires asked { IsAsked stood.now.kernel p t.0 request.now transfer.old }
    requires family { makes_ends request.now ≡ true }
    ensures { StandsAfter system.new next_id stood.now.kernel transfer.old transfer.new result
        (row stood.now.kernel p t.0 request.now transfer.old) }
{
    let _ = stood;
    let _ = next_id;
    let Some(caller) = caller_of(&system.ids, p, t) else {
        unreachable!();
    };
    let making = making_of(&system.conns, p, request);
    let Ok(()) = put_entry(&mut system.conns, making.entry) else {
        return KernelReply::Memory;
    };
    let reply = host_kernel::serve(
        &mut system.kernel,
        caller.who,
        caller.thread,
        &making.call,
        transfer,
    );
    settle(&mut system.conns, p, making.entry, making.count, reply);
    reply
}
