//! The calls by which processes meet at a port.
ghost use Rattle.std.specs.Prelude.{◌≡◌, true};
ghost use Rattle.plain_machine.specs.RowLaws.{IsAsked};
ghost use Rattle.plain_machine.specs.Serve.{row};
ghost use Rattle.wrap_names.specs.Wrapping.{IsWrapped, StandsAfter};
ghost use Rattle.wrap_sockets.specs.Meeting as words;
ghost use Rattle.wrap_sockets.specs.Meeting.{is_meeting};

use crate::accepting::accept;
use crate::connecting::connect;
use crate::listening::listen;
use call_table::Request;
use host_tables::{KernelReply, System};
use sys_abi::transfer::Transfer;
use sys_abi::{Tid, VPid};
use wrap_names::stood::Stood;

/// Whether the call is one of these: listen, accept or connect.
#[tactic(auto, unfolding(crate::specs::Meeting::is_meeting))]
pub fn serves(request: &Request) -> bool
    ensures { result ≡ is_meeting request.now }
{
    match *request {
        Request::Listen { .. } | Request::Accept { .. } | Request::Connect { .. } => true,
        _ => false,
    }
}

/// A listen, an accept or a connect of a guest. The transfer holds the bytes that the call reads, and then
/// those that it gives, where it gives any.
pub fn serve(
    system: &mut System,
    stood: &Stood,
    next_id: u32,
    p: VPid,
    t: Tid,
    request: &Request,
    transfer: &mut Transfer,
) -> KernelReply
    requires wrapped { IsWrapped system.old next_id stood.now.kernel }
    requires asked { IsAsked stood.now.kernel p t.0 request.now transfer.old }
    requires family { is_meeting request.now ≡ true }
    ensures { StandsAfter system.new next_id stood.now.kernel transfer.old transfer.new result
        (row stood.now.kernel p t.0 request.now transfer.old) }
{
    if is_listen(request) {
        return listen(system, stood, next_id, p, t, request, transfer);
    }
    if is_accept(request) {
        return accept(system, stood, next_id, p, t, request, transfer);
    }
    connect(system, stood, next_id, p, t, request, transfer)
}

#[tactic(auto, unfolding(crate::specs::Meeting::is_listen))]
fn is_listen(request: &Request) -> bool
    ensures { result ≡ words.is_listen request.now }
{
    match *request {
        Request::Listen { .. } => true,
        _ => false,
    }
}

#[tactic(auto, unfolding(crate::specs::Meeting::is_accept))]
fn is_accept(request: &Request) -> bool
    ensures { result ≡ words.is_accept request.now }
{
    match *request {
        Request::Accept { .. } => true,
        _ => false,
    }
}
