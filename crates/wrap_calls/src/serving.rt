//! A guest's call, by its family.
ghost use Rattle.std.specs.Prelude.{◌≡◌, false};
ghost use Rattle.call_table.specs.Requests.{is_local};
ghost use Rattle.plain_machine.specs.RowLaws.{IsAsked};
ghost use Rattle.plain_machine.specs.Serve.{row};
ghost use Rattle.wrap_passing.specs.OfWrapNames.Wrapping.{IsWrapped, StandsAfter};
ghost use Rattle.wrap_makers.specs.Cloning.{is_clone};

use call_table::Request;
use host_tables::{KernelReply, System};
use sys_abi::errors::ENOSYS;
use sys_abi::transfer::Transfer;
use sys_abi::{Errno, Tid, VPid};
use wrap_makers::serving as making;
use wrap_passing::{Stood, serve_addresses, serves_addresses, serving as passing};
use wrap_sockets::serving as meeting;

/// Serves a guest's call. After want of memory all is as before.
pub(crate) fn serve_call(
    system: &mut System,
    stood: &Stood,
    next_id: &mut u32,
    p: VPid,
    t: Tid,
    request: &Request,
    transfer: &mut Transfer,
) -> KernelReply
    requires wrapped { IsWrapped system.old next_id.old stood.now.kernel }
    requires asked { IsAsked stood.now.kernel p t.0 request.now transfer.old }
    requires kernels { is_local request.now ≡ false }
    ensures { StandsAfter system.new next_id.new stood.now.kernel transfer.old transfer.new result
        (row stood.now.kernel p t.0 request.now transfer.old) }
{
    if wrap_makers::serves(request) {
        return wrap_makers::clone(system, stood, next_id, p, t, request, transfer);
    }
    serve_other(system, stood, *next_id, p, t, request, transfer)
}

/// Serves a call that makes no process and no thread. One that is of none of these families is one
/// that no kernel knows.
fn serve_other(
    system: &mut System,
    stood: &Stood,
    next_id: u32,
    p: VPid,
    t: Tid,
    request: &Request,
    transfer: &mut Transfer,
) -> KernelReply
    requires wrapped { IsWrapped system.old next_id stood.now.kernel }
    requires asked { IsAsked stood.now.kernel p t.0 request.now transfer.old }
    requires kernels { is_local request.now ≡ false }
    requires other { is_clone request.now ≡ false }
    ensures { StandsAfter system.new next_id stood.now.kernel transfer.old transfer.new result
        (row stood.now.kernel p t.0 request.now transfer.old) }
{
    if passing::serves(request) {
        return passing::serve(system, stood, next_id, p, t, request, transfer);
    }
    if making::serves(request) {
        return making::serve_making_ends(system, stood, next_id, p, t, request, transfer);
    }
    if wrap_ends::serves_closing(request) {
        return wrap_ends::serve_closing(system, stood, next_id, p, t, request, transfer);
    }
    if serves_addresses(request) {
        return serve_addresses(system, stood, next_id, p, t, request, transfer);
    }
    if wrap_ends::serves(request) {
        return wrap_ends::serve_exit(system, stood, next_id, p, t, request, transfer);
    }
    if meeting::serves(request) {
        return meeting::serve(system, stood, next_id, p, t, request, transfer);
    }
    KernelReply::Error(Errno(ENOSYS))
}
