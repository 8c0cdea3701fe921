//! exit and exit_group (`man 2 exit`, `man 2 exit_group`).
ghost use Rattle.std.specs.Prelude.{◌≡◌, true};
ghost use Rattle.plain_machine.specs.RowLaws.{IsAsked};
ghost use Rattle.plain_machine.specs.Serve.{row};
ghost use Rattle.wrap_names.specs.Wrapping.{IsWrapped, StandsAfter};
ghost use Rattle.wrap_ends.specs.Exits.{is_exit};

use crate::ending::end;
use crate::threads::end_thread;
use call_table::Request;
use host_tables::{KernelReply, System};
use plain_machine::end::exit_status;
use sys_abi::transfer::Transfer;
use sys_abi::{Tid, VPid};
use wrap_names::numbers::caller_of;
use wrap_names::stood::Stood;

/// A thread or its process ends. Takes no memory.
pub fn serve_exit(
    system: &mut System,
    stood: &Stood,
    next_id: u32,
    p: VPid,
    t: Tid,
    request: &Request,
    transfer: &mut Transfer,
) -> KernelReply
    requires wrapped { IsWrapped system.old next_id stood.now.kernel }
    requires asked { IsAsked stood.now.kernel p t.0 request.now transfer.old }
    requires exits { is_exit request.now ≡ true }
    ensures { StandsAfter system.new next_id stood.now.kernel transfer.old transfer.new result
        (row stood.now.kernel p t.0 request.now transfer.old) }
{
    let _ = stood;
    let _ = next_id;
    let _ = &*transfer;
    let Some(caller) = caller_of(&system.ids, p, t) else {
        unreachable!();
    };
    match *request {
        Request::ExitGroup { code } => {
            end(system, p, caller.who, exit_status(code));
            KernelReply::Done(0)
        }
        Request::Exit { code } => {
            if end_thread(system, p, caller.who, caller.thread) {
                return KernelReply::Done(0);
            }
            end(system, p, caller.who, exit_status(code));
            KernelReply::Done(0)
        }
        _ => unreachable!(),
    }
}

/// Whether it is such a call.
#[tactic(auto, unfolding(crate::specs::Exits::is_exit))]
pub fn serves(request: &Request) -> bool
    ensures { result ≡ is_exit request.now }
{
    match *request {
        Request::Exit { .. } | Request::ExitGroup { .. } => true,
        _ => false,
    }
}
