//! A call that the kernel answers.
ghost use Rattle.std.specs.Prelude.{◌≡◌, true};
ghost use Rattle.plain_machine.specs.RowLaws.{IsAsked};
ghost use Rattle.plain_machine.specs.Serve.{row};
ghost use Rattle.wrap_names.specs.Asks.{AsksFor};
ghost use Rattle.wrap_passing.specs.Asking.{is_served};
ghost use Rattle.wrap_names.specs.Wrapping.{IsWrapped};

use crate::requests::real_of;
use crate::telling::told_reply;
use call_table::Request;
use host_tables::{KernelReply, System};
use sys_abi::transfer::Transfer;
use sys_abi::{Tid, VPid};
use wrap_names::numbers::caller_of;
use wrap_names::stood::Stood;

/// Has the kernel serve the call, and tells the answer with the guest's numbers.
pub fn ask(
    system: &mut System,
    stood: &Stood,
    next_id: u32,
    p: VPid,
    t: Tid,
    request: &Request,
    transfer: &mut Transfer,
) -> KernelReply
    requires wrapped { IsWrapped system.old next_id stood.now.kernel }
    requires asked { IsAsked stood.now.kernel p t.0 request.now transfer.old }
    requires served { is_served request.now ≡ true }
    ensures asks { AsksFor system.old system.new stood.now.kernel transfer.old transfer.new result
        (row stood.now.kernel p t.0 request.now transfer.old) }
    ensures conns { system.new.conns ≡ system.old.conns }
{
    let _ = stood;
    let _ = next_id;
    let Some(caller) = caller_of(&system.ids, p, t) else {
        unreachable!();
    };
    system.kernel.book.whole();
    let req = real_of(system, p, caller.who, request);
    let reply = host_kernel::serve(
        &mut system.kernel,
        caller.who,
        caller.thread,
        &req,
        transfer,
    );
    told_reply(&system.ids, caller.who, &req, reply)
}
