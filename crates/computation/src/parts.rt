ghost use Rattle.std.specs.Prelude.{◌≡◌, ◌≢◌, ◌≤◌, true, [], if◌then◌else◌, IfOk, IfSome, OnOk, OnErr, Err};
ghost use Rattle.views.specs.Faults.{IsFaultOf};
ghost use Rattle.sys_abi.specs.declared.reply.Reply.{Reply};
ghost use Rattle.plain_process.specs.Deliveries.{traps_with};
ghost use Rattle.plain_process.specs.Put.{added_thread};
ghost use Rattle.plain_process.specs.Steps.{UserStep};
ghost use Rattle.plain_machine.specs.Kernel.{is_live, has_thread};
ghost use Rattle.plain_machine.specs.Records.{Users};
ghost use Rattle.guest_proc.specs.Guests.{HasThread, delivered_by, part_after, ran_at};
ghost use Rattle.computation.specs.Parts.{delivery_at, kernel_found};
ghost use Rattle.edge_io.specs.Sunk.{sunk, Took, TookFront};

use crate::computation::Stop;
use crate::looks::is_idle;
use call_table::{Delivered, Request};
use edge_io::Sink;
use guest_proc::{Guest, Ran};
use std::alloc::{AllocError, Global};
use sys_abi::{Signal, Tid, VPid};
use wrap_calls::Wrapped;

/// Whether a thread that stands there traps with this signal.
fn is_trapped(ran: &Ran, s: Signal) -> bool
    ensures { (place : UserStep) → ran.now ≡ ran_at place → result ≡ traps_with place s.0 }
{
    match ran {
        Ran::Trapped(trap) => trap.0 == s.0,
        _ => false,
    }
}

/// Delivers a signal to a thread of a guest: that of the trap at which it stands, which stays pending where
/// it is, or a pending one.
pub(crate) fn deliver_to(
    kernel: &mut Wrapped,
    p: VPid,
    guest: &mut Guest,
    t: Tid,
    s: Signal,
) -> Delivered
    requires alive { is_live kernel.old p ≡ true }
    requires known { has_thread kernel.old p t.0 ≡ true }
    requires thread { HasThread guest.old.user t.0 }
    ensures kernel { kernel.new ≡ kernel_found kernel.old p t.0 s.0 guest.old.user }
    ensures guest { (users : Users) → guest.new ≡ record guest.old {
      user = part_after guest.old.user (delivery_at kernel.old users p t.0 s.0 guest.old.user);
    } }
    ensures told { (users : Users)
        → result ≡ delivered_by (delivery_at kernel.old users p t.0 s.0 guest.old.user) }
{
    let ran = guest.look(t);
    let is_idle = is_idle(kernel, p, guest, t, &ran);
    if !is_trapped(&ran, s) {
        kernel.take(p, t, s);
    }
    guest.deliver(t, s, is_idle)
}

/// Makes room for the thread that a clone adds.
pub(crate) fn reserve_for(
    guest: &mut Guest,
    alloc: Global,
    request: &Request,
) -> Result<(), AllocError>
    ensures same { guest.new ≡ record guest.old { spare = guest.new.spare } }
    ensures spare { OnOk result ((reply : Reply)
        → IfSome (added_thread request.now reply) (λ _. 1 ≤ guest.new.spare)) }
    ensures err { OnErr result (guest.new ≡ guest.old) }
{
    match request {
        Request::Clone { .. } => guest.reserve_thread(alloc),
        _ => Ok(()),
    }
}

/// Writes what a call shows on the console, in one piece where there is something to write.
pub(crate) fn show<O: Sink>(out: &mut O, is_shown: bool, bytes: &[u8]) -> Result<(), Stop>
    ensures ok { OnOk result
        (Took (sunk (O.seen out.old).taken (O.seen out.new).taken) (if is_shown then bytes.now else [])) }
    ensures err { OnErr result
        (TookFront (sunk (O.seen out.old).taken (O.seen out.new).taken)
        (if is_shown then bytes.now else [])) }
    ensures kind { result ≢ Err Stop.Memory }
    ensures cause { IsFaultOf result Stop.Sink (O.seen out.old).faults (O.seen out.new).faults }
    ensures later { (O.seen out.old).faults ≤ (O.seen out.new).faults }
{
    if !is_shown {
        return Ok(());
    }
    if bytes.is_empty() {
        return Ok(());
    }
    match out.put(bytes) {
        Ok(()) => Ok(()),
        Err(_) => Err(Stop::Sink),
    }
}
