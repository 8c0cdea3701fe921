//! clone (`man 2 clone`) by its flags and the numbers that are left.
ghost use Rattle.std.specs.Prelude.{◌≡◌, true};
ghost use Rattle.plain_machine.specs.RowLaws.{IsAsked};
ghost use Rattle.plain_machine.specs.Serve.{row};
ghost use Rattle.wrap_names.specs.Wrapping.{IsWrapped, StandsAfter};
ghost use Rattle.wrap_makers.specs.Cloning as words;

use crate::starting::start;
use crate::telling::tell_number;
use call_table::Request;
use host_tables::{KernelReply, System};
use sys_abi::errors::{EAGAIN, EINVAL};
use sys_abi::transfer::Transfer;
use sys_abi::{Errno, Tid, VPid, clone_form};
use wrap_names::counting::is_done;
use wrap_names::numbers::caller_of;
use wrap_names::stood::Stood;

/// Numbers of processes and threads are below this one.
const LAST_ID: u32 = 0x7FFF_FFFF;

/// Whether the call is a clone.
#[tactic(auto, unfolding(crate::specs::Cloning::is_clone))]
pub fn serves(request: &Request) -> bool
    ensures { result ≡ words.is_clone request.now }
{
    match *request {
        Request::Clone { .. } => true,
        _ => false,
    }
}

#[tactic(auto, unfolding(crate::specs::Cloning::flags_in))]
fn flags_in(request: &Request) -> u32
    ensures { result ≡ words.flags_in request.now }
{
    match *request {
        Request::Clone { flags, .. } => flags,
        _ => 0,
    }
}

/// clone (`man 2 clone`): a child, or a thread of the caller, with the next number, which is one higher then.
/// EINVAL for flags of no form; EAGAIN where there are 128 processes or 64 threads already, or no number is
/// left.
pub fn clone(
    system: &mut System,
    stood: &Stood,
    next_id: &mut u32,
    p: VPid,
    t: Tid,
    request: &Request,
    transfer: &mut Transfer,
) -> KernelReply
    requires wrapped { IsWrapped system.old next_id.old stood.now.kernel }
    requires asked { IsAsked stood.now.kernel p t.0 request.now transfer.old }
    requires family { words.is_clone request.now ≡ true }
    ensures { StandsAfter system.new next_id.new stood.now.kernel transfer.old transfer.new result
        (row stood.now.kernel p t.0 request.now transfer.old) }
{
    let flags = flags_in(request);
    let Some(form) = clone_form(flags) else {
        return KernelReply::Error(Errno(EINVAL));
    };
    let number = *next_id;
    if number >= LAST_ID {
        return KernelReply::Error(Errno(EAGAIN));
    }
    let Some(caller) = caller_of(&system.ids, p, t) else {
        unreachable!();
    };
    let reply = start(system, stood, number, p, caller.who, form, flags);
    if !is_done(reply) {
        return reply;
    }
    tell_number(transfer, form, flags, number);
    *next_id = number + 1;
    reply
}
