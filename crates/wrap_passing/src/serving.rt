//! The calls of guests by what they leave of the pairs and the table of channels.
ghost use Rattle.std.specs.Prelude.{◌≡◌, true};
ghost use Rattle.plain_machine.specs.RowLaws.{IsAsked};
ghost use Rattle.plain_machine.specs.Serve.{row};
ghost use Rattle.wrap_passing.specs.Asking as naming;
ghost use Rattle.wrap_passing.specs.Asking.{is_making, is_passed, is_served, is_wait};
ghost use Rattle.wrap_names.specs.Wrapping as words;
ghost use Rattle.wrap_names.specs.Wrapping.{IsWrapped, StandsAfter};

use crate::asking::ask;
use call_table::Request;
use host_tables::{KernelReply, System};
use sys_abi::transfer::Transfer;
use sys_abi::{Tid, VPid};
use wrap_names::counting::{count_made, is_done};
use wrap_names::stood::Stood;

/// Whether the call is one that pairs nothing and names nothing.
#[tactic(auto, unfolding(crate::specs::Asking::is_passed, crate::specs::Asking::is_making, crate::specs::Asking::is_wait))]
pub fn serves(request: &Request) -> bool
    ensures { result ≡ is_served request.now }
{
    match *request {
        Request::Dup { .. } | Request::Fcntl { .. } | Request::Lseek { .. } => true,
        Request::Unlinkat { .. } | Request::Openat { .. } => true,
        Request::Read { .. } | Request::Write { .. } => true,
        Request::Kill { .. } | Request::Tgkill { .. } | Request::Wait4 { .. } => true,
        Request::Getpid | Request::Getppid => true,
        Request::Eventfd2 { .. } | Request::Setsockopt { .. } | Request::Shutdown { .. } => true,
        _ => false,
    }
}

/// A call that pairs nothing and names nothing. A process's own number is the one by which its guest knows
/// it, and is told as it is.
pub fn serve(
    system: &mut System,
    stood: &Stood,
    next_id: u32,
    p: VPid,
    t: Tid,
    request: &Request,
    transfer: &mut Transfer,
) -> KernelReply
    requires wrapped { IsWrapped system.old next_id stood.now.kernel }
    requires asked { IsAsked stood.now.kernel p t.0 request.now transfer.old }
    requires served { is_served request.now ≡ true }
    ensures { StandsAfter system.new next_id stood.now.kernel transfer.old transfer.new result
        (row stood.now.kernel p t.0 request.now transfer.old) }
{
    if asks_own_number(request) {
        return KernelReply::Done(p.0);
    }
    if makes_description(request) {
        return serve_making(system, stood, next_id, p, t, request, transfer);
    }
    if waits_for_child(request) {
        return serve_wait(system, stood, next_id, p, t, request, transfer);
    }
    serve_passed(system, stood, next_id, p, t, request, transfer)
}

/// Whether the call asks for the caller's own number.
#[tactic(auto, unfolding(crate::specs::Asking::is_own_number))]
fn asks_own_number(request: &Request) -> bool
    ensures { result ≡ naming.is_own_number request.now }
{
    match *request {
        Request::Getpid => true,
        _ => false,
    }
}

/// Whether the call makes one description.
#[tactic(auto, unfolding(crate::specs::Asking::is_making))]
fn makes_description(request: &Request) -> bool
    ensures { result ≡ naming.is_making request.now }
{
    match *request {
        Request::Eventfd2 { .. } | Request::Openat { .. } => true,
        _ => false,
    }
}

/// Whether the call waits for a child.
#[tactic(auto, unfolding(crate::specs::Asking::is_wait))]
fn waits_for_child(request: &Request) -> bool
    ensures { result ≡ naming.is_wait request.now }
{
    match *request {
        Request::Wait4 { .. } => true,
        _ => false,
    }
}

/// A call that changes no pair, no name and no maker.
pub fn serve_passed(
    system: &mut System,
    stood: &Stood,
    next_id: u32,
    p: VPid,
    t: Tid,
    request: &Request,
    transfer: &mut Transfer,
) -> KernelReply
    requires wrapped { IsWrapped system.old next_id stood.now.kernel }
    requires asked { IsAsked stood.now.kernel p t.0 request.now transfer.old }
    requires passed { is_passed request.now ≡ true }
    ensures { StandsAfter system.new next_id stood.now.kernel transfer.old transfer.new result
        (row stood.now.kernel p t.0 request.now transfer.old) }
{
    ask(system, stood, next_id, p, t, request, transfer)
}

/// A call that makes one description, whose number is then counted. After an error nothing is counted.
pub fn serve_making(
    system: &mut System,
    stood: &Stood,
    next_id: u32,
    p: VPid,
    t: Tid,
    request: &Request,
    transfer: &mut Transfer,
) -> KernelReply
    requires wrapped { IsWrapped system.old next_id stood.now.kernel }
    requires asked { IsAsked stood.now.kernel p t.0 request.now transfer.old }
    requires making { is_making request.now ≡ true }
    ensures { StandsAfter system.new next_id stood.now.kernel transfer.old transfer.new result
        (row stood.now.kernel p t.0 request.now transfer.old) }
{
    let reply = ask(system, stood, next_id, p, t, request, transfer);
    if !is_done(reply) {
        return reply;
    }
    count_made(&mut system.conns, p, 1);
    reply
}

/// A wait for a child. One that is told is gone, and its pair and its maker with it.
pub fn serve_wait(
    system: &mut System,
    stood: &Stood,
    next_id: u32,
    p: VPid,
    t: Tid,
    request: &Request,
    transfer: &mut Transfer,
) -> KernelReply
    requires wrapped { IsWrapped system.old next_id stood.now.kernel }
    requires asked { IsAsked stood.now.kernel p t.0 request.now transfer.old }
    requires waits { is_wait request.now ≡ true }
    ensures { StandsAfter system.new next_id stood.now.kernel transfer.old transfer.new result
        (row stood.now.kernel p t.0 request.now transfer.old) }
{
    let reply = ask(system, stood, next_id, p, t, request, transfer);
    let child = child_in(reply);
    if child == 0 {
        return reply;
    }
    system.ids.drop_pid(child);
    system.conns.drop_maker(VPid(child));
    reply
}

/// The child that a wait tells, 0 where it tells none.
fn child_in(reply: KernelReply) -> u32
    ensures { result ≡ words.child_in reply }
{
    match reply {
        KernelReply::Done(child) => child,
        _ => 0,
    }
}
