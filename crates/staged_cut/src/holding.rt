//! A computation that a checkpoint holds.
ghost use Rattle.std.specs.Prelude.{◌≡◌, ◌≤◌, true, None, length, Contains, IfOk, IfErr, OnErr};
ghost use Rattle.std.specs.FinMap as map;
ghost use Rattle.sys_abi.specs.declared.identity.VPid.{VPid};
ghost use Rattle.barrier_core.specs.declared.members.TheConstants.{MEMBER_LIMIT};
ghost use Rattle.plain_machine.specs.Kernel.{is_live};
ghost use Rattle.plain_machine.specs.Tests.{unsupported};
ghost use Rattle.run_start.specs.HandedOn.{plain_of, IsReady};
ghost use Rattle.seen_kernel.specs.Seen.{all_in};
ghost use Rattle.seen_kernel.specs.Unheld.{AllArrived};
ghost use Rattle.staged_cut.specs.Holdings.{IsHeld};
ghost use Rattle.staged_cut.specs.Suspended.{AreSuspended};

use crate::draining::drain;
use crate::refilling::refill;
use ckpt_stages::{DrainedSet, PutOutcome};
use host_tables::Hosts;
use id_maps::ByPid;
use plain_machine::PlainKernel;
use run_start::{Computation, Guest, Start, Wrapped};
use std::alloc::{AllocError, Global};
use std::mem;
use sys_abi::VPid;
use views::list_of::ListOf;

/// A computation whose channels are drained: what its agents took off them, and the start of one that goes
/// on from here, of which images are made.
#[derive(Drop)]
pub struct Held {
    pub drained: DrainedSet,
    pub start: Start,
}

/// Holds a computation all of whose bytes have arrived. It is one of nobody until it is let go.
///
/// # Errors
/// Memory was wanted. The computation is as before.
pub fn hold(alloc: Global, computation: &mut Computation) -> Result<Held, AllocError>
    requires ready { IsReady computation.old }
    requires supported { unsupported (plain_of computation.old) ≡ None }
    requires arrived { AllArrived computation.old.kernel.directions }
    ensures ok { IfOk result (IsHeld computation.old) }
    ensures transfer { computation.new.transfer ≡ computation.old.transfer }
    ensures err { OnErr result (computation.new ≡ computation.old) }
{
    let vacant = vacant(alloc)?;
    let live = live_of(alloc, &computation.guests)?;
    let wrapped = mem::replace(&mut computation.kernel, vacant);
    match drained_of(alloc, wrapped, live.as_slice()) {
        Ok((drained, kernel)) => {
            let guests = mem::replace(&mut computation.guests, ByPid::new(alloc));
            Ok(Held {
                drained,
                start: Start { kernel, guests },
            })
        }
        Err(wrapped) => {
            computation.kernel = wrapped;
            Err(AllocError)
        }
    }
}

/// Lets a computation go on: its agents give the bytes back, and all processes run again. Takes no memory.
pub fn release(computation: &mut Computation, held: Held, outcome: PutOutcome)
    ensures kernel { computation.new.kernel ≡ all_in held.drained.kernel }
    ensures guests { computation.new.guests ≡ held.start.guests }
    ensures transfer { computation.new.transfer ≡ computation.old.transfer }
{
    let (wrapped, _outcome) = refill(held.drained, outcome);
    computation.kernel = wrapped;
    computation.guests = held.start.into_guests();
}

/// A kernel over real numbers in which nobody lives.
fn vacant(alloc: Global) -> Result<Wrapped, AllocError> {
    let hosts = Hosts {
        nodes: 1,
        shift: 0,
        pid_base: 1,
        port_base: 0,
    };
    let computation = Start::empty(alloc).begin(alloc, &hosts)?;
    Ok(computation.into_kernel())
}

/// The numbers of the live processes: of those that have a part of their own.
fn live_of(alloc: Global, guests: &ByPid<Guest>) -> Result<ListOf<VPid>, AllocError>
    ensures { IfOk result (λ live. live ≡ map.keys guests.now) }
{
    let mut live = ListOf::new(alloc);
    for p in guests.keys() {
        live.push(*p)?;
    }
    Ok(live)
}

/// The drained channels and the kernel part for the images, or the system as it was, where memory was wanted.
fn drained_of(
    alloc: Global,
    wrapped: Wrapped,
    live: &[VPid],
) -> Result<(DrainedSet, PlainKernel), Wrapped>
    requires few { length live.now ≤ MEMBER_LIMIT }
    requires listed { (p : VPid) → is_live wrapped p ≡ true → Contains live.now p }
    requires arrived { AllArrived wrapped.directions }
    ensures ok { IfOk result (λ r. (r.0.kernel ≡ wrapped) × (r.1 ≡ wrapped)) }
    ensures suspended { IfOk result (λ r. AreSuspended (Contains live.now) r.0.barrier) }
    ensures err { IfErr result (λ same. same ≡ wrapped) }
{
    let drained = match drain(alloc, wrapped, live) {
        Ok(drained) => drained,
        Err((wrapped, _fault)) => return Err(wrapped),
    };
    match drained.kernel(alloc) {
        Ok(kernel) => Ok((drained, kernel)),
        Err(_) => Err(refill(drained, PutOutcome::Memory).0),
    }
}
