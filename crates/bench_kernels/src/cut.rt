//! A checkpoint by its stages, without a store.
ghost use Rattle.std.specs.Prelude.{◌≡◌};
ghost use Rattle.wrap_names.specs.Wrapping.{IsWrapped};

use crate::standing::{stood_by, wrap};
use ckpt_stages::{Barrier, DrainedSet, Elected, PutOutcome, Refilled, Suspended};
use host_tables::System;
use plain_machine::FIRST_PID;
use std::alloc::Global;
use sys_abi::VPid;
use wrap_calls::Wrapped;
use wrap_names::stood::Stood;

/// How far a checkpoint goes before it comes back.
#[derive(Clone, Copy)]
pub enum Reach {
    /// All processes are suspended and have voted.
    Votes,
    /// The channels are drained, and filled again.
    Bytes,
    /// The kernel part for the images is made meanwhile.
    Images,
}

/// Makes a checkpoint, and tells whether it came so far: it does not where memory is wanted, or where a
/// descriptor refers to what no image holds.
pub fn cut(alloc: Global, kernel: Wrapped, reach: Reach) -> (Wrapped, bool) {
    let Ok(barrier) = Barrier::new(alloc) else {
        return (kernel, false);
    };
    let stood = stood_by(&kernel);
    let (system, number) = kernel.into_system();
    enter(alloc, system, number, &stood, barrier, reach)
}

/// Suspends all processes of a system that stands for the kernel part.
fn enter(
    alloc: Global,
    system: System,
    number: u32,
    stood: &Stood,
    barrier: Barrier,
    reach: Reach,
) -> (Wrapped, bool)
    requires { IsWrapped system number stood.now.kernel }
{
    let again = stood_by(stood);
    match Suspended::enter(alloc, system, again, number, barrier) {
        Ok(suspended) => vote(alloc, suspended, number, reach),
        Err((system, _barrier, _fault)) => (wrap(system, number, stood), false),
    }
}

/// The processes vote, and the checkpoint goes on or is given up.
fn vote(alloc: Global, suspended: Suspended, number: u32, reach: Reach) -> (Wrapped, bool)
    requires { suspended.next_id ≡ number }
{
    let mut suspended = suspended;
    vote_all(&mut suspended, number);
    if !suspended.all_voted() {
        return (give_up(suspended, number), false);
    }
    match reach {
        Reach::Votes => (give_up(suspended, number), true),
        Reach::Bytes => (refill(drain(suspended.elected())), true),
        Reach::Images => image(alloc, drain(suspended.elected())),
    }
}

fn vote_all(suspended: &mut Suspended, number: u32)
    ensures { suspended.new.next_id ≡ suspended.old.next_id }
{
    for p in FIRST_PID..number {
        suspended.vote(VPid(p));
    }
}

fn give_up(suspended: Suspended, number: u32) -> Wrapped
    requires { suspended.next_id ≡ number }
{
    let stood = stood_by(&suspended);
    let (system, _barrier) = suspended.refuse();
    wrap(system, number, &stood)
}

fn drain(elected: Elected) -> DrainedSet {
    let mut elected = elected;
    elected.drain_all();
    elected.drained()
}

/// Makes the kernel part for the images before the channels are filled again.
fn image(alloc: Global, drained: DrainedSet) -> (Wrapped, bool) {
    let is_made = drained.kernel(alloc).is_ok();
    (refill(drained), is_made)
}

fn refill(drained: DrainedSet) -> Wrapped {
    let mut filling = drained.written(PutOutcome::Put(1));
    filling.refill_all();
    run_again(filling.refilled())
}

/// Resumes all processes.
fn run_again(refilled: Refilled) -> Wrapped {
    let stood = stood_by(&refilled);
    let number = refilled.next_id();
    let (system, _barrier, _outcome) = refilled.resume();
    wrap(system, number, &stood)
}
