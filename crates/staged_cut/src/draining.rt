//! From a system that runs to its drained channels.
ghost use Rattle.std.specs.Prelude.{◌≡◌, ◌≤◌, true, None, IfOk, IfErr, IsSome, Contains, length};
ghost use Rattle.std.specs.FinMap as map;
ghost use Rattle.sys_abi.specs.declared.identity.VPid.{VPid};
ghost use Rattle.plain_machine.specs.declared.kernel.PlainKernel.{PlainKernel};
ghost use Rattle.plain_machine.specs.Kernel.{is_live};
ghost use Rattle.barrier_core.specs.declared.members.TheConstants.{MEMBER_LIMIT};
ghost use Rattle.leader_vote.specs.Voters as voting;
ghost use Rattle.ckpt_stages.specs.OfWrapNames.Wrapping.{IsWrapped};
ghost use Rattle.ckpt_stages.specs.Faults as faults;
ghost use Rattle.ckpt_stages.specs.Suspensions as words;
ghost use Rattle.staged_cut.specs.Suspended.{AreSuspended};

use crate::standing::{same, stood_by, wrap};
use barrier_core::{Barrier, Stage};
use ckpt_stages::first_unsupported::first_unsupported;
use ckpt_stages::{DrainedSet, Elected, StageFault, Stood, Suspended};
use host_tables::System;
use run_start::Wrapped;
use std::alloc::{AllocError, Global};
use sys_abi::VPid;

/// Suspends all processes, has them elect leaders, and drains all channels. `live` names the live processes:
/// the barrier is theirs, and they are suspended at it.
///
/// # Errors
/// `Unsupported` with the first descriptor, by process and number, that no image holds; else `Memory`. The
/// system is handed back as it was.
pub fn drain(
    alloc: Global,
    wrapped: Wrapped,
    live: &[VPid],
) -> Result<DrainedSet, (Wrapped, StageFault)>
    requires few { length live.now ≤ MEMBER_LIMIT }
    requires listed { (p : VPid) → is_live wrapped p ≡ true → Contains live.now p }
    ensures ok { IfOk result (λ s. (s.kernel ≡ wrapped) × (s.next_id ≡ wrapped.next_id)) }
    ensures suspended { IfOk result (λ s. AreSuspended (Contains live.now) s.barrier) }
    ensures supported { IfOk result (λ _. faults.FindsUnsupported wrapped None) }
    ensures err { IfErr result (λ r. (r.0 ≡ wrapped) × faults.IsFault wrapped r.1) }
{
    let Ok(barrier) = ask_all(alloc, live) else {
        let fault = fault_of(wrapped.system());
        return Err((wrapped, fault));
    };
    match suspend(alloc, wrapped, barrier) {
        Err(refused) => Err(refused),
        Ok(suspended) => Ok(drain_suspended(suspended, live)),
    }
}

/// A barrier at which all that live are asked to suspend and are noted as suspended: the one thread runs none
/// of them.
fn ask_all(alloc: Global, live: &[VPid]) -> Result<Barrier, AllocError>
    requires { length live.now ≤ MEMBER_LIMIT }
    ensures { IfOk result (AreSuspended (Contains live.now)) }
{
    let mut barrier = Barrier::new(alloc)?;
    barrier.ask(live);
    for p in live.iter() {
        barrier.reached(*p, Stage::Suspended);
    }
    Ok(barrier)
}

/// Why a system is not suspended where there is no room for its barrier.
fn fault_of(system: &System) -> StageFault
    ensures { (k : PlainKernel) (next_id : _) → IsWrapped system.now next_id k → faults.IsFault k result }
{
    match first_unsupported(system) {
        None => StageFault::Memory,
        Some((p, fd, kind)) => StageFault::Unsupported(p, fd, kind),
    }
}

/// Suspends the system, or hands it back.
fn suspend(
    alloc: Global,
    wrapped: Wrapped,
    barrier: Barrier,
) -> Result<Suspended, (Wrapped, StageFault)>
    ensures ok { IfOk result (words.IsEntered wrapped wrapped.next_id barrier) }
    ensures supported { IfOk result (λ _. faults.FindsUnsupported wrapped None) }
    ensures err { IfErr result (λ r. (r.0 ≡ wrapped) × faults.IsFault wrapped r.1) }
{
    let stood = stood_by(&wrapped);
    let (system, number) = wrapped.into_system();
    enter(alloc, system, number, &stood, barrier)
}

/// Suspends a system that stands for the kernel part.
fn enter(
    alloc: Global,
    system: System,
    number: u32,
    stood: &Stood,
    barrier: Barrier,
) -> Result<Suspended, (Wrapped, StageFault)>
    requires { IsWrapped system number stood.now.kernel }
    ensures ok { IfOk result (words.IsEntered stood.now.kernel number barrier) }
    ensures supported { IfOk result (λ _. faults.FindsUnsupported stood.now.kernel None) }
    ensures err { IfErr result (λ r. (r.0 ≡ stood.now.kernel) × faults.IsFault stood.now.kernel r.1) }
{
    let again = same(stood);
    match Suspended::enter(alloc, system, again, number, barrier) {
        Ok(suspended) => Ok(suspended),
        Err((system, _barrier, fault)) => Err((wrap(system, number, stood), fault)),
    }
}

/// The processes elect leaders, and these drain the channels as agents.
fn drain_suspended(suspended: Suspended, live: &[VPid]) -> DrainedSet
    requires { (p : VPid) → IsSome (map.get suspended.voters p) → Contains live.now p }
    ensures kernel { result.kernel ≡ suspended.kernel }
    ensures next { result.next_id ≡ suspended.next_id }
    ensures barrier { result.barrier ≡ suspended.barrier }
{
    let mut suspended = suspended;
    vote_all(&mut suspended, live);
    drain_elected(suspended.elected())
}

/// Each process votes.
fn vote_all(suspended: &mut Suspended, live: &[VPid])
    requires { (p : VPid) → IsSome (map.get suspended.old.voters p) → Contains live.now p }
    ensures voted { voting.all_voted suspended.new.voters ≡ true }
    ensures stays { suspended.new ≡ record suspended.old { voters = suspended.new.voters } }
{
    for p in live.iter() {
        suspended.vote(*p);
    }
}

/// The agents take all bytes off the channels.
fn drain_elected(elected: Elected) -> DrainedSet
    ensures kernel { result.kernel ≡ elected.kernel }
    ensures next { result.next_id ≡ elected.next_id }
    ensures barrier { result.barrier ≡ elected.barrier }
{
    let mut elected = elected;
    elected.drain_all();
    elected.drained()
}
