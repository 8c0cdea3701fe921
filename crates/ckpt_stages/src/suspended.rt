//! The suspension of all processes, and the election of leaders.
ghost use Rattle.std.specs.Prelude.{◌≡◌, true, None, IfOk, IfErr};
ghost use Rattle.leader_vote.specs.Voters as voting;
ghost use Rattle.cut_stages.specs.OfWrapNames.Wrapping.{IsWrapped};
ghost use Rattle.seen_kernel.specs.Descriptions.{HasNoDatagrams};
ghost use Rattle.ckpt_stages.specs.Suspensions as words;
ghost use Rattle.ckpt_stages.specs.Faults as faults;

use crate::elected::Elected;
use crate::fault::StageFault;
use crate::first_unsupported::first_unsupported;
use crate::reserving::{Reserved, reserve_all};
use barrier_core::Barrier;
use cut_stages::Stood;
use cut_stages::base::{Base, put_back, vote_by};
use host_tables::System;
use id_maps::{ByDesc, ByPid};
use leader_vote::voters::{all_voted, has_voted, mark_voter};
use std::alloc::Global;
use std::marker::Model;
use sys_abi::{Dir, VPid};
use wire_net::{AgentEnd, CutRoom, Room};

/// A system whose processes are suspended. A contract sees the kernel part for which it stood then, with the
/// next number, the barrier, and which of its live processes have voted.
#[derive(Drop)]
pub struct Suspended {
    base: Base,
    voters: ByPid<bool>,
    dirs: Vec<Dir>,
    ends: Room<AgentEnd>,
    room: CutRoom,
}

impl Model for Suspended {
    ghost use Rattle.ckpt_stages.specs.Suspensions.{Suspension, coded_suspension, IsSuspended};

    ghost Value = { Suspension };

    ghost coded = { coded_suspension };

    ghost view = { λ s. record {
      kernel = s.base.stood.kernel;
      next_id = s.base.next_id;
      barrier = s.base.barrier;
      voters = s.voters;
    } };

    ghost invariant = { λ s. IsSuspended s.base.system s.base.next_id s.base.stood.kernel s.base.owners
        s.voters s.dirs.items s.ends s.room };
}

impl Suspended {
    /// Suspends a system, which stands for the kernel part, and takes all room of the checkpoint.
    ///
    /// # Errors
    /// `Unsupported` with the first descriptor, by process and number, that no image holds; else `Memory`.
    /// The system and the barrier are handed back as they were.
    pub fn enter(
        alloc: Global,
        system: System,
        stood: Stood,
        next_id: u32,
        barrier: Barrier,
    ) -> Result<Suspended, (System, Barrier, StageFault)>
        requires { IsWrapped system next_id stood.kernel }
        ensures ok { IfOk result (words.IsEntered stood.kernel next_id barrier) }
        ensures supported { IfOk result (λ _. faults.FindsUnsupported stood.kernel None) }
        ensures err { IfErr result (λ r. (r.0 ≡ system) × (r.1 ≡ barrier)) }
        ensures fault { IfErr result (λ r. faults.IsFault stood.kernel r.2) }
    {
        if let Some((p, fd, kind)) = first_unsupported(&system) {
            return Err((system, barrier, StageFault::Unsupported(p, fd, kind)));
        }
        let Ok(reserved) = reserve_all(alloc, &system) else {
            return Err((system, barrier, StageFault::Memory));
        };
        Ok(suspend(alloc, system, stood, next_id, barrier, reserved))
    }

    /// The process votes: it sets itself as the owner of each description that it holds. Takes no memory.
    pub fn vote(&mut self, p: VPid)
        ensures { self.new ≡ record self.old { voters = voting.marked self.old.voters p } }
    {
        mark_voter(&mut self.voters, p);
        vote_by(&mut self.base.system, p);
    }

    /// Whether the process has voted.
    pub fn has_voted(&self, p: VPid) -> bool
        ensures { result ≡ voting.has_voted self.now.voters p }
    {
        has_voted(&self.voters, p)
    }

    /// Whether each live process has voted.
    pub fn all_voted(&self) -> bool
        ensures { result ≡ voting.all_voted self.now.voters }
    {
        all_voted(&self.voters)
    }

    /// Ends the election: each description has a leader now, and a drain begins. Takes no memory.
    pub fn elected(self) -> Elected
        requires { voting.all_voted self.voters ≡ true }
        ensures { words.IsHandedOn self result }
    {
        let base = self.base;
        let voters = self.voters;
        let dirs = self.dirs;
        Elected::begin(base, &voters, dirs.as_slice(), self.ends, self.room)
    }

    /// Gives the checkpoint up. The system stands for the kernel part as before. Takes no memory.
    pub fn refuse(self) -> (System, Barrier)
        ensures system { IsWrapped result.0 self.next_id self.kernel }
        ensures barrier { result.1 ≡ self.barrier }
    {
        let base = self.base;
        let mut system = base.system;
        let owners = base.owners;
        put_back(&mut system, &owners);
        (system, base.barrier)
    }
}

/// The owners are kept and cleared.
fn suspend(
    alloc: Global,
    system: System,
    stood: Stood,
    next_id: u32,
    barrier: Barrier,
    reserved: Reserved,
) -> Suspended
    requires wrapped { IsWrapped system next_id stood.kernel }
    requires supported { HasNoDatagrams stood.kernel.descriptions }
    requires reserved { words.IsReserved system reserved.owners reserved.voters reserved.dirs.items
        reserved.ends reserved.room }
    ensures { words.IsEntered stood.kernel next_id barrier result }
{
    let mut system = system;
    let nobody = ByDesc::new(alloc);
    put_back(&mut system, &nobody);
    Suspended {
        base: Base {
            system,
            stood,
            next_id,
            barrier,
            owners: reserved.owners,
        },
        voters: reserved.voters,
        dirs: reserved.dirs,
        ends: reserved.ends,
        room: reserved.room,
    }
}
