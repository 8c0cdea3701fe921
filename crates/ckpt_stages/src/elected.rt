//! The drain of all channels by their elected agents.
ghost use Rattle.std.specs.Prelude.{◌≡◌, ◌≢◌, ◌<◌, ◌⊎◌, ◌==◌, true, false};
ghost use Rattle.drain_core.specs.Drains as drains;
ghost use Rattle.drain_core.specs.Work.{work_left, GoesOn};
ghost use Rattle.wire_net.specs.declared.agents.Stepped.TheVariants.{Moved};
ghost use Rattle.leader_vote.specs.Voters as voting;
ghost use Rattle.drain_core.specs.Holding.{agents_of};
ghost use Rattle.cut_stages.specs.Holdings.{IsHeldBy};
ghost use Rattle.cut_stages.specs.Drains.{pumped};
ghost use Rattle.ckpt_stages.specs.Elections as words;
ghost use Rattle.ckpt_stages.specs.Suspensions as suspensions;

use crate::draining::drain_through;
use cut_stages::DrainedSet;
use cut_stages::base::{Base, pump_on};
use drain_core::{Drain, drain_laws};
use host_tables::System;
use id_maps::ByPid;
use leader_vote::agents::name_agents;
use std::marker::Model;
use sys_abi::{Dir, VPid};
use wire_net::{AgentEnd, CutRoom, Room, Stepped};

/// A system whose agents drain its channels. A contract sees the kernel part for which it stood when it was
/// suspended, the network, and what the agents have noted of it.
#[derive(Drop)]
pub struct Elected {
    base: Base,
    ends: Room<AgentEnd>,
    drain: Drain,
}

impl Model for Elected {
    ghost use Rattle.cut_stages.specs.Drains.{IsDraining};
    ghost use Rattle.ckpt_stages.specs.Elections.{Draining, coded_draining};

    ghost Value = { Draining };

    ghost coded = { coded_draining };

    ghost view = { λ e. record {
      kernel = e.base.stood.kernel;
      next_id = e.base.next_id;
      barrier = e.base.barrier;
      pids = e.base.system.ids.pids;
      net = e.base.system.kernel.net;
      notes = e.drain;
    } };

    ghost invariant = { λ e. IsDraining e.base.system e.base.next_id e.base.stood.kernel e.base.owners
        e.ends.items e.drain };
}

impl Elected {
    /// Names the agents of all ends, which are the leaders that the votes elected, and begins the drain.
    pub(crate) fn begin(
        base: Base,
        voters: &ByPid<bool>,
        dirs: &[Dir],
        ends: Room<AgentEnd>,
        room: CutRoom,
    ) -> Elected
        requires suspended { suspensions.IsSuspended base.system base.next_id base.stood.kernel base.owners
            voters.now dirs.now ends room }
        requires voted { voting.all_voted voters.now ≡ true }
        ensures kernel { result.kernel ≡ base.stood.kernel }
        ensures next { result.next_id ≡ base.next_id }
        ensures barrier { result.barrier ≡ base.barrier }
    {
        let base = base;
        let mut ends = ends;
        base.system.kernel.book.whole();
        name_agents(
            &mut ends,
            dirs,
            &base.system.kernel.book,
            &base.system.kernel.net,
        );
        let drain = Drain::begin(room, &base.system.kernel.net, ends.as_slice());
        Elected { base, ends, drain }
    }

    /// One step of a process as an agent: it reads what has come on the directions that it reads, and then
    /// sends what is left of its cookies. `Finished` where it has no work left, `Again` where it has some and
    /// can move nothing yet. Takes no memory.
    pub fn step(&mut self, agent: VPid) -> Stepped
        ensures answer { result ≡ words.step_answer_of self.old agent }
        ensures stays { self.new ≡ record self.old { net = self.new.net; notes = self.new.notes } }
        ensures less { result ≡ Moved
            → work_left self.new.net.channels self.new.notes
            < work_left self.old.net.channels self.old.notes }
        ensures still { result ≢ Moved → self.new ≡ self.old }
    {
        let Ok(real) = self.base.system.ids.real_pid(agent.0) else {
            return Stepped::Finished;
        };
        self.drain.step(&mut self.base.system.kernel.net, real)
    }

    /// Moves at most so many bytes of a direction from its sender's queue to the wire, and then from there to
    /// its receiver's queue. Takes no memory.
    pub fn pump(&mut self, d: Dir, n: u32)
        requires { d.side < 2 }
        ensures moved { self.new ≡ record self.old { net = pumped d n self.old.net } }
        ensures less { (self.new ≡ self.old)
            ⊎ (work_left self.new.net.channels self.new.notes
            < work_left self.old.net.channels self.old.notes) }
    {
        drain_laws();
        pump_on(&mut self.base.system.kernel.net, d, n);
    }

    /// Steps the agents and moves bytes until all channels are drained. Takes no memory.
    pub fn drain_all(&mut self)
        ensures done { drains.is_done self.new.net.channels self.new.notes ≡ true }
        ensures stays { self.new ≡ record self.old { net = self.new.net; notes = self.new.notes } }
    {
        drain_through(
            &mut self.drain,
            &mut self.base.system.kernel.net,
            self.ends.as_slice(),
        );
    }

    /// Whether a process has work left as an agent: false exactly where `step` would answer `Finished`.
    pub fn has_work(&self, agent: VPid) -> bool
        ensures { result ≡ words.has_work_of self.now agent }
    {
        let Ok(real) = self.base.system.ids.real_pid(agent.0) else {
            return false;
        };
        self.drain.has_work(&self.base.system.kernel.net, real)
    }

    /// Whether all bytes are drained: false exactly where work is left, and then the step of some agent, a live
    /// process, or some move of bytes goes on with it.
    pub fn all_drained(&self) -> bool
        ensures done { result ≡ drains.is_done self.now.net.channels self.now.notes }
        ensures work { result ≡ (work_left self.now.net.channels self.now.notes == 0) }
        ensures going { result ≡ false → GoesOn self.now.net.channels self.now.notes }
        ensures live { result ≡ false → words.LiveGoesOn self.now }
    {
        self.drain.is_done(&self.base.system.kernel.net)
    }

    /// The system, which stands for the kernel part while the agents hold what they do of it.
    pub fn system(&self) -> &System
        ensures { IsHeldBy result.now self.now.kernel (agents_of self.now.notes) }
    {
        &self.base.system
    }

    /// Ends the drain. Takes no memory.
    pub fn drained(self) -> DrainedSet
        requires { drains.is_done self.net.channels self.notes ≡ true }
        ensures kernel { result.kernel ≡ self.kernel }
        ensures next { result.next_id ≡ self.next_id }
        ensures barrier { result.barrier ≡ self.barrier }
    {
        DrainedSet::begin(self.base, self.ends, self.drain)
    }
}
