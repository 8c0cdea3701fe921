//! The refill of all channels by their agents.
ghost use Rattle.std.specs.Prelude.{◌≡◌, ◌≢◌, ◌<◌, ◌⊎◌, ◌==◌, true, false};
ghost use Rattle.refill_core.specs.Stepping.{state};
ghost use Rattle.refill_core.specs.Work as work;
ghost use Rattle.wire_net.specs.declared.agents.Stepped.TheVariants.{Moved};
ghost use Rattle.refill_core.specs.Holding.{agents_of};
ghost use Rattle.cut_stages.specs.Holdings.{IsHeldBy};
ghost use Rattle.cut_stages.specs.Drains.{pumped};
ghost use Rattle.cut_stages.specs.Resumptions as words;

use crate::base::{Base, pump_on};
use crate::outcome::PutOutcome;
use crate::refilled::Refilled;
use crate::refilling::refill_through;
use host_tables::System;
use refill_core::{Refill, refill_laws};
use std::marker::Model;
use sys_abi::{Dir, VPid};
use wire_net::{AgentEnd, CutRoom, DrainedNet, Room, Stepped};

/// A system whose agents fill its channels again. A contract sees the kernel part for which it stood when it
/// was suspended, how the writing ended, the network, and what the agents have noted of it.
#[derive(Drop)]
pub struct Written {
    base: Base,
    outcome: PutOutcome,
    ends: Room<AgentEnd>,
    refill: Refill,
}

impl Model for Written {
    ghost use Rattle.cut_stages.specs.Resumptions.{Filling, coded_filling, IsRefilling};

    ghost Value = { Filling };

    ghost coded = { coded_filling };

    ghost view = { λ s. record {
      kernel = s.base.stood.kernel;
      next_id = s.base.next_id;
      barrier = s.base.barrier;
      outcome = s.outcome;
      pids = s.base.system.ids.pids;
      net = s.base.system.kernel.net;
      notes = s.refill;
    } };

    ghost invariant = { λ s. IsRefilling s.base.system s.base.next_id s.base.stood.kernel s.base.owners
        s.ends.items s.refill };
}

impl Written {
    /// Gives the agents what was drained.
    pub(crate) fn begin(
        base: Base,
        outcome: PutOutcome,
        ends: Room<AgentEnd>,
        drained: DrainedNet,
        room: CutRoom,
    ) -> Written
        requires { words.IsDrainedSet base.system base.next_id base.stood.kernel base.owners ends.items
            drained.lists room }
        ensures kernel { result.kernel ≡ base.stood.kernel }
        ensures next { result.next_id ≡ base.next_id }
        ensures barrier { result.barrier ≡ base.barrier }
        ensures outcome { result.outcome ≡ outcome }
    {
        let refill = Refill::begin(room, drained, ends.as_slice());
        Written {
            base,
            outcome,
            ends,
            refill,
        }
    }

    /// One step of a process as an agent: for each direction that it sends it reads what has come back, and
    /// sends the next piece. `Finished` where it has no work left, `Again` where it has some and can move
    /// nothing yet. Takes no memory.
    pub fn step(&mut self, agent: VPid) -> Stepped
        ensures answer { result ≡ words.refill_answer_of self.old agent }
        ensures stays { self.new ≡ record self.old { net = self.new.net; notes = self.new.notes } }
        ensures less { result ≡ Moved
            → work.work_left self.new.net.channels self.new.notes
            < work.work_left self.old.net.channels self.old.notes }
        ensures still { result ≢ Moved → self.new ≡ self.old }
    {
        let Ok(real) = self.base.system.ids.real_pid(agent.0) else {
            return Stepped::Finished;
        };
        self.refill.step(&mut self.base.system.kernel.net, real)
    }

    /// Moves at most so many bytes of a direction from its sender's queue to the wire, and then from there to
    /// its receiver's queue. Takes no memory.
    pub fn pump(&mut self, d: Dir, n: u32)
        requires { d.side < 2 }
        ensures moved { self.new ≡ record self.old { net = pumped d n self.old.net } }
        ensures less { (self.new ≡ self.old)
            ⊎ (work.work_left self.new.net.channels self.new.notes
            < work.work_left self.old.net.channels self.old.notes) }
    {
        refill_laws();
        pump_on(&mut self.base.system.kernel.net, d, n);
    }

    /// Steps the agents and moves bytes until all bytes are back. Takes no memory.
    pub fn refill_all(&mut self)
        ensures done { work.is_done self.new.net.channels self.new.notes ≡ true }
        ensures stays { self.new ≡ record self.old { net = self.new.net; notes = self.new.notes } }
    {
        refill_through(
            &mut self.refill,
            &mut self.base.system.kernel.net,
            self.ends.as_slice(),
        );
    }

    /// Whether a process has work left as an agent: false exactly where `step` would answer `Finished`.
    pub fn has_work(&self, agent: VPid) -> bool
        ensures { result ≡ words.has_refill_of self.now agent }
    {
        let Ok(real) = self.base.system.ids.real_pid(agent.0) else {
            return false;
        };
        self.refill.has_work(&self.base.system.kernel.net, real)
    }

    /// Whether all bytes are back: false exactly where work is left, and then some agent's step or some move
    /// of bytes goes on with it.
    pub fn all_refilled(&self) -> bool
        ensures done { result ≡ work.is_done self.now.net.channels self.now.notes }
        ensures work { result ≡ (work.work_left self.now.net.channels self.now.notes == 0) }
        ensures going { result ≡ false → work.GoesOn (state self.now.notes self.now.net) }
    {
        self.refill.is_done(&self.base.system.kernel.net)
    }

    /// The system, which stands for the kernel part while the agents hold what they do of it.
    pub fn system(&self) -> &System
        ensures { IsHeldBy result.now self.now.kernel (agents_of self.now.notes) }
    {
        &self.base.system
    }

    /// Ends the refill. Takes no memory.
    pub fn refilled(self) -> Refilled
        requires { work.is_done self.net.channels self.notes ≡ true }
        ensures kernel { result.kernel ≡ self.kernel }
        ensures next { result.next_id ≡ self.next_id }
        ensures barrier { result.barrier ≡ self.barrier }
        ensures outcome { result.outcome ≡ self.outcome }
    {
        Refilled::begin(self.base, self.outcome, self.refill)
    }
}
