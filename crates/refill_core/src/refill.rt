ghost use Rattle.std.specs.Prelude.{◌≡◌, ◌≢◌, ◌==◌, ◌<◌, ◌≤◌, ◌↔◌, true, false, length, map as each, IsSome, All};
ghost use Rattle.sys_abi.specs.declared.identity.Dir.{Dir};
ghost use Rattle.wire_net.specs.declared.agents.Stepped.TheVariants.{Moved, Again};
ghost use Rattle.wire_channels.specs.declared.limits.TheConstants.{QUEUE_LIMIT};
ghost use Rattle.wire_channels.specs.Channels.{Channels, direction_at};
ghost use Rattle.wire_net.specs.DrainedNets.{IsDrained, HasLists, IsNamingLists, agents_of_lists};
ghost use Rattle.wire_net.specs.Ends.{IsFor};
ghost use Rattle.wire_channels.specs.Frames.{SameFrames};
ghost use Rattle.wire_net.specs.Networks.{Network};
ghost use Rattle.refill_core.specs.Beginnings as beginnings;
ghost use Rattle.refill_core.specs.Refills as words;
ghost use Rattle.refill_core.specs.Holding.{agents_of, whereabouts};
ghost use Rattle.refill_core.specs.Stepping.{state};
ghost use Rattle.refill_core.specs.Work as work;

use crate::beginning::begin_all;
use crate::finishing::{all_finished, has_work_left};
use crate::stepping::step_all;
use std::marker::Model;
use sys_abi::{RealPid, Transfer};
use wire_net::{AgentEnd, CutRoom, DirNotes, DrainedNet, Net, Stepped};

/// A refill under way. A contract sees what the agents have noted of each direction.
#[derive(Drop)]
pub struct Refill {
    transfer: Transfer,
    notes: Vec<DirNotes>,
}

impl Model for Refill {
    ghost use Rattle.refill_core.specs.Refills.{Notes};

    ghost Value = { Notes };

    ghost view = { λ a. a.notes.items };
}

impl Refill {
    /// Begins a refill of what was drained: the bytes of each list that were not left in place go back to its
    /// direction. The room names each direction, and what is drained has a list of each; the ends' agents are
    /// listed. Takes no memory.
    pub fn begin(room: CutRoom, drained: DrainedNet, ends: &[AgentEnd]) -> Refill
        requires naming { IsNamingLists room.lengths drained.lists }
        requires few { All (λ list. length list.bytes ≤ QUEUE_LIMIT) drained.lists }
        ensures begun { result ≡ beginnings.begun drained.lists ends.now room.lengths }
        ensures named { words.dirs_of result ≡ each (λ named. named.0) room.lengths }
        ensures there { (m : Channels) → HasLists m drained.lists
            → (d : Dir) → d.side < 2 → IsSome (direction_at m d) → words.has_notes d result ≡ true }

        // It fits each network that was drained so.
        ensures fits { (m : Channels) → IsFor m ends.now → IsDrained m drained.lists → HasLists m drained.lists → words.Fits m result }

        // The bytes of each direction are the same, whether its list holds them or the notes do.
        ensures held { (t : Network) → IsFor t.channels ends.now → IsDrained t.channels drained.lists → HasLists t.channels drained.lists
            → (d : Dir) → whereabouts t (agents_of result) d ≡ whereabouts t (agents_of_lists drained.lists) d }

        // Those of a direction that has a list are those of the list.
        ensures kept { (t : Network) → IsFor t.channels ends.now → IsDrained t.channels drained.lists → HasLists t.channels drained.lists
            → All (λ list. whereabouts t (agents_of result) list.dir ≡ list.bytes) drained.lists }
    {
        let parts = room.into_parts();
        let mut notes = parts.notes.into_vec();
        let mut lists = drained.lists.into_vec();
        begin_all(&mut notes, &mut lists, ends);
        Refill {
            transfer: parts.transfer,
            notes,
        }
    }

    /// One step of an agent: for each direction that it sends, one after the other, it reads what has come of
    /// the frame with the direction's own bytes, and sends the next piece (the length, the rest of the frame,
    /// or its own bytes) as far as there is room. It sends the frame of the other direction first, and its
    /// own bytes once they are back. Takes no memory.
    pub fn step(&mut self, net: &mut Net, agent: RealPid) -> Stepped
        requires { words.Fits net.old.channels self.old }
        ensures answer { result ≡ work.step_answer agent (state self.old net.old) }
        ensures again { (result ≡ Again) ↔ work.IsHeldUp agent net.old.channels self.old }
        ensures after { state self.new net.new ≡ words.turns_after agent (words.dirs_of self.old) (state self.old net.old) }
        ensures net { net.new ≡ record net.old { channels = net.new.channels } }
        ensures fits { words.Fits net.new.channels self.new }

        // The same directions are noted, with the same agents.
        ensures agents { words.named_agents self.new ≡ words.named_agents self.old }

        // The same channels are there, with the same directions ended or unread and the same ends open.
        ensures frame { SameFrames net.old.channels net.new.channels }

        // The bytes of each direction are the same, wherever they are.
        ensures kept { (d : Dir) → d.side < 2 → whereabouts net.new (agents_of self.new) d ≡ whereabouts net.old (agents_of self.old) d }

        // What moves bytes leaves less to do, and what moves none leaves all as it was.
        ensures less { result ≡ Moved → work.work_left net.new.channels self.new < work.work_left net.old.channels self.old }
        ensures still { result ≢ Moved → (self.new ≡ self.old) × (net.new ≡ net.old) }
    {
        let has_work = self.has_work(net, agent);
        let moved = step_all(&mut self.notes, net, &mut self.transfer, agent);
        Stepped::of(has_work, moved)
    }

    /// Whether the agent has work left: false exactly where `step` would answer `Finished`.
    pub fn has_work(&self, net: &Net, agent: RealPid) -> bool
        requires { words.Fits net.now.channels self.now }
        ensures { result ≡ work.has_work agent self.now }
    {
        has_work_left(&self.notes, agent)
    }

    /// Whether all agents have finished, and all bytes have reached their receivers' queues: false exactly
    /// where work is left, and then somebody goes on. Where it is done, all bytes of each direction can be
    /// read.
    pub fn is_done(&self, net: &Net) -> bool
        requires { words.Fits net.now.channels self.now }
        ensures done { result ≡ work.is_done net.now.channels self.now }
        ensures work { result ≡ (work.work_left net.now.channels self.now == 0) }
        ensures going { result ≡ false → work.GoesOn (state self.now net.now) }
        ensures back { result ≡ true → All (words.IsBack (λ d. whereabouts net.now (agents_of self.now) d) net.now.channels) self.now }
    {
        all_finished(&self.notes, net)
    }

    /// Ends a refill that is done. All bytes of each direction can be read, and they are all that it had.
    pub fn finish(self, net: &Net)
        requires fits { words.Fits net.now.channels self }
        requires done { work.is_done net.now.channels self ≡ true }
        ensures back { All (words.IsBack (λ d. whereabouts net.now (agents_of self) d) net.now.channels) self }
    {
        let _room = self.notes;
    }
}
