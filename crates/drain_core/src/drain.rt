ghost use Rattle.std.specs.Prelude.{◌≡◌, ◌≢◌, ◌==◌, ◌<◌, ◌↔◌, true, false, map as each, length, IsSome};
ghost use Rattle.sys_abi.specs.declared.identity.Dir.{Dir};
ghost use Rattle.wire_net.specs.declared.agents.Stepped.TheVariants.{Moved, Again};
ghost use Rattle.wire_net.specs.CutRooms.{names_of};
ghost use Rattle.wire_channels.specs.Channels.{direction_at};
ghost use Rattle.wire_net.specs.DrainedNets.{list_on, IsDrained, IsNamingLists, agents_of_lists};
ghost use Rattle.wire_net.specs.Ends.{IsFor};
ghost use Rattle.wire_channels.specs.Frames.{SameFrames};
ghost use Rattle.wire_net.specs.Whereabouts.{stream_on};
ghost use Rattle.drain_core.specs.Drains as words;
ghost use Rattle.drain_core.specs.Holding.{agents_of, whereabouts};
ghost use Rattle.drain_core.specs.Openings as openings;
ghost use Rattle.drain_core.specs.Work.{work_left, GoesOn};

use crate::finishing::{all_finished, is_left};
use crate::handing::hand_out;
use crate::opening::open_all;
use crate::stepping::step_all;
use std::marker::Model;
use sys_abi::{RealPid, Transfer};
use views::list_of::ListOf;
use wire_net::{AgentEnd, CutRoom, DirBytes, DirNotes, DrainedNet, Net, Room, RoomParts, Stepped};

/// A drain under way. A contract sees what the agents have noted of each direction.
#[derive(Drop)]
pub struct Drain {
    transfer: Transfer,
    notes: Vec<DirNotes>,
    lists: Room<DirBytes>,
}

impl Model for Drain {
    ghost use Rattle.std.specs.Prelude.{◌≡◌, [], length};
    ghost use Rattle.wire_net.specs.Reserves.{reserve};
    ghost use Rattle.drain_core.specs.Drains.{Notes};

    ghost Value = { Notes };

    ghost view = { λ a. a.notes.items };

    ghost invariant = { λ a. a.lists ≡ reserve [] (length a.notes.items) };
}

impl Drain {
    /// Begins a drain of the network, whose ends' agents are listed, in a room that names its directions.
    /// Takes no memory.
    pub fn begin(room: CutRoom, net: &Net, ends: &[AgentEnd]) -> Drain
        requires whole { room.is_whole ≡ true }
        requires ends { IsFor net.now.channels ends.now }
        requires naming { openings.IsNaming net.now.channels room.lengths }
        ensures begun { result ≡ openings.begun net.now.channels ends.now room.lengths }
        ensures fits { words.Fits net.now.channels result }
        ensures named { words.dirs_of result ≡ each (λ named. named.0) room.lengths }
        ensures there { (d : Dir) → d.side < 2 → IsSome (direction_at net.now.channels d) → words.has_notes d result ≡ true }

        // The bytes of each direction are where they were.
        ensures kept { (d : Dir) → whereabouts net.now (agents_of result) d ≡ stream_on (direction_at net.now.channels d) }
    {
        let parts = room.into_parts();
        let mut notes = parts.notes.into_vec();
        open_all(&mut notes, net, ends);
        Drain {
            transfer: parts.transfer,
            notes,
            lists: parts.lists,
        }
    }

    /// One step of an agent on all directions whose ends it acts for: it reads what has come, up to the end
    /// of the cookie, and sends what is left of its own, as far as there is room. Takes no memory.
    pub fn step(&mut self, net: &mut Net, agent: RealPid) -> Stepped
        requires { words.Fits net.old.channels self.old }
        ensures answer { result ≡ words.step_answer agent net.old.channels self.old }
        ensures again { (result ≡ Again) ↔ words.IsHeldUp agent net.old.channels self.old }
        ensures notes { self.new ≡ words.notes_after agent net.old.channels self.old }
        ensures net { net.new ≡ record net.old { channels = words.channels_after agent self.old net.old.channels } }
        ensures fits { words.Fits net.new.channels self.new }

        // The same directions are noted, with the same agents and room.
        ensures agents { words.named_agents self.new ≡ words.named_agents self.old }
        ensures rooms { names_of self.new ≡ names_of self.old }

        // The same channels are there, with the same directions ended or unread and the same ends open.
        ensures frame { SameFrames net.old.channels net.new.channels }

        // The bytes of each direction are the same, wherever they are.
        ensures kept { (d : Dir) → d.side < 2 → whereabouts net.new (agents_of self.new) d ≡ whereabouts net.old (agents_of self.old) d }

        // What moves bytes leaves less to do, and what moves none leaves all as it was.
        ensures less { result ≡ Moved → work_left net.new.channels self.new < work_left net.old.channels self.old }
        ensures still { result ≢ Moved → (self.new ≡ self.old) × (net.new ≡ net.old) }
    {
        let has_work = self.has_work(net, agent);
        let moved = step_all(&mut self.notes, net, &mut self.transfer, agent);
        Stepped::of(has_work, moved)
    }

    /// Whether the agent has work left: false exactly where `step` would answer `Finished`.
    pub fn has_work(&self, net: &Net, agent: RealPid) -> bool
        ensures { result ≡ words.has_work agent self.now }
    {
        self.notes.iter().any(|notes| is_left(notes, agent))
    }

    /// Whether all agents have finished, and all bytes that no agent drains have reached their receivers'
    /// queues: false exactly where work is left, and then somebody goes on.
    pub fn is_done(&self, net: &Net) -> bool
        requires { words.Fits net.now.channels self.now }
        ensures done { result ≡ words.is_done net.now.channels self.now }
        ensures work { result ≡ (work_left net.now.channels self.now == 0) }
        ensures going { result ≡ false → GoesOn net.now.channels self.now }
    {
        all_finished(&self.notes, net)
    }

    /// What the network held, and the room, which names the same directions and is whole no longer. Takes no
    /// memory.
    pub fn finish(self, net: &Net) -> (DrainedNet, CutRoom)
        requires fits { words.Fits net.now.channels self }
        requires done { words.is_done net.now.channels self ≡ true }
        ensures lists { result.0.lists ≡ openings.lists_of net.now.channels self }
        ensures given { openings.IsGiven net.now self }
        ensures room { result.1 ≡ record { lengths = names_of self; is_whole = false } }

        // The lists are what a refill asks of them: each says truly of its direction where its bytes are, no
        // two are of one direction, and each noted direction of the network has one.
        ensures drained { IsDrained net.now.channels result.0.lists }
        ensures whole { (d : Dir) → d.side < 2 → IsSome (direction_at net.now.channels d) → words.has_notes d self ≡ true → IsSome (list_on d result.0.lists) }

        // So is the room: it names each direction once, with room for its list to come back.
        ensures names { IsNamingLists result.1.lengths result.0.lists }

        // The bytes of each direction are the same, wherever they are.
        ensures kept { (d : Dir) → d.side < 2 → whereabouts net.now (agents_of_lists result.0.lists) d ≡ whereabouts net.now (agents_of self) d }
    {
        let mut transfer = self.transfer;
        let mut notes = self.notes;
        let mut lists = self.lists;
        hand_out(&mut notes, net, &mut transfer, &mut lists);
        let drained = DrainedNet {
            lists: lists.take(),
        };
        let room = CutRoom::from_parts(RoomParts {
            transfer,
            notes: ListOf::from_vec(notes),
            lists,
        });
        (drained, room)
    }
}
