//! What all stages of a checkpoint keep.
ghost use Rattle.std.specs.Prelude.{◌≡◌, ◌<◌};
ghost use Rattle.wire_channels.specs.Frames.{SameFrames};
ghost use Rattle.cut_stages.specs.Drains.{pumped};
ghost use Rattle.cut_stages.specs.Cuts as words;
ghost use Rattle.cut_stages.specs.Rounds as rounds;

use barrier_core::Barrier;
use host_tables::System;
use id_maps::ByDesc;
use leader_vote::owners::put_owners;
use leader_vote::vote;
use sys_abi::{Dir, RealPid, VPid};
use wire_net::{AgentEnd, Net, Place, is_agent};
use wrap_names::stood::Stood;

/// At most so many bytes of a direction pass on in a round: no queue holds more.
pub const PASSING: u32 = 65_536;

/// The system with what is put back at the end: the owners of its descriptions, and the barrier. The kernel
/// part for which it stood is there for clauses alone.
#[derive(Drop)]
pub struct Base {
    pub system: System,
    pub stood: Stood,
    pub next_id: u32,
    pub barrier: Barrier,
    pub owners: ByDesc<Option<RealPid>>,
}

/// The process sets itself as the owner of each description that it holds. Takes no memory.
pub fn vote_by(system: &mut System, p: VPid)
    ensures { system.new ≡ words.voted_by system.old p }
{
    let Ok(real) = system.ids.real_pid(p.0) else {
        return;
    };
    vote(&mut system.kernel.book, real);
}

/// The owners are those that were kept. Takes no memory.
pub fn put_back(system: &mut System, owners: &ByDesc<Option<RealPid>>)
    ensures { system.new ≡ words.put_back owners.now system.old }
{
    put_owners(&mut system.kernel.book, owners);
}

/// Moves at most so many bytes of a direction from its sender's queue to the wire, and then from there to its
/// receiver's queue. Takes no memory.
pub fn pump_on(net: &mut Net, d: Dir, n: u32)
    requires { d.side < 2 }
    ensures after { net.new ≡ pumped d n net.old }
    ensures frame { SameFrames net.old.channels net.new.channels }
{
    net.move_bytes(d, Place::Send, n);
    net.move_bytes(d, Place::Wire, n);
}

/// Whether the process acts for one of the ends. They are looked at from the last one on: ends of one agent
/// mostly stand together.
pub fn acts_among(p: RealPid, ends: &[AgentEnd]) -> bool
    ensures { result ≡ rounds.acts_among p ends.now }
{
    let mut place = ends.len();
    while place > 0 {
        place -= 1;
        if is_agent(ends[place].agent, p) {
            return true;
        }
    }
    false
}
