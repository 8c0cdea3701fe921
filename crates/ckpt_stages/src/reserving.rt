//! All room of a checkpoint.
ghost use Rattle.std.specs.Prelude.{IfOk};
ghost use Rattle.wire_net.specs.Reserves.{reserve};
ghost use Rattle.ckpt_stages.specs.Suspensions as words;

use host_tables::System;
use id_maps::{ByDesc, ByPid};
use leader_vote::directions::{list_dirs, list_standing};
use leader_vote::owners::keep_owners;
use leader_vote::voters::list_voters;
use std::alloc::{AllocError, Global};
use sys_abi::{Dir, RealPid};
use wire_net::{AgentEnd, CutRoom, Room};

/// What a checkpoint notes of a system, and all room that it needs.
#[derive(Drop)]
pub struct Reserved {
    pub owners: ByDesc<Option<RealPid>>,
    pub voters: ByPid<bool>,
    pub dirs: Vec<Dir>,
    pub ends: Room<AgentEnd>,
    pub room: CutRoom,
}

/// Takes all room of a checkpoint, with the owners as they are.
pub(crate) fn reserve_all(alloc: Global, system: &System) -> Result<Reserved, AllocError>
    ensures { IfOk result (λ r. words.IsReserved system.now r.owners r.voters r.dirs.items r.ends r.room) }
{
    let owners = keep_owners(alloc, &system.kernel.book)?;
    let voters = list_voters(alloc, &system.kernel.procs, &system.ids)?;
    let dirs = list_dirs(alloc, &system.conns)?;
    let (ends, room) = reserve_room(alloc, system, dirs.as_slice())?;
    Ok(Reserved {
        owners,
        voters,
        dirs,
        ends,
        room,
    })
}

/// Room for the agents and for all bytes.
fn reserve_room(
    alloc: Global,
    system: &System,
    dirs: &[Dir],
) -> Result<(Room<AgentEnd>, CutRoom), AllocError>
    requires { words.AreSides dirs.now }
    ensures { IfOk result (λ r. words.HasRoomFor system.now dirs.now r.0 r.1) }
{
    let ends = Room::with_room(alloc, dirs.len())?;
    let lengths = list_standing(alloc, &system.kernel.net, dirs)?;
    let room = CutRoom::reserve(alloc, lengths.as_slice())?;
    Ok((ends, room))
}
