ghost use Rattle.std.specs.Prelude.{◌≡◌, true, false, All, IfOk};
ghost use Rattle.wire_net.specs.CutRooms as words;

use crate::room::Room;
use std::alloc::{AllocError, Global};
use std::marker::Model;
use sys_abi::{Dir, RealPid, Transfer};
use views::list_of::ListOf;

/// The bytes of a direction that were taken off it for a checkpoint, or that stay in it and were only looked
/// at.
#[derive(Drop)]
pub struct DirBytes {
    pub dir: Dir,
    pub bytes: ListOf<u8>,
    pub in_place: bool,
}

/// What the network held when it was drained: a list for each direction.
#[derive(Drop)]
pub struct DrainedNet {
    pub lists: ListOf<DirBytes>,
}

/// What the agents of the two ends of a direction hold and note of it.
#[derive(Drop)]
pub struct DirNotes {
    pub dir: Dir,
    /// The bytes that the agent of the reading end took off it.
    pub drained: Room<u8>,
    /// The bytes that the agent of the sending end got back.
    pub returned: Room<u8>,
    /// The agent of the sending end.
    pub sender: Option<RealPid>,
    /// The agent of the reading end. A refill asks for senders alone.
    pub reader: Option<RealPid>,
    /// How many bytes of it stood in the network when the stage began.
    pub count: u32,
    /// How many bytes the agent of the sending end has sent on it in this stage.
    pub sent: u32,
    /// How many bytes the agent of the reading end has read off it in this stage.
    pub read: u32,
}

/// What a [`CutRoom`] is made of.
#[derive(Drop)]
pub struct RoomParts {
    pub transfer: Transfer,
    pub notes: ListOf<DirNotes>,
    pub lists: Room<DirBytes>,
}

/// All room that the agents of a checkpoint need, taken before it begins. A contract sees the directions that
/// it names with their lengths, and whether it is whole, which it is until its lists were handed out. That of
/// what comes back is there all the time.
#[derive(Drop)]
pub struct CutRoom {
    parts: RoomParts,
    is_whole: bool,
}

impl Model for CutRoom {
    ghost use Rattle.std.specs.Prelude.{All};
    ghost use Rattle.wire_net.specs.CutRooms.{RoomView, names_of, IsWholeIf, HasRoom};

    ghost Value = { RoomView };

    ghost view = { λ a. record { lengths = names_of a.parts.notes; is_whole = a.is_whole } };

    ghost invariant = { λ a. IsWholeIf a.is_whole a.parts × All HasRoom a.parts.notes };
}

impl CutRoom {
    /// Room for the agents' notes, one transfer, and for each named direction two lists of the named length.
    pub fn reserve(alloc: Global, lengths: &[(Dir, u32)]) -> Result<CutRoom, AllocError>
        ensures { IfOk result (λ room. room ≡ record { lengths = lengths.now; is_whole = true }) }
    {
        let transfer = Transfer::new(alloc)?;
        let notes = reserve_notes(alloc, lengths)?;
        let lists = Room::with_room(alloc, lengths.len())?;
        Ok(CutRoom {
            parts: RoomParts {
                transfer,
                notes,
                lists,
            },
            is_whole: true,
        })
    }

    /// The room by its parts.
    pub fn into_parts(self) -> RoomParts
        ensures names { words.names_of result.notes ≡ self.lengths }
        ensures whole { self.is_whole ≡ true → result ≡ words.new_parts self.lengths }
        ensures room { All words.HasRoom result.notes }
    {
        self.parts
    }

    /// Room whose lists were handed out in part. It names the same directions, and is not whole.
    pub fn from_parts(parts: RoomParts) -> CutRoom
        requires { All words.HasRoom parts.notes }
        ensures { result ≡ record { lengths = words.names_of parts.notes; is_whole = false } }
    {
        CutRoom {
            parts,
            is_whole: false,
        }
    }
}

/// Notes on a direction of which nothing is noted yet, with two lists of that length.
fn new_notes(alloc: Global, dir: Dir, length: u32) -> Result<DirNotes, AllocError>
    ensures { IfOk result (λ notes. notes ≡ words.new_notes (dir, length)) }
{
    let drained = Room::with_room(alloc, length as usize)?;
    let returned = Room::with_room(alloc, length as usize)?;
    Ok(DirNotes {
        dir,
        drained,
        returned,
        sender: None,
        reader: None,
        count: 0,
        sent: 0,
        read: 0,
    })
}

fn reserve_notes(alloc: Global, lengths: &[(Dir, u32)]) -> Result<ListOf<DirNotes>, AllocError>
    ensures { IfOk result (λ notes. notes ≡ words.all_notes lengths.now) }
{
    let mut notes = Vec::with_capacity(alloc, lengths.len())?;
    for named in lengths {
        let (dir, length) = *named;
        notes.push(new_notes(alloc, dir, length)?)?;
    }
    Ok(ListOf::from_vec(notes))
}
