ghost use Rattle.std.specs.Prelude.{◌≡◌};
ghost use Rattle.plain_tables.specs.Tables as words;

use id_maps::BySlot;
use id_maps::sys_abi::{ConnId, DescId, Descriptor, VirtAddr};
use plain_process::views::duplicate::Duplicate;
use std::alloc::{AllocError, Global};

/// What an open description stands for.
#[derive(Clone, Copy)]
pub enum Object {
    Console,
    /// A file and the place of the next read or write.
    File { number: u32, offset: u32 },
    /// An end of a channel. Side 0 writes into a pipe.
    Stream { conn: ConnId, side: u8 },
    /// A socket that is not connected, with its address (port 0: unbound).
    Socket { address: VirtAddr },
    Listener { address: VirtAddr },
    /// An end of a datagram pair, with the other end.
    Datagram { peer: DescId },
    /// An event counter (`man 2 eventfd`).
    Counter { value: u64 },
}

/// An open description (`man 2 open`): its object, access mode and status flags, and the owner set by
/// F_SETOWN (0: nobody).
#[derive(Clone, Copy)]
pub struct Description {
    pub object: Object,
    pub flags: u32,
    pub owner: u32,
}

impl Duplicate for Description {
    fn duplicate(&self, alloc: Global) -> Result<Self, AllocError> {
        Ok(*self)
    }
}

impl Description {
    /// Whether its access mode lets it be written to (`man 2 open`).
    pub fn may_write(&self) -> bool
        ensures { result ≡ words.may_write self.now.flags }
    {
        self.flags % 4 == 1 || self.flags % 4 == 2
    }
}

/// Whether some descriptor refers to the description.
#[tactic(auto, unfolding(crate::specs::Tables::is_held))]
pub fn is_held(descriptors: &BySlot<Descriptor>, description: DescId) -> bool
    ensures { result ≡ words.is_held descriptors.now description }
{
    descriptors
        .values()
        .any(|descriptor| description.cmp(&descriptor.desc).is_eq())
}
