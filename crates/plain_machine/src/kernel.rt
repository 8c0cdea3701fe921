ghost use Rattle.std.specs.Prelude.{◌≡◌, IfOk};

use plain_tables::channel::{Channel, Direction, Listening};
use plain_tables::description::Description;
use plain_tables::process::Process;
use plain_tables::sys_abi::{Descriptor, Maker};
use plain_tables::views::duplicate::Duplicate;
use plain_tables::views::list_of::ListOf;
use plain_tables::views::number_map::NumberMap;
use plain_tables::{ByAddress, ByConn, ByDesc, ByDir, ByName, ByPid, BySlot};
use std::alloc::{AllocError, Global};

/// The kernel part of a plain state: what all processes share, as flat maps.
pub struct PlainKernel {
    pub processes: ByPid<Process>,
    pub makers: ByPid<Maker>,
    pub descriptors: BySlot<Descriptor>,
    pub descriptions: ByDesc<Description>,
    /// The number of the file of each name.
    pub names: ByName<u32>,
    /// The bytes of each file.
    pub files: NumberMap<ListOf<u8>>,
    /// The number that the next new file gets.
    pub next_file: u32,
    pub channels: ByConn<Channel>,
    pub directions: ByDir<Direction>,
    pub listeners: ByAddress<Listening>,
    /// The messages that wait at each open end of a datagram pair, oldest first.
    pub inboxes: ByDesc<ListOf<ListOf<u8>>>,
    /// The number that the next new process or thread gets.
    pub next_id: u32,
}

// Written out, so that to other crates it is one call to drop a kernel part.
impl Drop for PlainKernel {
    fn drop(self) {
        let PlainKernel {
            processes: _,
            makers: _,
            descriptors: _,
            descriptions: _,
            names: _,
            files: _,
            next_file: _,
            channels: _,
            directions: _,
            listeners: _,
            inboxes: _,
            next_id: _,
        } = self;
    }
}

impl Duplicate for PlainKernel {
    fn duplicate(&self, alloc: Global) -> Result<Self, AllocError> {
        let (processes, makers, descriptors, descriptions) = self.held(alloc)?;
        let (names, files) = self.stored(alloc)?;
        let (channels, directions, listeners, inboxes) = self.connected(alloc)?;
        Ok(PlainKernel {
            processes,
            makers,
            descriptors,
            descriptions,
            names,
            files,
            next_file: self.next_file,
            channels,
            directions,
            listeners,
            inboxes,
            next_id: self.next_id,
        })
    }
}

impl PlainKernel {
    /// Copies of the processes, their makers, their descriptors and the descriptions.
    fn held(&self, alloc: Global) -> Result<Held, AllocError>
        ensures { IfOk result (λ copy. copy ≡ (self.now.processes, self.now.makers, self.now.descriptors, self.now.descriptions)) }
    {
        Ok((
            self.processes.duplicate(alloc)?,
            self.makers.duplicate(alloc)?,
            self.descriptors.duplicate(alloc)?,
            self.descriptions.duplicate(alloc)?,
        ))
    }

    /// Copies of the names and the files.
    fn stored(&self, alloc: Global) -> Result<Stored, AllocError>
        ensures { IfOk result (λ copy. copy ≡ (self.now.names, self.now.files)) }
    {
        Ok((self.names.duplicate(alloc)?, self.files.duplicate(alloc)?))
    }

    /// Copies of the channels, their directions, the listeners and the inboxes.
    fn connected(&self, alloc: Global) -> Result<Connected, AllocError>
        ensures { IfOk result (λ copy. copy ≡ (self.now.channels, self.now.directions, self.now.listeners, self.now.inboxes)) }
    {
        Ok((
            self.channels.duplicate(alloc)?,
            self.directions.duplicate(alloc)?,
            self.listeners.duplicate(alloc)?,
            self.inboxes.duplicate(alloc)?,
        ))
    }
}

/// What processes hold.
type Held = (
    ByPid<Process>,
    ByPid<Maker>,
    BySlot<Descriptor>,
    ByDesc<Description>,
);

/// What is stored under names.
type Stored = (ByName<u32>, NumberMap<ListOf<u8>>);

/// What connects processes.
type Connected = (
    ByConn<Channel>,
    ByDir<Direction>,
    ByAddress<Listening>,
    ByDesc<ListOf<ListOf<u8>>>,
);
