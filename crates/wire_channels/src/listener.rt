ghost use Rattle.std.specs.Prelude.{◌≡◌, ◌<◌, ◌++◌, [], ◌∷◌, length, drop, slice_get, OnOk, OnErr};
ghost use Rattle.wire_channels.specs.Listeners as words;

use std::alloc::{AllocError, Global};
use std::collections::VecDeque;
use std::marker::Model;
use virt_ids::sys_abi::ConnId;

/// The connections that wait to be accepted, oldest first.
#[derive(Drop)]
pub struct ConnQueue {
    connections: VecDeque<ConnId>,
}

impl Model for ConnQueue {
    ghost use Rattle.std.specs.Prelude.{List};
    ghost use Rattle.virt_ids.specs.OfSysAbi.declared.identity.ConnId.{ConnId};

    ghost Value = { List ConnId };

    ghost view = { λ a. a.connections.items };
}

impl ConnQueue {
    /// Nobody waits, and there is no memory yet.
    pub fn new(alloc: Global) -> ConnQueue
        ensures { result ≡ [] }
    {
        ConnQueue {
            connections: VecDeque::new(alloc),
        }
    }

    pub fn len(&self) -> usize
        ensures { result ≡ length self.now }
    {
        self.connections.len()
    }

    /// The connection at that place, the oldest at 0.
    pub fn get(&self, place: usize) -> Option<ConnId>
        ensures { result ≡ slice_get self.now place }
    {
        self.connections.get(place).copied()
    }

    /// Puts a connection behind the others. After a failed allocation the queue is as before.
    pub fn push_last(&mut self, id: ConnId) -> Result<(), AllocError>
        ensures ok { OnOk result (self.new ≡ self.old ++ id ∷ []) }
        ensures err { OnErr result (self.new ≡ self.old) }
    {
        self.connections.push_back(id)?;
        Ok(())
    }

    /// Takes out the oldest connection.
    pub fn pop_first(&mut self) -> Option<ConnId>
        ensures first { result ≡ slice_get self.old 0 }
        ensures rest { self.new ≡ drop 1 self.old }
    {
        self.connections.pop_front()
    }
}

/// A listener: how many connections may wait at it, and those that do (`man 2 listen`).
#[derive(Drop)]
pub struct Listener {
    pub backlog: u32,
    pub queue: ConnQueue,
}
