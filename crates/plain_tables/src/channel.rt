use id_maps::sys_abi::{ConnId, VirtAddr};
use plain_process::views::duplicate::Duplicate;
use plain_process::views::list_of::ListOf;
use std::alloc::{AllocError, Global};

#[derive(Clone, Copy, PartialEq, Eq)]
pub enum ChannelKind {
    /// A pair of stream ends (`man 2 socketpair`).
    Pair,
    /// A connection between two addresses (`man 7 tcp`).
    Internet,
    /// A pipe (`man 7 pipe`).
    Pipe,
}

/// One side of a channel: its address, where the channel is an internet connection, and whether it is open.
#[derive(Clone, Copy)]
pub struct ChannelEnd {
    pub address: Option<VirtAddr>,
    pub is_open: bool,
}

/// A channel without its bytes: its kind and its sides 0 and 1. Side 0 of an internet connection is the
/// client's.
#[derive(Clone, Copy)]
pub struct Channel {
    pub kind: ChannelKind,
    pub first: ChannelEnd,
    pub second: ChannelEnd,
}

/// A direction of a channel: the bytes sent and not yet read, in order, how many of them can be read now,
/// whether its sender sends no more, and whether its receiver reads no more.
#[derive(Drop)]
pub struct Direction {
    pub left: ListOf<u8>,
    pub arrived: u64,
    pub ended: bool,
    pub unread: bool,
}

/// A listening socket's backlog and the connections that wait to be accepted, oldest first (`man 2 listen`).
#[derive(Drop)]
pub struct Listening {
    pub backlog: u32,
    pub queue: ListOf<ConnId>,
}

impl Duplicate for Channel {
    fn duplicate(&self, alloc: Global) -> Result<Self, AllocError> {
        Ok(*self)
    }
}

impl Duplicate for Direction {
    fn duplicate(&self, alloc: Global) -> Result<Self, AllocError> {
        Ok(Direction {
            left: self.left.duplicate(alloc)?,
            arrived: self.arrived,
            ended: self.ended,
            unread: self.unread,
        })
    }
}

impl Duplicate for Listening {
    fn duplicate(&self, alloc: Global) -> Result<Self, AllocError> {
        Ok(Listening {
            backlog: self.backlog,
            queue: self.queue.duplicate(alloc)?,
        })
    }
}
