ghost use Rattle.std.specs.Prelude.{◌≡◌};
ghost use Rattle.fd_tables.specs.Parts as parts;

use sys_abi::{ConnId, RealAddr, RealPid};

/// What an open description stands for.
#[derive(Clone, Copy, Debug, PartialEq, Eq)]
pub enum Object {
    Console,
    /// A file and the place of the next read or write.
    File { number: u32, offset: u32 },
    /// An end of a channel. Side 0 writes into a pipe.
    Stream { conn: ConnId, side: u8 },
    /// A socket that is not connected.
    Socket,
    /// A socket that listens at a port of its node.
    Listener { at: RealAddr },
    /// An end of a datagram pair, by the pair's number.
    Datagram { queue: u32, side: u8 },
    /// An event counter (`man 2 eventfd`).
    Counter { value: u64 },
}

impl Object {
    /// Whether it is the file of that number.
    pub fn is_file(&self, number: u32) -> bool
        ensures { result ≡ parts.is_file number self.now }
    {
        match *self {
            Object::File { number: own, .. } => own == number,
            Object::Console | Object::Stream { .. } | Object::Socket => false,
            Object::Listener { .. } | Object::Datagram { .. } | Object::Counter { .. } => false,
        }
    }
}

/// An open description (`man 2 open`): its object, access mode and status flags, and the process that
/// F_SETOWN set as its owner.
#[derive(Clone, Copy, Debug, PartialEq, Eq)]
pub struct Desc {
    pub object: Object,
    pub flags: u32,
    pub owner: Option<RealPid>,
}
