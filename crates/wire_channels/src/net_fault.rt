use std::alloc::AllocError;
use thiserror::Error;

/// Why a call on the network was refused.
#[derive(Clone, Copy, Debug, PartialEq, Eq, Error)]
pub enum NetFault {
    /// The call waits: for bytes, for room, for a connection, or for a place in a queue of connections.
    #[error("not ready")]
    NotReady = 1,
    /// Nobody listens there.
    #[error("connection refused")]
    Refused = 2,
    /// Somebody listens at each port of the node.
    #[error("no port is free")]
    PortUsed = 3,
    /// The direction is ended, or unread.
    #[error("the direction has ended")]
    Ended = 4,
    /// There is no such channel.
    #[error("not connected")]
    NotConnected = 5,
    /// As many channels stand as may.
    #[error("too many channels")]
    TooMany = 6,
    #[error("out of memory")]
    Memory = 7,
}

impl From<AllocError> for NetFault {
    ghost use Rattle.std.specs.Prelude.{◌≡◌};
    ghost use Rattle.wire_channels.specs.declared.net_fault.NetFault.TheVariants.{Memory};

    ghost from_gives = { λ _ fault. fault ≡ Memory };

    fn from(_error: AllocError) -> NetFault {
        NetFault::Memory
    }
}
