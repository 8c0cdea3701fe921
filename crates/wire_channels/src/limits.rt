//! How much the network holds.

/// The most channels.
pub const CHANNEL_LIMIT: usize = 256;

/// The most bytes in the three queues of a direction together, and the room of the ring that holds them.
pub const QUEUE_LIMIT: usize = 65_536;

/// How many ports a node has.
pub const PORT_COUNT: u32 = 65_536;

/// The greatest number at which the ports of a node may begin.
pub const PORT_BASE_LIMIT: u32 = 57_344;

/// The most nodes.
pub const NODE_LIMIT: u32 = 16;

/// The side that accepts a connection; the one that connects is side 0.
pub const ACCEPTING_SIDE: u8 = 1;
