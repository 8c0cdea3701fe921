//! The network between all nodes: listeners with the connections that wait to be accepted, and channels, each
//! with two directions whose bytes pass three queues in turn, that of the sender, the wire and that of the
//! receiver.
//!
//! To a caller a [`Net`] is a finite map of listeners by their ports and a finite map of channels by their
//! names. A direction of a channel is its three byte lists, which hold at most 65,536 bytes together, whether
//! its sender has ended it, whether its receiver reads no more, and how many bytes it has taken so far. A
//! channel knows which of its ends are open, and goes with the last one. A [`CutRoom`] is all room that a
//! checkpoint's agents need to empty the queues and to fill them again; `whereabouts` says where the bytes of
//! a direction are meanwhile. Channels and listeners, each alone, stand in `wire_channels`.
//!
//! Proved: each call does to the maps what its clause says and leaves the rest as it was; each refusal comes
//! exactly where its call says, and changes nothing; bytes come out of a direction as they went in, and a
//! move from queue to queue changes the whereabouts of none ([`net_laws`]) and leaves which channels there
//! are, what is ended or unread and which ends are open. The queues of a direction are stretches of one ring,
//! whose room is taken by `pair` and `connect`: to send, to receive, to look, to end, to close and to move
//! bytes takes no memory. Not proved: how long a call takes. `man 2 socketpair`, `man 2 listen`,
//! `man 2 connect`, `man 2 accept` and `man 2 shutdown` are what the words restate; the limits, the ports and
//! when bytes move are this project's own.
#![tactic(auto)]

mod agents;
mod connecting;
mod cut_room;
mod laws;
mod listening;
mod net;
mod readers;
mod room;

pub use agents::{AgentEnd, Stepped, agent_of, is_agent};
pub use cut_room::{CutRoom, DirBytes, DirNotes, DrainedNet, RoomParts};
pub use laws::net_laws;
pub use net::Net;
pub use room::Room;
pub use wire_channels::{Channel, ConnQueue, Lane, Listener, NetFault, Place, limits};
