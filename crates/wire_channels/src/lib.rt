//! Channels, each with two directions whose bytes pass three queues in turn, that of the sender, the wire and
//! that of the receiver, and listeners with the connections that wait at them.
//!
//! - [`Lane`]: a direction, to a caller its three byte lists, which hold at most 65,536 bytes together,
//!   whether its sender has ended it, whether its receiver reads no more, and how many bytes it has taken so
//!   far;
//! - [`Channel`]: two of these, and which ends are open;
//! - [`Listener`]: how many connections may wait, and those that do ([`ConnQueue`]), oldest first;
//! - [`send_on`] and its kin: calls on a direction of a map of channels; [`drop_end`] and [`drop_pending`]:
//!   closes of ends, with the last of which a channel goes;
//! - [`limits`]: how much the network holds.
//!
//! Proved: each call does what its clause says and leaves the rest as it was; each refusal comes exactly
//! where its call says, and changes nothing. The queues of a direction are stretches of one ring, whose room is
//! taken when a channel is made: to send, to receive, to look, to end, to close and to move bytes takes no
//! memory. Not proved: how long a call takes, and that a move copies no byte. `man 2 socketpair`,
//! `man 2 listen`, `man 2 accept` and `man 2 shutdown` are what the words restate; the limits and when bytes
//! move are this project's own.
#![tactic(auto)]

mod channel;
mod closing;
mod lane;
pub mod limits;
mod listener;
mod moving;
mod net_fault;
mod place;
mod rings;

pub use channel::Channel;
pub use closing::{drop_end, drop_pending};
pub use lane::Lane;
pub use listener::{ConnQueue, Listener};
pub use moving::{end_on, move_on, receive_on, send_on, stop_reading_on};
pub use net_fault::NetFault;
pub use place::Place;
pub use virt_ids;
pub use virt_ids::ByConn;
