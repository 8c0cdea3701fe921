//! Emptying the channels of all processes for a checkpoint: each byte that was sent and not yet read is taken
//! off the network, so that an image can have it.
//!
//! A [`Drain`] owns the notes of the agents, the processes that act for the ends of the channels, and takes
//! no memory: its room was reserved before. In a step an agent goes over the directions of its ends one by
//! one: of each it reads what has come, if it reads it, and then sends what is left of a cookie behind its
//! own last byte, if it sends on it. It has finished when it has read all that stood in its directions and
//! the other side's cookie, and has sent its own. A channel of which a direction is ended or unread is left
//! as it is, and its bytes only move on to the receiver's queue.
//!
//! Proved: each step leaves the bytes of every direction as they are, wherever they are: read, received, on
//! the wire, sent. It takes bytes only off the front of queues that its agent reads, and adds some only at
//! the back of queues to which its agent sends; which channels there are, what is ended or unread and which
//! ends are open stays, and so do the agents of the notes. A step that moves bytes leaves less to do, any
//! other one changes nothing, and while the drain is not done some agent's step or some move moves bytes. At
//! the end the queues of live channels are empty, in others all bytes can be read, and, whatever steps and
//! moves were made on the way, in any order, each direction has a list, of what stood in it when the drain
//! began ([`drain_laws`]); lists and room are then as a refill asks. Not proved: that the caller makes the
//! steps and the moves. The source is Ansel, Arya, Cooperman, "DMTCP: Transparent Checkpointing for Cluster
//! Computations and the Desktop", 2009 (drain kernel buffers); that the number of bytes is known when the
//! drain begins, and what a cookie has, is this project's own.
#![tactic(auto)]

mod cookie;
mod drain;
mod finishing;
mod handing;
mod laws;
pub mod limits;
mod notes;
mod opening;
mod stepping;

pub use drain::Drain;
pub use laws::drain_laws;
pub use wire_net::{AgentEnd, CutRoom, DirBytes, DrainedNet, Stepped};
