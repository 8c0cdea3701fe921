//! Filling the channels of all processes again after a checkpoint: the bytes that were drained of each
//! direction go back to the side that sent them, and that side sends them again.
//!
//! A [`Refill`] owns the notes of the agents, the processes that act for the ends of the channels, and takes
//! no memory. On each direction of a live channel its agent sends a frame, a length and the bytes that were
//! drained of the other direction; behind it, once it has read the whole frame with its own direction's bytes
//! off the other one, it sends these. In a step it goes over the directions that it sends; for each it first
//! reads what has come, and then sends the next piece (the length, the rest of the frame, or its own bytes)
//! as far as there is room.
//!
//! Proved: a refill that begins of what was drained fits the network from which it was drained, and the bytes
//! of each direction are the same, those of its list if it has one. Each step leaves them as they are,
//! wherever they are: with the agent that drained them, in a frame, with the agent that got them back, or
//! sent. It takes bytes only off the front of queues that its agent reads, and adds some only at the back of
//! queues to which its agent sends; which channels there are, what is ended or unread and which ends are open
//! stays, and so do the agents of the notes. A step that moves bytes leaves less to do, any other one changes
//! nothing, and while the refill is not done some agent's step or some move moves bytes. When it is done all
//! bytes of each direction can be read, and, whatever steps and moves were made on the way, in any order,
//! they are those of its list ([`refill_laws`]). Not proved: that the caller makes the steps and the moves.
//! The source is Ansel, Arya, Cooperman, "DMTCP: Transparent Checkpointing for Cluster Computations and the
//! Desktop", 2009 (refill kernel buffers); the frame is this project's own.
#![tactic(auto)]

mod beginning;
mod finishing;
mod laws;
pub mod limits;
mod network;
mod notes;
mod refill;
mod stepping;

pub use laws::refill_laws;
pub use refill::Refill;
pub use wire_net::{AgentEnd, CutRoom, DirBytes, DrainedNet, Stepped};
