//! The calls on descriptors over real numbers, a function a row.
//!
//! Proved: by all pairs and every kernel part for which the kernel stood, a row's answer and the kernel after
//! it are those of the plain row; after an error and after want of memory all is as before; a close, and a
//! move over a descriptor that is open, tell the description that lost its last descriptor by that, with what
//! it was of.
//!
//! # Closes
//!
//! With the last descriptor of a description go a file that nothing names, an end of a channel, a listener
//! with the connections that wait at it, an end of a datagram pair. Proved: by every pairs and kernel part
//! for which the kernel stood, it stands for the kernel part after the plain close; the description that
//! went is told with what it was of. No call takes memory. What a close makes stale of the pairs and of the
//! table of channels stays there: who keeps these takes it out.
#![tactic(auto)]

mod closing;
mod commands;
mod copies;
mod held;
mod moves;
mod releasing;

pub use closing::{Closed, close_one, finish, object_at};
pub use commands::fcntl;
pub use copies::{close, dup};
pub use held::{Held, held_at};
pub use host_tables::{Attempt, Kernel, KernelReply, RowResult, System};
pub use moves::{Moved, dup3};
pub use releasing::let_go;
