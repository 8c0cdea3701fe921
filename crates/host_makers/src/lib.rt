//! The calls that make descriptions over real numbers, a function a row: eventfd2, socket, pipe2 and
//! socketpair.
//!
//! Proved: by all pairs and every kernel part for which the kernel stood, a row's answer, its bytes and the
//! kernel after it are those of the plain row, where the new things have the numbers that the caller names,
//! which are nobody's. After an error and after want of memory all is as before.
#![tactic(auto)]

mod channels;
mod counters;
mod datagrams;
mod options;
mod pairs;
mod pipes;
mod placing;
mod sockets;

pub use counters::eventfd2;
pub use pairs::socketpair;
pub use pipes::pipe2;
pub use sockets::socket;
