//! The calls by which processes meet at a port of a virtual host: listen, accept and connect.
//!
//! A guest names hosts and ports of its own, which stay over a restart, and the nodes hand out real ports.
//! A socket that listens gets the pair of its address and of the real port, one that connects the entry of
//! its channel with both addresses, and an accept tells the address of the client. Proved: the system then
//! stands for the kernel part that the plain row leaves, and the answer and the bytes are the row's; where a
//! call fails or waits, and after want of memory, it stands for the kernel part of before.
#![tactic(auto)]

pub mod accepting;
mod callers;
pub mod connecting;
pub mod listening;
mod listing;
mod replies;
pub mod serving;
mod targets;

pub use host_sockets::{is_accept_ready, is_connect_ready};
