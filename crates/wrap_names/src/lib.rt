//! What a guest's call names in the kernel over real numbers, and what it is for a system to stand for a
//! kernel part between two calls; addresses and ports behind virtual numbers, with the calls in which that
//! kernel has no part: bind, getsockname and getpeername (`man 2` of each).
//!
//! [`stood::Stood`] is the kernel part of the plain machine for which a system stands: a value that takes no
//! memory and that only clauses read. The look-ups tell, by the pairs and the table of channels, the real
//! process and thread that call, the process of the caller's host that has a number, whether a descriptor
//! leads to a pipe, and the numbers for what a process makes.
//!
//! A socket's address is virtual: it stands in the table of channels, where a bind changes it. Which ports of
//! a host are used is told by that table alone, and not by the ports at which nodes listen.
//!
//! Proved: each look-up is its word on every kernel part for which the system stands. After one of the calls
//! the system stands for the kernel part that the plain row leaves, and the answer and the bytes are the
//! row's; after want of memory it stands for the kernel part of before.
#![tactic(auto)]

mod binding;
pub mod counting;
pub mod look_ups;
pub mod names;
pub mod naming;
pub mod numbers;
pub mod ports;
pub mod serving;
pub mod stood;

pub use host_streams::{clone, exit_thread, is_wait4_ready, leave};
