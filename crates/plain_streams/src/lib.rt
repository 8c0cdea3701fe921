//! The calls that read and write, and those that make pipes, pairs and counters, which a kernel part serves,
//! on plain data: a function a row, which changes the kernel part in place. What a read and a write do to
//! each object is `plain_transfers`'s.
//!
//! Proved: each function's answer is the row of its call, and it changes nothing unless it gives; whether a
//! read or a write waits is told from the first 16 bytes that it is given. After want of memory the kernel
//! part may be any: who must keep it serves a copy.
#![tactic(auto)]

pub mod channels;
pub mod counters;
mod made;
pub mod read;
pub mod write;
