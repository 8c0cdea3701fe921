//! The calls on internet sockets that a kernel part serves, on plain data: a function a row, which changes
//! the kernel part in place.
//!
//! Proved: each function's answer is the row of its call, and it changes nothing unless it gives; whether
//! an accept or a connect waits is told from the first 16 bytes that it is given. After want of memory the
//! kernel part may be any: who must keep it serves a copy.
#![tactic(auto)]

mod changes;
pub mod connections;
pub mod sockets;
