//! What the calls on internet sockets look up on plain data: a descriptor's socket, the next numbers of what
//! a process makes, the ports of a host, and addresses as bytes.
//!
//! Proved: each function is the word of its name. None changes the kernel part.
#![tactic(auto)]

pub mod addresses;
pub mod look_ups;
pub mod ports;
