//! What a read and a write do to what a description stands for, on plain data: a file, an end of a channel,
//! an end of a datagram pair, a counter.
//!
//! Proved: each read and each write is the one of its object, and changes nothing unless it gives; whether it
//! has an answer yet is told beforehand, of a write from the first 16 bytes that it is given. After want of
//! memory the kernel part may be any. The rows of read and write, which choose by the object, are
//! `plain_streams`'s.
#![tactic(auto)]

mod bytes;
pub mod counters;
pub mod datagrams;
pub mod files;
pub mod moving;
pub mod streams;
