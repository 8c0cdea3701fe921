//! The calls that a kernel part serves, on plain data: the dispatch over the functions of the rows, each of
//! which changes the kernel part in place, and those rows that stand in no family.
//!
//! Proved: `serve` is the row of its call, settled: an error is an answer that changes nothing, but for the
//! signal that EPIPE may leave, and where the call waits nothing changes either; an answer has no more
//! bytes than a call moves; `is_ready` tells from the first 16 bytes that a call reads whether it waits.
//! After want of memory the kernel part may be any: who must keep it serves a copy.
#![tactic(auto)]

mod numbers;
mod send;
pub mod serving;

pub use serving::{is_ready, serve};
