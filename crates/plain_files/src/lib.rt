//! The calls that a kernel part serves on descriptors and files, and those that make, await and end processes
//! and threads, on plain data: a function a row, which changes the kernel part in place.
//!
//! Proved: each function's answer is the row of its call, and it changes nothing unless it gives. After want
//! of memory the kernel part may be any: who must keep it serves a copy. Closing a descriptor and taking a
//! name away take no memory.
#![tactic(auto)]

pub mod clone;
pub mod descriptors;
pub mod end;
pub mod files;
pub mod wait;
