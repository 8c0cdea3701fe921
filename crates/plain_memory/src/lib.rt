//! Memory, registers and pages of a process on plain data, read and changed byte by byte, and the calls that
//! map pages.
//!
//! Each function computes the definition of its name in `plain_process`, in place where that changes a value.
//! It goes as the definition goes, a byte at a time, and shares no page index with the memory in which guests
//! run.
//!
//! Proved: each function is its definition, for every memory; a store or a call that is refused changes
//! nothing.
#![tactic(auto)]

pub mod lending;
pub mod local_answer;
pub mod local_memory;
pub mod memory;
pub mod pages;
pub mod registers;
