//! Pages by number, each with its rights and 4,096 bytes.
//!
//! - [`FrameTable`]: pages found in two steps of an index, which to a caller are a finite map from numbers to
//!   frames;
//! - [`OpenSpace`]: such a table, one of whose pages may be executed and stands apart for a stretch of
//!   instructions;
//! - [`access`]: rights, and bytes and numbers within a frame;
//! - [`MemFault`]: why an access of a memory is refused (`specs/Refusals.antt`).
//!
//! Proved: each call is the word of its name over that map, and a table with a page apart is the same memory.
//! Not proved, but so written: a look-up goes by two indexes, and takes no memory. Source: the RISC-V
//! unprivileged manual, sections 1.4 and 2.6 (memory, loads and stores).
#![tactic(auto)]

pub mod access;
mod frame_block;
mod frame_table;
pub mod mem_fault;
mod open_space;

pub use frame_table::FrameTable;
pub use mem_fault::MemFault;
pub use open_space::OpenSpace;
