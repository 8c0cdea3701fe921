//! The shared image of a checkpoint set, read.
//!
//! [`read_shared`] gives the value that the bytes spell, or the first byte of the first field whose value is
//! not allowed after the fields before it; where the file ends too early, or lacks something as a whole,
//! that is its length; where bytes follow the value, it is the first of them.
//!
//! Proved: all of that, for all bytes. Not proved, but so written: a reader takes no more memory than the
//! bytes that are there account for, and what an item names is found by halving a list that rises, or looked
//! up in a map.
#![tactic(auto)]

mod holders;
mod process_tests;
mod processes;
pub mod reader;
mod whole;

pub use reader::read_shared;
