//! A trace taken step by step on plain data.
//!
//! Proved: `step` is the step of a record; `replay` gives the state of a trace's run, or the number of its
//! first record that is no step; `serve_slowly` is the row of a call, on a copy of the kernel part.
#![tactic(auto)]

pub mod records;
pub mod replaying;
pub mod served;

pub use replaying::{ReplayFault, replay};
pub use served::{Served, serve_slowly};
