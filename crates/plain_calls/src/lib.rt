//! The calls and signals of a process on plain data.
//!
//! Each function computes the definition of its name in `plain_process`, in place where that changes a value.
//!
//! Proved: `local_row` is a call that the process answers alone, `put` and `put_fault` what an answer
//! changes, `child_of` the part of a child, and `deliver` what a signal comes to; a row that fails, whose
//! error `local_row` then puts, and a delivery that enters no handler change nothing.
#![tactic(auto)]

pub mod delivering;
pub mod forking;
pub mod local;
pub mod local_handlers;
pub mod local_threads;
pub mod putting;
pub mod waking;
