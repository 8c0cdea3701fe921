//! How a call of the checkpointer ends: its status, whose number the program ends with, and the last line of
//! its log.
//!
//! An [`Ending`] holds what its line tells. [`Ending::conclude`] puts the line, and gives the status. Proved:
//! each ending has its status and its line, the log takes the whole line or, where it fails, a first part of
//! it, and the status is then that of a sink's fault. The numbers and the texts are this project's own.
#![tactic(auto)]

pub mod ending;
pub mod status;

pub use ending::Ending;
pub use status::Status;
