//! From where a computation begins: plain values alone, and the system that is made for them on hosts.
//!
//! To a caller a [`Start`] stands for the plain state at which a launch or a restart begins. Proved: `add_file`
//! and `add_program` make the start of a job, and `begin` makes a computation at that state, and
//! `into_system` a system with a list of its guests, for all nodes of its hosts, all shifts and all bases of
//! real numbers and ports. Not claimed: that an allocation succeeds.
#![tactic(auto)]

mod listing;
pub mod start;

pub use computation::{Computation, Did, Guest, Next, Ran, Stop, Wrapped};
pub use start::Start;
