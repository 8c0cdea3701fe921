//! Inputs, sinks and a folder in memory for worked runs, and how what the top call leaves is printed.
//!
//! A `Bench` makes calls of the top in its folder, `sweeps` makes many of them, with faults and
//! crashes, `Chain` joins what a launch and its restarts did, and `printing` prints what a call
//! left. Nothing is proved here but that it is safe and ends.
#![tactic(auto)]

pub mod bench;
pub mod chain;
pub mod folder;
pub mod outcome;
pub mod printing;
pub mod setting;
mod sweep;
pub mod sweeps;

pub use bench::Bench;
pub use outcome::Outcome;
