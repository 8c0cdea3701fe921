//! Kernels that serve the calls of processes which have no part of their own, for benchmarks: the plain
//! kernel part, and the kernel over real numbers that stands for one; and checkpoints of the latter by stages.
//!
//! Proved: the kernel over real numbers goes on standing for a whole kernel part in which each live process
//! has its first thread, so that each call of the crates below is one that their contracts allow. Nothing is
//! said here of what a call answers, nor of what a checkpoint leaves: that is proved below.
#![tactic(auto)]

pub mod cut;
pub mod plain;
pub mod real;
pub mod requests;
pub mod serves;
mod standing;

pub use plain::PlainBench;
pub use real::RealBench;
pub use serves::Serves;
