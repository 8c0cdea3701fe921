//! Checkpoints of a computation: when they are asked for, what they put on the trace, the log and the folder
//! of sets, and the computation that a set stands for.
//!
//! A [`Checkpointer`] is told of each record of work, and serves the request that it may have made. It has
//! all bytes arrive that are missing, holds the computation with its channels drained (`staged_cut`), puts
//! the cut and the marks of what was drained on the trace, writes the files of [`images`] as a set, puts the
//! marks of what is refilled and the outcome on the trace and the outcome's line on the log, and lets the
//! computation go on; or the request lapses, where nobody lives, or is refused. [`restored`] is the way back.
//!
//! Proved, for every computation of any number of processes, all sinks and folders, also where these fail:
//! the trace goes on being a run of the plain machine in the order of the rounds, requests are answered as
//! far as it has room, a crash at any moment leaves the set that counted before, if one did, or one that
//! spells the run's state at its cut, and the files of a set spell the plain state for which the computation
//! stands. Not claimed: that an allocation succeeds.
#![tactic(auto)]

pub mod checkpointer;
mod cut;
pub mod marks;
pub mod restoring;
pub mod set_files;
pub mod unsupported;

pub use checkpointer::Checkpointer;
pub use restoring::restored;
pub use set_files::images;
pub use staged_cut::{Computation, Did, Guest, Next, Ran, Stop, Wrapped};
pub use unsupported::{Unsupported, first_unsupported};
