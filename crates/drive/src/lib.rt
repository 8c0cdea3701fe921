//! The driver with one thread: it runs the processes of a system to their end, with checkpoints.
//!
//! To a caller a system over real numbers is the kernel part for which it stands, and it and the guests of
//! its live processes are a plain state. [`drive`] makes record after record from that state, in the order of
//! the rounds, and the checkpoints that the records of work ask for, and hands the system back. The program's
//! top call makes its runs by it.
//!
//! Proved, for any number of processes, all sinks and folders: what [`Start::run`] promises of a run, from
//! that state; the system comes back, and stands for the kernel part at the end of the run, however that
//! ended. It always returns. Not claimed: that memory is there.
//!
//! # The run of a computation
//!
//! One thread of the host runs it to its end: record after record in the order of the rounds, and the
//! checkpoints that the records of work ask for. A [`Start`] is a computation with what makes its
//! checkpoints, and [`Start::run`] runs it until nobody lives, nobody can go on, or the trace is full.
//! Proved, for any number of processes, all sinks and folders: the trace is a run of the plain machine from
//! the state of the start, in the order of the rounds, with the marks of each checkpoint in place; how it
//! ended is told as it is, and nobody can go on where it says so; the console took what the run writes and
//! the log its lines, where neither failed; where one did, or memory was wanted, nothing is missing but a
//! part of what belongs to the last record; the computation that is left stands for the state at the end of
//! the run, or, where a sink failed, for that state's kernel part; a crash at any moment leaves the set
//! that counted before, or one of a cut of this run. Not claimed: that memory is there.
//!
//! # The rounds
//!
//! In rounds one thread of the host runs all threads of a computation: whose turn is next, and one record
//! of that turn. A [`Rounds`] tells how far a round has come. `choose` tells what is due at the state of
//! now, passing over who has ended or can do nothing, and `take` makes the record that was chosen. Between
//! the two nothing may happen; between a record and the next choice a checkpoint may. Proved: what is
//! chosen is what the definitions of the rounds say is due, nothing exactly where nobody lives or can go on
//! and no byte is missing, and the record that is made is due and a step. A round takes no memory but what
//! the calls of its threads take.
#![tactic(auto)]

mod driving;
pub mod loop_end;
pub mod queue;
pub mod rounds;
pub mod run;
mod run_status;
pub mod start;

pub use checkpointer::{Checkpointer, Computation, Stop, Wrapped, restored};
pub use driving::drive;
pub use rounds::{Chosen, Made, Rounds};
pub use run_status::{RunEnd, RunStatus};
pub use start::Start;
