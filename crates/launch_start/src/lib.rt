//! The start of a launch: the files and programs that its words name, read and tested in the order of the
//! words, and put into the state at which the job begins; and the worked ring, a job that is made here and
//! not told by words.
//!
//! [`load`] gives the start of a [`LaunchJob`](job_words::LaunchJob), or how the call ends without one.
//! `specs/JobInputs.antt` says what a launch reads, and in which order it is refused for what.
//!
//! A ring of N processes, one on each of N hosts, connects each to the next by an internet socket, and a
//! counter goes round 100 times, a byte at a call. [`launch_job`] and [`restart_job`] are the two jobs of
//! which `dmtcp ring N` is made: a launch of the ring's programs and a restart from the last set.
//! [`RingInputs`] hold the program, what the processes write to their consoles goes to [`Discard`], and
//! [`summary`] tells in a line what the two runs left in a file.
//!
//! Proved, for all inputs, also where these fail: the start is that of the job that was loaded; the first
//! thing that is wrong with what was read is the one that is told, and an answer that an input failed comes
//! only where one did. The ring's jobs are those of the command lines in `specs/RingJobs.antt`, and its
//! inputs hold the program of `rv_asm` under its name and nothing else; neither they nor the sink ever fails.
//! Not claimed: that memory is there, what an input of the host holds, nor what the ring's program does
//! (`worked_calls` runs rings).
#![tactic(auto)]

mod discard;
mod inputs;
pub mod job_start;
mod jobs;
mod read_inputs;
mod values;

pub use discard::Discard;
pub use inputs::RingInputs;
pub use job_start::load;
pub use jobs::{launch_job, restart_job};
pub use read_inputs::look_at_bytes;
pub use run_start::Start;
pub use values::summary;
