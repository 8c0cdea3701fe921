//! The plain machine: what a run of the computation is, with no node, real number, ring, agent, image, disk
//! or thread of the host. Every promise of the crates above is said in its words.
//!
//! A plain state has a kernel part and, for each live process, a user part. A record is one event; `step`
//! says which state follows, `run` folds it over a trace, and `console` collects what was written. `specs/`
//! has these definitions, a file a notion, each with the manual page of Linux that it is modelled on, a row
//! of a call in the file of its family in `specs/Rows/`; those that speak of a process's part alone are
//! `plain_process`'s.
//!
//! Proved: each look-up and each change of a kernel part is the word of its name, the end of a process with
//! all that goes with it. `kernel_laws` has what each word keeps of a valid kernel part. `run_laws` has the
//! laws of runs: a start is valid, each step keeps valid, a process's part stays fit over its steps and its
//! calls' answers, each call that a valid state serves leaves and answers what one law says, the first 16
//! bytes that a call reads tell whether it waits, a record of one process leaves every other process's part,
//! a process begins by a fork alone and ends by its own records alone, and a run and its console take one
//! more record at a trace's end. Not claimed: that any hardware or kernel behaves so.
#![tactic(auto)]

pub mod closing;
pub mod descriptors;
pub mod end;
pub mod file_laws;
pub mod forks;
pub mod kernel;
pub mod laws;
pub mod look_ups;
pub mod new_end;
pub mod pending;
pub mod plain;
pub mod start;
pub mod stream_laws;
pub mod threads;
pub mod waiting;

pub use kernel::PlainKernel;
pub use laws::{kernel_laws, run_laws};
pub use plain::Plain;
pub use plain_tables;
pub use plain_tables::sys_abi::Life;
pub use plain_tables::{Answer, Attempt, NOBODY, RowResult, Waiting};
pub use start::FIRST_PID;
