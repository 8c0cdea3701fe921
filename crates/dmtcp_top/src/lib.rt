//! The top call of the checkpointer: [`dmtcp`] does what the words of a command line ask for.
//!
//! `launch 0:NAME 1:NAME ..` runs the programs in the files of these names, ELF executables for RV32IM, each
//! in a process of its own on a host, beside the files that `--file` names; `restart` goes on from the set
//! that counts in the folder of sets. Each ends when nobody lives, nobody can go on, or the trace is full.
//! With `--every K` a set of the whole state goes to the folder after every K records of work. The words are
//! read by `job_words`, and `IsBuilt` in `specs/Jobs.antt` says which of its jobs are built.
//! `JobInputs.antt` of `launch_start` says what a launch reads and is refused for, `specs/Ends.antt` in one
//! line for each status what holds of the trace, the console and the log, and `specs/Promise.antt` what a
//! crash at any moment leaves of the folder. No clause of [`dmtcp`] speaks of the nodes on which the hosts
//! are. The run itself is `drive`'s.
//!
//! The contract of [`dmtcp`] says all of that for every word list, all inputs, sinks and folders, also where
//! these fail; what it says of files, sets, the console and the log it says of those that tell their content.
//! It says which status comes where nothing outside fails, and that an answer of a failure outside comes only
//! where there was one. It does not say that memory is there, nor what a file, a stream or a folder of the
//! host holds. The words, the texts, the numbers of the statuses and the order of the rounds are this
//! project's own and restate no standard.
#![tactic(auto)]

mod carry_out;
mod help;
mod hosts;
mod job;
pub mod laws;
mod loading;
pub mod ring;
mod settings;
mod start;
pub mod top_call;

pub use endings::Status;
pub use help::FORMS;
pub use top_call::{dmtcp, run_words};
