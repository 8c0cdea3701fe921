//! The processes of all nodes by their real numbers: threads, parents, pending signals, and the statuses of
//! those that have ended and were not waited for.
//!
//! To a caller a [`Procs`] is a map from real numbers to processes, and for each node the number that it
//! hands out next. A node's numbers rise, and none is handed out twice: not to processes, and not to threads.
//! What a wait would find is asked for without waiting by `look`.
//!
//! Proved: each call does to the map what its clause says and leaves the rest as it was; `NoProcess`,
//! `NoChild`, `NotReady` and `Full` come exactly where their clauses say; want of memory changes nothing, and
//! every number in the map is below its node's next one, as `whole` tells. A wait for any child finds the
//! least one that has ended. Not proved: how long a call takes. The rules of an end and of waiting are those
//! of `man 2 exit`, `man 2 wait4` and `man 7 signal`, as far as this project has them; the limits are its
//! own.
#![tactic(auto)]

mod ends;
pub mod limits;
mod proc_fault;
mod process;
mod procs;
pub mod waiting;

pub use proc_fault::ProcFault;
pub use process::Process;
pub use procs::Procs;
pub use virt_ids;
pub use virt_ids::sys_abi::Life;
pub use waiting::Waiting;
