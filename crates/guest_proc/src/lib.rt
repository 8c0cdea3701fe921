//! A process's own part, made to run: memory, break, threads, handlers and waiters behind one type, `Guest`.
//!
//! To a caller a `Guest` is its virtual number, a user part of the plain machine, and the number of threads
//! for which it has room. Each call is the plain machine's word of its name: `load` gives the start of a
//! program, `run` the part after so many instructions of a thread and where the thread then stands, `look`
//! that place alone, `lend` the bytes that a call reads or a fault, `front` the first of them, `answer` the
//! part after a call's answer, which an exit and a clone of a thread may give, `local` that after a call
//! which the process answers alone, `deliver` that after a signal, which `foresee` tells, `fork_guest` and
//! then `settle` the part of a fork's child, made before its number is known, `image` all of it as lists in
//! order, and `of_image` the part that such lists stand for.
//!
//! Threads stand in rows by their numbers, each with room for 64 saved contexts, so that an answer, a wake,
//! an end, a delivery and a thread more take no memory: `reserve_thread` takes it before.
//!
//! Proved: each of these, exactly, for every program and every memory; none of them but `load`, `fork_guest`,
//! `image`, `of_image`, `local` and `reserve_thread` answers want of memory. Not proved, but so written: an
//! image copies each page once and `of_image` none, and the loop of `run` allocates nothing and looks nothing
//! up. Not claimed: anything of time.
#![tactic(auto)]

mod answer;
mod clones;
mod deliver;
mod forks;
pub mod guest;
mod local;
mod look;
pub mod ran;
mod runs;
mod thread_end;

pub use guest::Guest;
pub use ran::Ran;
pub use thread_group::process_memory::LendFault;
