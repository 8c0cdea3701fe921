//! The threads of a process and what they share: what it does on each signal, and who waits on its words.
//!
//! To a caller a `ThreadGroup` is a finite map of threads, the list of actions, the list of waiters, and the
//! number of threads for which it has room; with a memory it makes the user part of the plain machine.
//! `wake`, `finish_call`, `enter`, `add_called`, `add_clone` and `settle` are what calls, signals and clones
//! do to threads; `call_alone` makes a call that a process answers alone, on a memory that it is lent.
//!
//! Proved: each of these is the machine's word of its name, whatever the memory is, and of `call_alone`
//! exactly the call's row. Nothing but `load`, `of_images`, the copies, `twin`, `reserve` and `call_alone`
//! answers want of memory.
#![tactic(auto)]

mod calls;
mod clones;
pub mod group;
mod handlers;
pub mod local_answer;
mod start;
mod waiting;
mod waits;

pub use group::ThreadGroup;
pub use local_answer::LocalAnswer;
pub use process_memory;
