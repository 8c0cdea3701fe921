//! The threads of a process by their numbers: registers, signal mask, the word that an end clears, and the
//! contexts that its handlers interrupted; and who waits on the process's words.
//!
//! To a caller `Threads` is a finite map of threads and the number of further ones for which there is room.
//! They stand in rows in rising order of their numbers, each with room for 64 saved contexts, so that a
//! change, an end and a thread more take no memory: `reserve` takes it before. `Waiters` is a list in waking
//! order.
//!
//! Proved: each change is one of the map, exactly, and what is not there stays so; the next thread is the one
//! of the least number above; an image lists the threads, and lists of an image make them; a handler is
//! entered as the machine says. Nothing but `reserve`, `twin`, `images`, `of_images`, `Waiters::to_list` and
//! its `push` answers want of memory.
#![tactic(auto)]

mod contexts;
mod entering;
mod images;
mod rows;
pub mod threads;
mod twins;
pub mod waiters;

pub use threads::Threads;
pub use waiters::Waiters;
