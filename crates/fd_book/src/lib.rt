//! The descriptors of all processes, and the open descriptions that they refer to.
//!
//! A [`Book`] holds for each real process a table of up to 256 descriptors, each of which refers to an open
//! description (`man 2 open`) that other descriptors, also of other processes, may share. A description
//! without a descriptor is gone, and the call that takes its last one tells its name.
//!
//! A contract sees a `Book` as two finite maps, whole after every call: descriptions by their names, and
//! descriptors by process and number. New descriptors take the lowest free number. Each refusal comes exactly
//! where its call says, and leaves all as it was. The two tables stand in `fd_tables`, each by itself.
//!
//! Proved: all of that. To look up, to close and to change a description or a flag takes no memory: none of
//! these calls has an answer for want of it. Not proved: how long a call takes; a look-up goes down a tree to
//! the process's table and is an index there, and that of a description goes down a tree to its place in a
//! slab. `man 2 dup`, `man 2 close` and `man 2 fcntl` are the standards that the words restate.
#![tactic(auto)]

pub mod book;
pub mod book_fault;
mod closing;
mod placing;
mod readers;

pub use book::Book;
pub use book_fault::BookFault;
pub use fd_tables::{Desc, Object, RealSlot};
