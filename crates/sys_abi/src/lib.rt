//! The words that the crates of processes, channels and checkpoints share: numbers of processes, threads and
//! descriptors, what a descriptor refers to and where a process makes its channels, the records of a trace,
//! and the buffer that carries a call's bytes. The calls that a guest makes stand in `call_table` above.
//!
//! To a caller: a `Transfer` is a list of at most 65,536 bytes, none of whose calls but its maker answers
//! want of memory.
//!
//! Proved: a `Transfer` and a `Page` are the lists that their clauses say; what the flags of a clone make;
//! sets of signals. Not claimed: that the flags and errors are those of any other system. They are modelled
//! on Linux for RISC-V (`man 2 syscalls`, `man 3 errno`) and are this project's own list.
#![tactic(auto)]

pub mod cloning;
pub mod descriptor;
pub mod errors;
pub mod flags;
pub mod identity;
pub mod life;
pub mod maker;
pub mod page;
pub mod record;
pub mod reply;
pub mod signals;
pub mod transfer;

pub use cloning::{CloneForm, clone_form};
pub use descriptor::Descriptor;
pub use identity::{ConnId, DescId, Dir, Fd, RealAddr, RealPid, Signal, Slot, Tid, VPid, VirtAddr};
pub use life::Life;
pub use maker::Maker;
pub use page::Page;
pub use record::{Cause, Kind, Record};
pub use reply::{Errno, Reply};
pub use transfer::Transfer;
pub use views;
