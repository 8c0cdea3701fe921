//! The calls on processes over real numbers, a function a row.
//!
//! Proved: by all pairs and every kernel part for which the kernel stood, a row's answer and the kernel after
//! it are those of the plain row; after an error, and where a call waits, all is as before. No call but clone
//! takes memory.
//!
//! # Clone
//!
//! It makes a child or a thread of the caller's node, with the node's next number.
//!
//! Proved: by all pairs and every kernel part for which the kernel stood, the answer is that of the plain
//! row, and the kernel then stands for the kernel part after it by the pairs with one more, the new number
//! and the plain machine's. A child has its parent's descriptors and no other. After an error, and after want
//! of memory, all is as before: what a child got of descriptors is taken back one by one.
//!
//! # The end of a process
//!
//! At the end of a process over real numbers its descriptors close, the lowest first; what it owned has no
//! owner, its children have no parent and its zombies go; then it is a zombie, of which its live parent hears,
//! or it is gone. And exit and exit_group (`man 2 exit`, `man 2 exit_group`).
//!
//! Proved: by every pairs and kernel part for which the kernel stood, it stands for the kernel part after each
//! close, after the process has left, and after the whole end; the rows answer as the plain ones. No call
//! takes memory. What an end makes stale of the pairs and of the table of channels stays there: who keeps
//! these takes it out, after each close (`close_lowest`) and after the process has left (`leave`).
#![tactic(auto)]

mod cloning;
mod ending;
mod exits;
mod forking;
mod numbers;
mod process_ends;
mod sending;
mod waiting;

pub use cloning::clone;
pub use ending::exit_thread;
pub use exits::{exit, exit_group};
pub use host_descriptors::{Attempt, Held, Kernel, KernelReply, RowResult, System, held_at};
pub use numbers::{getpid, getppid};
pub use process_ends::{close_lowest, end_process, leave};
pub use sending::{kill, tgkill};
pub use waiting::{is_wait4_ready, wait4};
