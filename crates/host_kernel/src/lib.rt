//! The kernel over real numbers, for all nodes: every call by its row ([`serve`]); and the rows of read and
//! write, and of the messages of datagram pairs.
//!
//! Proved: by all pairs and every kernel part for which the kernel stood, a call's answer, the bytes that it
//! gives and the kernel after it are those of the plain row; after an error but that of a broken pipe, which
//! leaves a signal, where it waits and after want of memory all is as before; and whether a call would wait is
//! told as the plain machine tells it.
#![tactic(auto)]

mod access;
mod giving;
mod messages;
mod reading;
mod serving;
mod writing;

pub use reading::{is_read_ready, read};
pub use serving::serve;
pub use writing::{is_write_ready, write};
