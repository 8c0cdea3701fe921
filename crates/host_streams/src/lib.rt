//! Bytes through channels, the values of event counters, and the ends of channels that are shut, over real
//! numbers.
//!
//! Proved: by all pairs and every kernel part for which the kernel stood, a read or a write of a channel or a
//! counter, a broken pipe, and the rows of shutdown and setsockopt answer what the plain words answer, and
//! leave the kernel to stand for what these leave; whether a read or a write has an answer yet is told
//! beforehand. After an error all is as before, but for the signal that goes with a broken pipe. No call
//! takes memory.
#![tactic(auto)]

mod broken;
mod counters;
mod lanes;
mod reading;
mod shutting;
mod sockets;
mod writing;

pub use broken::broken_pipe;
pub use counters::{read_counter, write_counter};
pub use host_processes::{
    Held, KernelReply, System, clone, exit, exit_group, exit_thread, getpid, getppid, held_at,
    is_wait4_ready, kill, leave, tgkill, wait4,
};
pub use plain_transfers::counters::{is_counted, takes_more};
pub use reading::{is_receivable, read_stream};
pub use shutting::{setsockopt, shutdown};
pub use writing::{is_sendable, write_stream};
