//! The end of a guest's process or thread, and what the pairs and the table of channels lose by it: what its
//! descriptors stood for, the numbers of its threads and of its zombies, and its own where nobody waits.
//!
//! Proved: the system then stands for the kernel part after the plain end, and the rows answer as the plain
//! ones. No call takes memory.
//!
//! # Closes
//!
//! Guests' calls close descriptors, and with the last one of a description the pairs and the table of
//! channels lose its name, its end of a channel, the address at which it listened and the ends of the
//! connections that waited there. Proved: the system then stands for the kernel part that the plain row
//! leaves, and the answer is the row's; after want of memory, which only a dup3 can have, it stands for the
//! kernel part of before. A close takes no memory. The close of one descriptor is told alone too
//! ([`close_at`]), for those who close several.
#![tactic(auto)]

mod close_calls;
mod close_serving;
mod closing;
mod ending;
mod forgetting;
mod reaping;
mod serving;
mod threads;

pub use close_calls::close_at;
pub use close_serving::{serve_closing, serves as serves_closing};
pub use ending::end_process;
pub use serving::{serve_exit, serves};
pub use wrap_names::is_wait4_ready;
