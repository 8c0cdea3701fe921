//! Calls of guests that the kernel answers by one call over real numbers, which pairs and names nothing new.
//!
//! Such a call names real numbers for what its guest names, has the kernel serve it, and tells the answer
//! with the guest's numbers. One that makes a description is counted then, and the pair of a child that was
//! waited for goes. getpid alone is answered without the kernel. Proved: the system then stands for the
//! kernel part that the plain row leaves, and the answer and the bytes are the row's; after want of memory
//! it stands for the kernel part of before.
#![tactic(auto)]

pub mod asking;
pub mod looks;
pub mod requests;
pub mod serving;
pub mod taking;
pub mod telling;

pub use host_kernel::{is_read_ready, is_write_ready};
pub use wrap_names::look_ups::address_of;
pub use wrap_names::naming::{leads_to_pipe, made_by, named, next_desc};
pub use wrap_names::ports::has_port;
pub use wrap_names::serving::{serve_addresses, serves as serves_addresses};
pub use wrap_names::stood::{Change, Stood};
