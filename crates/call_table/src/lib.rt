//! The calls that a guest makes, and what is told of a thread when a signal is to be delivered to it.
//!
//! To a caller: `request_of` reads a call off the registers and is total, `is_local` tells which calls a
//! process answers alone.
//!
//! Proved: `request_of` and `is_local` are the tables of `specs/Requests.antt`. Not claimed: that the call
//! numbers are those of any other system. They are modelled on Linux for RISC-V (`man 2 syscalls`,
//! `asm-generic/unistd.h`) and are this project's own list.
#![tactic(auto)]

pub mod calls;
pub mod delivery;
pub mod request;

pub use delivery::{At, Delivered, Delivering, Given, IdleThread};
pub use request::{Request, is_local, request_of};
pub use sys_abi;
