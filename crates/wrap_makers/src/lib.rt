//! Calls of guests that make sockets, pipes and pairs of sockets (`man 2 socket`, `man 2 pipe`, `man 2
//! socketpair`), over virtual numbers.
//!
//! What such a call makes gets the next numbers of its process. The address of a socket, or the kind of a
//! channel, is put into the table of channels before the kernel serves the call, and goes again where the call
//! makes nothing: so nothing can want memory once the kernel has made it. Proved: the system then stands for
//! the kernel part that the plain row leaves, and the answer and the bytes are the row's; after an error, and
//! after want of memory, it stands for the kernel part of before.
//!
//! # Clone
//!
//! It makes a child, or a thread, whose number is virtual. The new number is paired with the one that the
//! caller's node hands out next, and a child gets its maker, before the kernel is asked, so that the
//! kernel's call is the last one that takes memory; where it fails both are taken out again. Proved: the
//! system then stands for the kernel part that the plain row leaves, with the next number one higher where
//! there is a child or a thread more, and the answer and the bytes are the row's; after an error and after
//! want of memory it stands for the kernel part of before.
#![tactic(auto)]

mod cloning;
mod entries;
mod making;
mod pairing;
pub mod serving;
mod starting;
mod telling;

pub use cloning::{clone, serves};
