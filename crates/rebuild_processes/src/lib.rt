//! A kernel part's processes made again on nodes, with new real numbers: threads, parents, pending signals,
//! and the statuses of those that have ended and were not waited for.
//!
//! To a caller [`rebuilding::rebuild_processes`] makes, from a kernel part and from where the hosts are, a
//! table of processes and the pairs of virtual and real numbers, by which a kernel can stand for it. The
//! processes are started in rising order of their virtual numbers, so that a parent comes before its children
//! and the real numbers of one node keep the order.
//!
//! Proved: each process of the kernel part has a real one, on the node of its host, with its life, parent,
//! threads and pending signals, and there is no other. The real numbers are from the base on, and each node
//! has one left for all that the kernel part may still give out, and 8,320 besides. Not proved: that an error
//! means want of memory alone. A table that is full, or a number that is paired already, would be told so too.
#![tactic(auto)]

mod beginning;
mod ending;
mod filling;
pub mod numbered;
pub mod rebuilding;
mod signals;
mod threads;

pub use numbered::Numbered;
