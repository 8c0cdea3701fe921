//! What a restart on other nodes begins with: which node each host is on, the files of a kernel part, and the
//! table of what its channels and sockets are.
//!
//! Proved: each host has the node that the shift gives it; the files are those of the kernel part, under its
//! names and numbers; the table has an entry for each channel and the address of each socket, and no other.
//!
//! # One channel
//!
//! A channel of a plain kernel part is made again in a network: its bytes, what is ended or unread of it,
//! and which of its ends are closed. To a caller [`fill`] gives a channel that was just made in the network
//! all this of the kernel part's. All bytes stand in the receivers' queues then, so that they can be read
//! at once.
//!
//! Proved: the channel has, in each direction, exactly the bytes of the kernel part's, in order, with the
//! same flags, and the same ends are open; no other channel and no listener changes. It takes no memory and
//! can't fail. `proofs/` has, for the crates above, that a network whose channels are all filled so stands
//! for the kernel part's channels and directions. The source is Ansel, Arya, Cooperman, "DMTCP: Transparent
//! Checkpointing for Cluster Computations and the Desktop", 2009 (refill kernel buffers).
//!
//! # Descriptors and open descriptions
//!
//! At a restart processes have new real numbers, and listeners new ports. [`rebuild_book`] makes, from a
//! kernel part and the pairs of virtual and real numbers and addresses, a book that has each descriptor at
//! the real process that stands for its own, and each open description (`man 2 open`) once, however many
//! descriptors share it, with its object, flags and owner (`man 2 fcntl`, F_SETOWN) over real numbers.
//!
//! Proved: the book has exactly that, for every kernel part of which no description is an end of a datagram
//! pair, whose processes are paired with real numbers and whose listeners with real addresses. Where memory
//! is wanted there is no book. `proofs/Standing.antt` has what follows for a kernel with such a book: its
//! descriptions and inboxes stand for those of the kernel part.
#![tactic(auto)]

pub mod conns;
mod describing;
mod directions;
pub mod files;
mod filling;
pub mod hosts;
mod rebuilding;

pub use filling::fill;
pub use rebuilding::rebuild_book;
