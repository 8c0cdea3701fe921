//! A system over real numbers made again on nodes, from the kernel part that a launch or a checkpoint set
//! spells.
//!
//! To a caller [`rebuild`] makes, from a kernel part of the plain machine and from where the
//! hosts are, the tables of files, descriptors, processes and channels over real numbers, the pairs of
//! virtual and real numbers and addresses, and the table of channels and sockets: DMTCP's restart, which
//! reopens files, connects sockets again, forks the processes, rearranges their descriptors and refills the
//! kernel's buffers.
//!
//! Proved: what it makes stands for the kernel part, for every valid one in which all bytes have arrived
//! and no description is an end of a datagram pair, on 1 to 16 nodes; each host, with its processes, is on the
//! node that the shift gives it, and each real number and port is from the base on; and each channel with two
//! open sides was published in the directory at the node of its accepting end, and looked up there. The source
//! is Ansel, Arya, Cooperman, "DMTCP: Transparent Checkpointing for Cluster Computations and the Desktop",
//! 2009. Not claimed: that a real kernel restarts so, or that it succeeds wherever there is memory enough.
//!
//! # The network
//!
//! [`rebuild_channels`] makes the listeners, the connections that wait at them, and all other channels, with
//! the pairs of virtual and real addresses. Each listener gets a port that its host's node hands out. Where
//! both sides of a channel are open, the end that accepts is published under the channel's name and the other
//! end looks it up there and connects to it; a channel with one open side is made as a pair, but where it waits
//! at a listener, to which it is connected.
//!
//! Proved: where it answers a network, exactly the kernel part's listeners and channels are there, each
//! listener at a port of its host's node with its backlog and its queue in order, each channel with its
//! bytes, flags and open ends; exactly the listeners' addresses are paired, each way leads back, and no pair
//! of numbers changes. Not proved: that memory is all that can be wanted.
#![tactic(auto)]

mod accepting;
pub mod channels;
mod joining;
mod listeners;
pub mod rebuilding;
mod streams;

pub use channels::rebuild_channels;
pub use rebuilding::rebuild;
