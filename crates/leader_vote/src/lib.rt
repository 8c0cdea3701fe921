//! What a checkpoint writes down of the tables of a system before it changes them, and what it finds there by
//! their owners once leaders are elected.
//!
//! The owners of all descriptions are kept and put back, since processes elect leaders by them; a list of
//! voters tells which live processes have voted; all directions of channels are listed with how many bytes
//! stand in them, so that room can be taken for these; and for each end of a channel the agent is named that
//! acts for it: the leader of the description that refers to the end, or of the listener at which its
//! connection waits.
//!
//! Proved, of every book, network and table of processes: owners are kept for exactly the descriptions of the
//! book, and voters listed for exactly the live processes that have a virtual number; both directions of each
//! channel are listed, each once; the bytes and the agents are those of each direction that is handed in. Not
//! proved: that no direction of a channel is listed that is not there. Only the calls that make a list take
//! memory. The source is Ansel, Arya, Cooperman, "DMTCP: Transparent Checkpointing for Cluster Computations
//! and the Desktop", 2009 (elect shared file descriptor leaders).
//!
//! # The election
//!
//! It says which process handles a description that several processes share, while a checkpoint is taken.
//! Each process votes by setting itself as the owner of every description that it holds, and the last setter
//! leads, as DMTCP elects by F_SETOWN (`man 2 fcntl`). The owners that guests set are kept elsewhere before
//! an election and put back after it, so that at its start no description has an owner.
//!
//! A contract sees a `Book` of `fd_book`. [`vote`] makes the voter the owner of exactly what it holds and
//! changes nothing else, [`leader`] is the owner, and [`leader_laws`] has the leader law: from a book without
//! owners, after votes alone, in any order and repeated at will, the last voter among a description's holders
//! leads it, there is none exactly where no holder has voted, and once each holder has voted each description
//! that a process holds has exactly one leader, one of its holders, who also acts for the connections that
//! are pending at it, if it is a listener.
//!
//! Proved: all of that; no call takes memory. Not proved: how long a call takes, and that each process votes,
//! which is up to the caller. The source is Ansel, Arya, Cooperman, "DMTCP: Transparent Checkpointing for
//! Cluster Computations and the Desktop", 2009 (elect shared file descriptor leaders).
#![tactic(auto)]

pub mod agents;
pub mod directions;
mod election;
mod laws;
pub mod owners;
pub mod voters;

pub use election::{leader, vote};
pub use laws::leader_laws;
