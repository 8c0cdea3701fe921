//! Where the channels of a restarted computation can be reached.
//!
//! When a computation is restarted, the end of a channel that accepts is made anew at an address that its
//! node hands out, and is published here under the channel's name. The other end finds it by that name and
//! connects to it.
//!
//! A contract sees a [`Directory`] as a finite map from channels to [`Publication`]s: the address that was
//! published last, and whether it was looked up since. `find` answers the address, and None exactly where
//! nothing was published under the name; a look-up of such a name leaves no trace.
//!
//! Proved: each call does to the map what its clause says, want of memory changes nothing, look-ups take
//! none; and, for every list of publications and look-ups, that what was published last counts
//! ([`directory_laws`]). Not proved: how long a call takes. The source is the discovery service of DMTCP
//! (Ansel, Arya, Cooperman, "DMTCP: Transparent Checkpointing for Cluster Computations and the Desktop",
//! 2009): restarted ends advertise their address under a globally unique socket ID.
#![tactic(auto)]

pub mod directory;
mod laws;
pub mod publication;

pub use directory::Directory;
pub use laws::directory_laws;
pub use publication::Publication;
