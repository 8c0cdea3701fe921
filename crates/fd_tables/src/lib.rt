//! The two tables under a book of descriptors: the descriptors of all processes, and the open descriptions.
//!
//! - [`Tables`]: for each real process a table of up to 256 descriptors; to a caller a finite map of
//!   descriptors by process and number ([`RealSlot`]), with the lowest number that is free or open;
//! - [`Descriptions`]: the open descriptions (`man 2 open`), to a caller a finite map from their names to
//!   each with the number of descriptors that are counted of it ([`Open`]).
//!
//! Proved: each call does to its map what its clause says; to look one up, to count and to change what is
//! there takes no memory, and after a failed allocation all is as before. That the two fit each other is
//! `fd_book`'s. Not proved: how long a call takes; a look-up goes down a tree to the process's table and is
//! an index there, and that of a description goes down a tree to its place in a slab.
#![tactic(auto)]

pub mod description;
mod descriptions;
mod open;
pub mod real_slot;
mod table;
mod tables;

pub use description::{Desc, Object};
pub use descriptions::Descriptions;
pub use open::Open;
pub use real_slot::RealSlot;
pub use sys_abi;
pub use tables::Tables;
