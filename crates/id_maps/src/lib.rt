//! Ordered maps whose keys are the numbers and names by which a kernel knows things: processes, descriptors,
//! descriptions and names of files, and those of `conn_maps`: channels, directions and addresses.
//!
//! Proved: a map is, to a contract, the finite map in the order of its keys, and each call does to it what
//! the word of its name says; after an insert that wanted memory it is as before. One struct a key, since a
//! contract's view can't be of the order of a parameter.
#![tactic(auto)]

pub mod by_desc;
pub mod by_name;
pub mod by_pid;
pub mod by_slot;

pub use by_desc::ByDesc;
pub use by_name::ByName;
pub use by_pid::ByPid;
pub use by_slot::BySlot;
pub use conn_maps::{ByAddress, ByConn, ByDir, sys_abi, views};
