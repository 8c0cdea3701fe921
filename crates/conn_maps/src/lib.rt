//! Ordered maps whose keys are the numbers by which a kernel knows what goes between processes: channels,
//! their directions and addresses. `id_maps` hands them on beside its own.
//!
//! Proved: a map is, to a contract, the finite map in the order of its keys, and each call does to it what
//! the word of its name says; after an insert that wanted memory it is as before. One struct a key, since a
//! contract's view can't be of the order of a parameter.
#![tactic(auto)]

pub mod by_address;
pub mod by_conn;
pub mod by_dir;

pub use by_address::ByAddress;
pub use by_conn::ByConn;
pub use by_dir::ByDir;
pub use sys_abi;
pub use sys_abi::views;
