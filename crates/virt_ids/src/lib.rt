//! Pairs of virtual and real numbers.
//!
//! A guest keeps its virtual process and thread numbers and its virtual addresses over a restart, while the
//! nodes hand out new real ones. [`Ids`] holds which is paired with which, and is asked on either side.
//!
//! A contract sees an `Ids` as four finite maps: from virtual numbers and from virtual addresses to the real
//! ones, and the two that lead back. `add_pid` and `add_addr` refuse exactly where either side is in a pair
//! already, and a look-up exactly where there is no pair.
//!
//! Proved: all of that, that each way leads back (`whole` tells it), and that after any refusal all is as
//! before. To take a pair out needs no memory, and neither does a look-up: neither has an answer for want of
//! it. Not proved: how long a call takes; a look-up goes down a tree. Nothing here restates a standard.
//!
//! # Maps by real numbers
//!
//! These ordered maps have keys that nodes hand out: numbers of processes, and ports. Proved: a map is, to
//! a contract, the finite map in the order of its keys, and each call does to it what the word of its name
//! says; after an insert that wanted memory it is as before. One struct a key, since a contract's view
//! can't be of the order of a parameter.
#![tactic(auto)]

pub mod by_real_address;
pub mod by_real_pid;
pub mod id_fault;
pub mod ids;

pub use by_real_address::ByRealAddress;
pub use by_real_pid::ByRealPid;
pub use id_fault::IdFault;
pub use id_maps::{ByConn, sys_abi};
pub use ids::Ids;
