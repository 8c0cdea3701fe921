//! The whole kernel part for which a system stands, for the images of a checkpoint.
//!
//! A system over real numbers is made up of tables; an image has the kernel part of the plain machine for
//! which they stand. [`kernel_of`] makes it while a stage of a checkpoint holds the system, of the owners and
//! the bytes that the stage keeps, and [`kernel_at`] where none does, and all bytes have arrived. Each call
//! below makes one map of that kernel part: it walks over the real table, and puts what it finds at the
//! virtual number that is paired with the real one. Directions are made from the lists of a drain, and owners
//! come from a map beside the book, where a checkpoint notes them before processes elect leaders by them.
//!
//! Proved: whichever kernel part or map the tables stand for, what is made is that one, with all its bytes
//! arrived, so there is no other. An end of a datagram pair has no image, and a kernel part and descriptions
//! are told where none is one. Nothing of the system is changed. Not proved: that none is made only where
//! memory is wanted, and how long a call takes; for each entry it goes down a tree or two.
#![tactic(auto)]

pub mod channels;
pub mod descriptions;
pub mod descriptors;
pub mod directions;
pub mod files;
pub mod kernel;
pub mod listeners;
pub mod makers;
pub mod processes;
pub mod unheld;

pub use descriptions::seen_descriptions;
pub use descriptors::seen_descriptors;
pub use kernel::kernel_of;
pub use processes::seen_processes;
pub use unheld::kernel_at;
