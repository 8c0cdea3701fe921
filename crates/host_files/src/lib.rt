//! The calls on files over real numbers, a function a row, and what reads and writes do to open files.
//!
//! Proved: by all pairs and every kernel part for which the kernel stood, a call's answer and the kernel after
//! it are those of the plain row; after an error and after want of memory all is as before, also where a
//! description was made for a file that then was not opened. To take a name away, to move an offset and to
//! read take no memory.
#![tactic(auto)]

mod bytes;
mod names;
mod offsets;
mod opening;
mod paths;

pub use bytes::{read_file, write_file};
pub use host_descriptors::{Held, close, dup, dup3, fcntl, held_at};
pub use names::unlinkat;
pub use offsets::lseek;
pub use opening::openat;
