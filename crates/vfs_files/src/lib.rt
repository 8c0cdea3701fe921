//! The files that all hosts share: bytes under numbers, and names for numbers.
//!
//! To a caller a [`Files`] is a map from names to file numbers, a map from numbers to bytes, and the number
//! that the next new file gets. A file may lose its name and stay, as it does on Unix while a descriptor
//! refers to it; it goes when [`Files::forget`] says so. A file is made by [`Files::open_file`], and put back
//! under its old number by [`Files::restore`].
//!
//! Proved: each call does to the maps what its clause says and leaves the rest as it was; each refusal comes
//! exactly where its clause says, in the order of [`FileFault`]; want of memory changes nothing. A name's
//! file is there, no file has two names, all files together have at most 67,108,864 bytes and there are at
//! most 1,024 of them; `whole` tells these. Not proved: how long a call takes; a write needs no walk over the
//! other files to know their bytes. The calls are modelled on POSIX (`man 2 open`, `pread`, `pwrite`,
//! `ftruncate`, `unlink`); the limits are this project's own.
#![tactic(auto)]

mod file_bytes;
mod file_fault;
mod files;
pub mod limits;
mod names;
mod store;

pub use file_fault::FileFault;
pub use files::Files;
