//! A process's memory: the pages with their rights, and the break.
//!
//! To a caller a `ProcessMemory` is the finite map of its pages and where its break starts and stands. `load`
//! makes that of a program's start, `of_images` that of an image's pages, `page_images` copies them. `run`
//! does instructions on it, `lend` and `front` read what a call reads, `fill` writes what its answer gives,
//! and `brk`, `munmap` and `mmap` are the calls of these names.
//!
//! Proved: each of these, exactly, for every memory: what is read, or that the call faults; what is written;
//! and each of the three calls is its row, whatever else the process is. Nothing but `load`, `of_images`,
//! `page_images`, `try_clone`, `brk` and `mmap` answers want of memory. Not proved, but so written:
//! `page_images` copies each page once, and `of_images` none.
#![tactic(auto)]

mod access;
pub mod buffers;
mod front;
mod images;
pub mod local_fault;
mod mappings;
pub mod memory;
mod reads;

pub use buffers::LendFault;
pub use local_fault::{INVALID, LocalFault, UNKNOWN};
pub use memory::ProcessMemory;
