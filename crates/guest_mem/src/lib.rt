//! The address space of a process: pages by number, each with its rights and 4,096 bytes.
//!
//! To a caller a [`Space`] is the memory of the plain machine, a finite map from page numbers below 2^20 to
//! frames. An access whose range has a byte on a missing page is `Unmapped`; one that meets only pages that
//! are there, but one of them without the right that it needs, is `Rights`. What was refused changed nothing,
//! and no address wraps.
//!
//! Proved: each call is the word of its name over that map, each access is refused exactly where
//! `Refusals.antt` of `guest_pages` says, and new pages exactly where there is no room; an [`OpenSpace`], one
//! of whose pages stands apart, is the same memory. Not proved, but so written: an access inside a page takes
//! one look-up by index and no memory. Not claimed: that an allocation succeeds. Source: the RISC-V
//! unprivileged manual, sections 1.4 and 2.6 (memory, loads and stores), and `man 2 mmap`.
#![tactic(auto)]

mod runs;
pub mod space;

pub use guest_pages::{MemFault, OpenSpace};
pub use space::Space;
