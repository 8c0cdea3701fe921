//! The store of checkpoint sets: which set of a folder counts, writing a set so that a crash at any
//! moment leaves the set before or the new one, and reading a set back.
//!
//! A set lies in slot 0 or 1 of a folder, its manifest as file 0 and its images behind it. It is
//! complete where its manifest has at least 16 bytes and the first, its gate, is 1; of the complete
//! sets the one with the greatest generation counts, on a tie that in slot 0. A [`Store`] closes
//! the gate of the slot that does not count, unless it is shut, writes the images and the manifest,
//! and opens the gate, with a sync after each step. What holds of a run of puts stands in
//! `store_runs`.
//!
//! Proved: for every `Folder` that tells its content, a crash at any moment of `put_set` leaves the
//! set that counted before or the new one, and after Ok the new one alone; `get_set` gives the very
//! files of the set that counts, or the first place at which it is damaged; a fault of the disk is
//! told only where the folder's count rose. Not proved: anything of a folder that tells no content.
//! The format is this project's own (`docs/STORE.md`, `docs/FORMATS.md`) and restates no standard.
#![tactic(auto)]

mod gate;
mod head;
mod reading;
pub mod set_info;
pub mod store;
pub mod store_fault;
mod writing;

pub use image_format::{Damage, SetBytes};
pub use set_info::SetInfo;
pub use store::Store;
pub use store_fault::StoreFault;
