//! The file of a shared image, from the value that it spells.
//!
//! [`write_shared`] puts each field of the value, and each list as its count and its items. The reader stands
//! in `shared_reader`, and the format in `shared_items`.
//!
//! Proved: the bytes spell the value, for every value that can be spelled. The format is this project's own
//! (`docs/FORMATS.md`) and restates no standard.
#![tactic(auto)]

mod opened;
mod processes;
mod stored;
pub mod whole;

pub use whole::write_shared;
