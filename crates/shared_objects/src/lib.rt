//! The open descriptions of the shared image, read. What a field names is found by a search of the files and
//! channels, which rise, or looked up in maps of what the descriptions before it name.
//!
//! Proved: each reader gives what the format says of the bytes (`shared_items/specs/SharedFormat.antt`), for
//! all bytes; and what is tested of channels and files by the names of all descriptions is what
//! `shared_items/specs/WholeShared.antt` says. Not proved, but so written: a reader takes no more memory than
//! the bytes that are there account for.
#![tactic(auto)]

pub mod descriptions;
pub mod known;
mod named;
mod object_tests;
mod objects;

pub use descriptions::descriptions_at;
pub use known::{opened_of, sides_of};
pub use named::{are_kept, are_rightly_named};
