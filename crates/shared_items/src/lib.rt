//! The shared image of a checkpoint set, what all its processes share: its value, its bytes, and its files and
//! channels read.
//!
//! [`Shared`] is the value. `specs/SharedFormat.antt` says which bytes are its file, and where others break
//! the format; `specs/SharedFits.antt` which values have a file, and `specs/SharedTexts.antt` its bytes. That
//! the two are one is proved here, for the reader (`shared_reader`) and the writer (`shared_writer`) to cite.
//! The format is this project's own (`docs/FORMATS.md`) and restates no standard.
//!
//! What the lists of an image name is found by numbers and names here: files, channels, descriptions and
//! processes, and whether a number is above all that a process gave.
//!
//! Proved: each reader gives what the format says of the bytes (`specs/SharedFormat.antt`), for all bytes. Not
//! proved, but so written: a reader takes no more memory than the bytes that are there account for, and a list
//! that rises is searched by halves.
#![tactic(auto)]

pub mod channels;
mod contents;
pub mod files;
pub mod found;
pub mod item_tests;
pub mod made;
pub mod shared;

pub use channels::channels_at;
pub use files::files_at;
pub use shared::{
    ChannelImage, DescriptionImage, DescriptorEntry, FileImage, ObjectImage, ProcessEntry, Shared,
    SideImage, ThreadEntry,
};
