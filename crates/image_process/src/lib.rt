//! The image of one process in a checkpoint set, and its file, both ways.
//!
//! [`ProcImage`] is the value, and `specs/ProcessImages.antt` the format of its file, which is read beside
//! the shared image: that tells the number and the threads of the process. [`write_process`] gives the one
//! spelling of a value, and asks that there is one. [`read_process`] gives the value that the bytes spell, or
//! names the file and the first byte of the first field whose value is not allowed after the fields before
//! it; where the file ends too early, or a page is not there, that is its length; where bytes follow the
//! value, it is the first of them. `specs/UserParts.antt` says which part of a process an image stands for.
//!
//! Proved: all of that, for every value and all bytes. Not proved, but so written: a reader takes no more
//! memory than the bytes that are there account for. Not proved here: that an image is that of a running
//! process. The format is this project's own (`docs/FORMATS.md`) and restates no standard.
#![tactic(auto)]

mod actions;
pub mod page_image;
pub mod process_image;
pub mod thread_image;
mod waiters;

pub use page_image::PageImage;
pub use process_image::{ProcImage, read_process, write_process};
pub use thread_image::ThreadImage;
