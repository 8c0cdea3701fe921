//! The first step of a restart: from the files of a checkpoint set to the values that they spell.
//!
//! [`decode_set`] reads the shared image and then the image of each live process, each into memory
//! of its own. But for want of memory it is Ok exactly where the files of the set spell a state,
//! with the values that they spell, and else it names the first place that spells none: the file,
//! and the offset in it.
//!
//! Proved: all of that, against the definition of a whole set in `image_codec`. Not claimed: that
//! the files are those that were written; a set has no checksum. The formats are this project's own
//! (docs/FORMATS.md) and restate no standard.
#![tactic(auto)]

pub mod decode;

pub use decode::{Decoded, decode_set};
