//! The files of a checkpoint set and the plain state for which they stand: what the crates below say of each
//! file, put together.
//!
//! The shared image stands for a kernel part: [`shared_image`] makes the one of a kernel part, and
//! [`restored_kernel`] the kernel part of one. `specs/Sets.antt` says which plain state a whole set spells.
//! The values of files, with their writers, are those of `image_format` (the manifest), `shared_items`,
//! `shared_writer` and `image_process`, handed on from here; the reader of the shared image stands in
//! `shared_reader`.
//!
//! Proved: all of that, for every value and all bytes, [`file_laws`], [`image_laws`] and of whole sets
//! [`set_laws`]: every valid state has a set, where no datagram end or event counter is open and all bytes
//! have arrived, and what a set spells is such a state. Not proved here: that an image is that of a running
//! process. The formats are this project's own (`docs/FORMATS.md`) and restate no standard.
#![tactic(auto)]

pub mod kernel_image;
pub mod kernel_of_image;
pub mod laws;
mod restored_objects;
mod stored_images;

pub use image_format::{Damage, Manifest, ReadFault, SetBytes, read_manifest, write_manifest};
pub use image_process::{PageImage, ProcImage, ThreadImage, read_process, write_process};
pub use kernel_image::shared_image;
pub use kernel_of_image::restored_kernel;
pub use laws::{file_laws, image_laws, set_laws};
pub use shared_items::{
    ChannelImage, DescriptionImage, DescriptorEntry, FileImage, ObjectImage, ProcessEntry, Shared,
    SideImage, ThreadEntry,
};
pub use shared_writer::write_shared;
