//! What a file format is, and the fields that the formats of a checkpoint set are made of; and the first of
//! them, the manifest.
//!
//! A format is a description of a file's fields in order (`specs/Format.antt`). From it follow what bytes
//! spell, and the one place where other bytes are damaged: a field whose value is not allowed after the
//! fields before it, the length of bytes that end too early, the first byte behind the value, or the end of a
//! file that lacks something as a whole. Readers and writers of single fields are in [`fields`]; a file's own
//! reader and writer are made of them.
//!
//! Proved: that the readers and writers of fields are the format's; that [`read_manifest`] gives the manifest
//! that bytes spell, or the place of their damage, and [`write_manifest`] the one spelling. The laws of
//! formats are lemmas here (`proofs/WholeFiles.antt`), and clauses of `image_codec`. The formats are this
//! project's own (`docs/FORMATS.md`) and restate no standard.
#![tactic(auto)]

pub mod damage;
pub mod fields;
pub mod manifest;
pub mod set_bytes;

pub use damage::{Damage, ReadFault};
pub use manifest::{Manifest, read_manifest, write_manifest};
pub use set_bytes::SetBytes;
