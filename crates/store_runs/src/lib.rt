//! What holds of many sets: runs of puts into one folder, and laws of the sets of every folder.
//!
//! [`put_all`] puts sets one after another, and opens the folder again where a put is refused. [`store_laws`]
//! says that the definitions by which the store's contracts speak of sets fit together.
//!
//! Proved: for every `Folder` that tells its content, a crash at any moment of a run leaves the set that
//! counted before or one of those that were put, and each has had its generation; a set is whole in one way,
//! or damaged at one place, and never both. Not proved: anything of a folder that tells no content.
#![tactic(auto)]

pub mod laws;
mod runs;

pub use laws::store_laws;
pub use runs::put_all;
