//! What a folder of files on a disk is that may crash at any moment, and such a folder in memory.
//!
//! [`Folder`] says what its calls do and what a crash may leave: between two syncs a written range
//! is torn, so that any bytes may stand in it, and a cut may have happened or not; a sync that
//! answers `Ok` makes durable all that reads give. Its clock lets a clause of a caller speak of each
//! moment inside a call (`LeavesOnly` in `specs/Moments.antt`). A count of faults tells a failure
//! of the disk from an answer that the code made up.
//!
//! [`MemFolder`] is a `Folder` in memory that fails at calls which are named beforehand, and gives images
//! that a crash after any of its calls may leave; `set_disk` has a folder of the host.
//!
//! Proved: laws of these definitions, of writes, cuts and stretches of calls, for the crates above; a
//! `MemFolder` keeps the promises of `Folder`, each of its calls has an exact contract, and its crash images
//! are among those that a crash may leave.
#![tactic(auto)]

mod call;
mod disk_fault;
mod file_bytes;
mod file_name;
mod files;
mod folder;
mod mem_folder;
mod replay;
mod request;

pub use disk_fault::DiskFault;
pub use file_name::FileName;
pub use folder::Folder;
pub use mem_folder::MemFolder;
