//! Folders of files on a disk that may crash at any moment: [`Folder`] says what they do, [`MemFolder`] is
//! one in memory, and [`HostFolder`] one of the host.
//!
//! The trait stands in `disk_folder`, with the folder in memory; here is that of the host.
//!
//! Proved: it keeps the promises of `Folder`, which path of the host a file's name has, and, after each of
//! its calls, also one that failed, what its next sync owes, which cut is still to be made, and that it has
//! taken the folder. Not proved: that the host's disk keeps the model. `HostFolder` tells no content, so no
//! clause speaks of what it holds; and a sync that follows a failed one settles all in the model, which a
//! kernel does not promise. The calls are those of POSIX: `lstat`, `open`, `lseek`, `read`, `write`,
//! `ftruncate` and `fsync`; and `flock`, which keeps other runs out.
#![tactic(auto)]

mod host_files;
mod host_folder;
mod host_names;
mod host_syncs;
mod owed;

pub use disk_folder::{DiskFault, FileName, Folder, MemFolder};
pub use host_folder::HostFolder;
