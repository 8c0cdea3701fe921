//! Taking a folder of the host for one run alone, and making durable what is in it.
use crate::host_files::{fault_of, open_file};
use crate::host_names::{is_used, path_of};
use crate::owed::Owed;
use disk_folder::{DiskFault, FileName};
use std::fs::{DirBuilder, File, OpenFile};
use std::io::{Error, ErrorKind};
use std::os::unix::fs::DirBuilderExt;
use std::rt::Files;
use std::{fs, io};

/// The rights of a folder that is made: its owner lists and changes it, and nobody else.
const OWNERS_FOLDER: u32 = 0o700;

/// The folder, made if it is not there, and locked until it is closed. One that is locked already is
/// a fault.
pub fn take_folder<R: Files<File = File> + AllocGlobal>(
    rt: &R,
    path: &str,
) -> Result<File, DiskFault> {
    match make_and_lock(rt, path) {
        Ok(folder) => Ok(folder),
        Err(error) => Err(fault_of(error)),
    }
}

fn make_and_lock<R: Files<File = File> + AllocGlobal>(rt: &R, path: &str) -> io::Result<File> {
    let inside = format!(in rt.alloc(); "{path}/")?;
    match DirBuilder::new().mode(OWNERS_FOLDER).create(rt, path) {
        Err(error) if error.kind() != ErrorKind::AlreadyExists => return Err(error),
        _ => {}
    }
    let folder = File::open(rt, inside.as_str())?;
    folder.try_lock()?;
    Ok(folder)
}

/// Makes durable what is owed of the folder at the path, which is open as `folder`.
pub fn sync_folder<R: Files<File = File> + AllocGlobal + Clone + Drop>(
    rt: &R,
    path: &str,
    folder: &File,
    owed: &Owed,
) -> Result<(), DiskFault> {
    let synced = match owed {
        Owed::All => sync_all(rt, path, folder),
        Owed::Changes {
            files,
            has_new_entry,
        } => sync_changes(rt, path, folder, files, *has_new_entry),
    };
    match synced {
        Ok(()) => Ok(()),
        Err(error) => Err(fault_of(error)),
    }
}

/// Syncs each file that the folder uses, the folder, and the one that it stands in.
fn sync_all<R: Files<File = File> + AllocGlobal + Clone + Drop>(
    rt: &R,
    path: &str,
    folder: &File,
) -> io::Result<()> {
    for entry in fs::read_dir(rt, path)? {
        match entry {
            Ok(entry) => sync_used(rt, path, entry.file_name())?,
            Err(error) if is_of_name(&error) => {}
            Err(error) => return Err(error),
        }
    }
    folder.sync_all()?;
    sync_above(rt, path)
}

/// Whether the error says that a name is no text, and so none of a file that the folder uses.
fn is_of_name(error: &Error) -> bool {
    error.kind() == ErrorKind::InvalidFilename && error.raw_os_error().is_none()
}

/// Syncs the file of this name, if the folder uses it.
fn sync_used<R: Files<File = File> + AllocGlobal>(
    rt: &R,
    path: &str,
    name: &str,
) -> io::Result<()> {
    if is_used(rt.alloc(), name)? {
        let place = format!(in rt.alloc(); "{path}/{name}")?;
        sync_file(rt, place.as_str())?;
    }
    Ok(())
}

/// Syncs the folder above. One that may not be read can't be synced, and is passed over.
fn sync_above<R: Files<File = File> + AllocGlobal>(rt: &R, path: &str) -> io::Result<()> {
    let above = format!(in rt.alloc(); "{path}/..")?;
    match File::open(rt, above.as_str()) {
        Ok(folder) => folder.sync_all(),
        Err(error) if error.kind() == ErrorKind::PermissionDenied => Ok(()),
        Err(error) => Err(error),
    }
}

/// Syncs these files, and the folder, where it has a new entry.
fn sync_changes<R: Files<File = File> + AllocGlobal>(
    rt: &R,
    path: &str,
    folder: &File,
    files: &[FileName],
    has_new_entry: bool,
) -> io::Result<()> {
    for name in files {
        let place = path_of(rt.alloc(), path, *name)?;
        sync_file(rt, place.as_str())?;
    }
    if has_new_entry {
        folder.sync_all()?;
    }
    Ok(())
}

/// Syncs the file, if it is there.
fn sync_file<R: Files<File = File>>(rt: &R, path: &str) -> io::Result<()> {
    match open_file(rt, path)? {
        Some(file) => file.sync_all(),
        None => Ok(()),
    }
}
