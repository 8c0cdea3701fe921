//! The calls of a folder on files of the host. Want of memory comes before anything is changed.
ghost use Rattle.std.specs.Prelude.{◌≡◌, ◌≢◌, ◌≤◌, length, IfOk};
ghost use Rattle.std.specs.IoError.{error_kind};

use disk_folder::DiskFault;
use std::fs::{File, OpenFile, OpenOptions};
use std::io::{Error, ErrorKind, Read, Seek, SeekFrom, Write};
use std::os::unix::fs::OpenOptionsExt;
use std::rt::Files;
use std::{fs, io};

/// The rights of a file that is made: its owner reads and writes it, and nobody else.
const OWNERS_FILE: u32 = 0o600;

/// The fault that an error of the host is.
pub fn fault_of(error: io::Error) -> DiskFault
    ensures memory { error_kind error ≡ ErrorKind.OutOfMemory → result ≡ DiskFault.Memory }
    ensures failed { error_kind error ≢ ErrorKind.OutOfMemory → result ≡ DiskFault.Failed }
{
    match error.kind() {
        ErrorKind::OutOfMemory => DiskFault::Memory,
        _ => DiskFault::Failed,
    }
}

/// The length in bytes of the file, if it is there. A link, or what else is no file, is refused.
fn find_file<R: Files>(rt: &R, path: &str) -> io::Result<Option<u64>> {
    match fs::symlink_metadata(rt, path) {
        Ok(found) if found.is_file() => Ok(Some(found.len())),
        Ok(_) => Err(Error::new(ErrorKind::InvalidInput, "not a plain file")),
        Err(error) if error.kind() == ErrorKind::NotFound => Ok(None),
        Err(error) => Err(error),
    }
}

/// The file, opened so, if it is there.
fn open_found<R: Files>(rt: &R, path: &str, options: &OpenOptions) -> io::Result<Option<R::File>> {
    match find_file(rt, path)? {
        Some(_) => Ok(Some(options.open(rt, path)?)),
        None => Ok(None),
    }
}

/// The file, opened to be read, if it is there.
pub fn open_file<R: Files>(rt: &R, path: &str) -> io::Result<Option<R::File>> {
    match find_file(rt, path)? {
        Some(_) => Ok(Some(File::open(rt, path)?)),
        None => Ok(None),
    }
}

/// The file's length in bytes, if it is there.
pub fn length_of<R: Files>(rt: &R, path: &str) -> Result<Option<u64>, DiskFault> {
    match find_file(rt, path) {
        Ok(len) => Ok(len),
        Err(error) => Err(fault_of(error)),
    }
}

/// Reads from an offset up to the buffer's or the file's end.
pub fn read_file<R: Files>(rt: &R, path: &str, at: u64, buf: &mut [u8]) -> Result<usize, DiskFault>
    ensures fits { IfOk result (λ n. n ≤ length buf.old) }
    ensures memory { result ≡ Err DiskFault.Memory → buf.new ≡ buf.old }
{
    match open_file(rt, path) {
        Ok(Some(mut file)) => match read_from(&mut file, at, buf) {
            Ok(count) => Ok(count),
            Err(_) => Err(DiskFault::Failed),
        },
        Ok(None) => Ok(0),
        Err(error) => Err(fault_of(error)),
    }
}

fn read_from<F: Read + Seek>(file: &mut F, at: u64, buf: &mut [u8]) -> io::Result<usize>
    ensures { IfOk result (λ n. n ≤ length buf.old) }
{
    file.seek(SeekFrom::Start(at))?;
    let mut count = 0;
    while count < buf.len() {
        let read = file.read(&mut buf[count..])?;
        if read == 0 {
            break;
        }
        count += read;
    }
    Ok(count)
}

/// Writes at an offset, and makes the file if it is not there. Answers whether it was made.
pub fn write_file<R: Files>(rt: &R, path: &str, at: u64, bytes: &[u8]) -> Result<bool, DiskFault> {
    match open_found(rt, path, OpenOptions::new().write(true)) {
        Ok(Some(mut file)) => match write_from(&mut file, at, bytes) {
            Ok(()) => Ok(false),
            Err(_) => Err(DiskFault::Failed),
        },
        Ok(None) => make_file(rt, path, at, bytes),
        Err(error) => Err(fault_of(error)),
    }
}

/// Writes at an offset and cuts what lies beyond, and makes the file if it is not there. Answers whether it
/// was made.
///
/// The file keeps its blocks where it stays as long, which makes this much quicker than a cut and a write.
pub fn overwrite_file<R: Files>(
    rt: &R,
    path: &str,
    at: u64,
    bytes: &[u8],
) -> Result<bool, DiskFault> {
    match open_found(rt, path, OpenOptions::new().write(true)) {
        Ok(Some(mut file)) => match overwrite(&mut file, at, bytes) {
            Ok(()) => Ok(false),
            Err(_) => Err(DiskFault::Failed),
        },
        Ok(None) => make_file(rt, path, at, bytes),
        Err(error) => Err(fault_of(error)),
    }
}

fn overwrite<F: Write + Seek + OpenFile>(file: &mut F, at: u64, bytes: &[u8]) -> io::Result<()> {
    write_from(file, at, bytes)?;
    shorten(file, at.saturating_add(bytes.len() as u64))
}

/// Makes a file for its owner alone, and writes it.
fn make_file<R: Files>(rt: &R, path: &str, at: u64, bytes: &[u8]) -> Result<bool, DiskFault> {
    let mut options = OpenOptions::new();
    options.write(true).create_new(true).mode(OWNERS_FILE);
    match options.open(rt, path) {
        Ok(mut file) => match write_from(&mut file, at, bytes) {
            Ok(()) => Ok(true),
            Err(_) => Err(DiskFault::Failed),
        },
        Err(error) => Err(fault_of(error)),
    }
}

fn write_from<F: Write + Seek>(file: &mut F, at: u64, bytes: &[u8]) -> io::Result<()> {
    file.seek(SeekFrom::Start(at))?;
    file.write_all(bytes)
}

/// Keeps the first bytes of the file, if it is there.
pub fn cut_file<R: Files>(rt: &R, path: &str, len: u64) -> Result<(), DiskFault> {
    match open_found(rt, path, OpenOptions::new().write(true)) {
        Ok(Some(file)) => match shorten(&file, len) {
            Ok(()) => Ok(()),
            Err(_) => Err(DiskFault::Failed),
        },
        Ok(None) => Ok(()),
        Err(error) => Err(fault_of(error)),
    }
}

fn shorten<F: OpenFile>(file: &F, len: u64) -> io::Result<()> {
    if len < file.metadata()?.len() {
        file.set_len(len)?;
    }
    Ok(())
}
