//! Changes of the maps that hold the names and the bytes of all files.
ghost use Rattle.std.specs.Prelude.{◌≡◌, ◌≢◌, ◌⊎◌, ◌+◌, ◌≤◌, ℕ, List, [], None, Some, Err, false, IsTrue, length, IsSome, IfSome, IfNone, IfOk, OnOk, OnErr, IsOkUnless};
ghost use Rattle.std.specs.FinMap as map;
ghost use Rattle.vfs_files.specs.declared.limits.TheConstants.{TOTAL_LIMIT};
ghost use Rattle.vfs_files.specs.FileTable as table;
ghost use Rattle.views.specs.Bytes.{read_from};

use crate::file_bytes::FileBytes;
use crate::file_fault::FileFault;
use crate::names::NameTable;
use std::alloc::{AllocError, Global};
use sys_abi::flags::{O_CREAT, O_EXCL};
use views::number_map::NumberMap;

/// Opens a file that is there.
pub(crate) fn existing(file: u32, flags: u32) -> Result<u32, FileFault>
    ensures refused { (t : table.FileTable)
        → IfSome (table.refusal_at t flags (Some file)) (λ fault. result ≡ Err fault) }
    ensures granted { (t : table.FileTable)
        → IfNone (table.refusal_at t flags (Some file)) (IsOkUnless result FileFault.Memory) }
    ensures number { IfOk result (λ number. number ≡ file) }
{
    if flags / O_CREAT % 2 == 1 && flags / O_EXCL % 2 == 1 {
        return Err(FileFault::Exists);
    }
    Ok(file)
}

/// Adds a file under a number and a name that are new.
pub(crate) fn add_file(
    names: &mut NameTable,
    files: &mut NumberMap<FileBytes>,
    alloc: Global,
    name: &[u8],
    file: u32,
    bytes: FileBytes,
) -> Result<(), AllocError>
    requires new { map.get names.old name.now ≡ None }
    requires unnamed { (other : List ℕ) → map.get names.old other ≢ Some file }
    ensures names { OnOk result (names.new ≡ map.insert names.old name.now file) }
    ensures files { OnOk result (files.new ≡ map.insert files.old file bytes) }
    ensures names_same { OnErr result (names.new ≡ names.old) }
    ensures files_same { OnErr result (files.new ≡ files.old) }
{
    names.insert(alloc, name, file)?;
    if let Err(error) = files.insert(file, bytes) {
        names.remove(name);
        return Err(error);
    }
    Ok(())
}

/// The same, without a name where the name is empty.
pub(crate) fn put_back(
    names: &mut NameTable,
    files: &mut NumberMap<FileBytes>,
    alloc: Global,
    name: &[u8],
    file: u32,
    bytes: FileBytes,
) -> Result<(), AllocError>
    requires new { (name.now ≡ []) ⊎ (map.get names.old name.now ≡ None) }
    requires unnamed { (other : List ℕ) → map.get names.old other ≢ Some file }
    ensures names { OnOk result (names.new ≡ table.with_name names.old name.now file) }
    ensures files { OnOk result (files.new ≡ map.insert files.old file bytes) }
    ensures names_same { OnErr result (names.new ≡ names.old) }
    ensures files_same { OnErr result (files.new ≡ files.old) }
{
    if name.is_empty() {
        files.insert(file, bytes)?;
        return Ok(());
    }
    add_file(names, files, alloc, name, file, bytes)
}

/// The bytes from an offset on, at most n.
pub(crate) fn piece_at(bytes: &[u8], at: usize, n: usize) -> &[u8]
    ensures { result.now ≡ read_from at n bytes.now }
{
    let start = at.min(bytes.len());
    let count = n.min(bytes.len() - start);
    &bytes[start..start + count]
}

/// Writes the piece into the file, and answers how many bytes all files have then.
pub(crate) fn write_file(
    files: &mut NumberMap<FileBytes>,
    total: u64,
    file: u32,
    at: u32,
    piece: &[u8],
) -> Result<u64, FileFault>
    requires there { IsSome (map.get files.old file) }
    requires sum { total ≡ table.bytes_of files.old }
    requires limit { total ≤ TOTAL_LIMIT }
    ensures refused { IsTrue (table.is_too_big files.old file at piece.now) → result ≡ Err FileFault.Space }
    ensures granted { table.is_too_big files.old file at piece.now ≡ false → IsOkUnless result FileFault.Memory }
    ensures ok { OnOk result (files.new ≡ table.with_write files.old file at piece.now) }
    ensures sum { IfOk result (λ sum. sum ≡ table.bytes_of (table.with_write files.old file at piece.now)) }
    ensures limit { IfOk result (λ sum. sum ≤ TOTAL_LIMIT) }
    ensures err { OnErr result (files.new ≡ files.old) }
{
    match files.get_mut(file) {
        Some(bytes) => bytes.write_within(total, at, piece),
        None => unreachable!(),
    }
}

/// Makes the file empty, if it is there, and answers how many bytes it had.
pub(crate) fn empty_file(files: &mut NumberMap<FileBytes>, alloc: Global, file: u32) -> u64
    requires { table.bytes_of files.old ≤ TOTAL_LIMIT }
    ensures files { files.new ≡ table.truncated files.old file }
    ensures sum { result + table.bytes_of files.new ≡ table.bytes_of files.old }
{
    let Some(bytes) = files.get_mut(file) else {
        return 0;
    };
    let count = bytes.len() as u64;
    *bytes = FileBytes::new(alloc);
    count
}

/// Drops the file, if it is there, and answers how many bytes it had.
pub(crate) fn remove_file(files: &mut NumberMap<FileBytes>, file: u32) -> u64
    ensures files { files.new ≡ map.remove files.old file }
    ensures sum { result + table.bytes_of files.new ≡ table.bytes_of files.old }
{
    match files.remove(file) {
        Some(bytes) => bytes.len() as u64,
        None => 0,
    }
}
