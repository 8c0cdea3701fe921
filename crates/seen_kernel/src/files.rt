//! The files and their names.
ghost use Rattle.std.specs.Prelude.{◌≡◌, [], None, IfOk, OnOk};
ghost use Rattle.std.specs.FinMap as map;
ghost use Rattle.seen_kernel.specs.Files as words;

use id_maps::ByName;
use std::alloc::{AllocError, Global};
use vfs_files::Files;
use views::list_of::ListOf;
use views::number_map::NumberMap;

/// The bytes of each file.
pub fn seen_files(alloc: Global, files: &Files) -> Result<NumberMap<ListOf<u8>>, AllocError>
    ensures { IfOk result (λ seen. seen ≡ files.now.files) }
{
    let mut seen = NumberMap::new(alloc);
    add_file(&mut seen, alloc, files, 0)?;
    let mut above = 0;
    while let Some(file) = files.next_above(above) {
        add_file(&mut seen, alloc, files, file)?;
        above = file;
    }
    Ok(seen)
}

/// Adds the bytes of the file, if it is there.
fn add_file(
    seen: &mut NumberMap<ListOf<u8>>,
    alloc: Global,
    files: &Files,
    file: u32,
) -> Result<(), AllocError>
    ensures ok { OnOk result (seen.new ≡ words.with_file files.now.files seen.old file) }
{
    let Some(bytes) = files.bytes(file) else {
        return Ok(());
    };
    seen.insert(file, copy_of(alloc, bytes)?)?;
    Ok(())
}

fn copy_of(alloc: Global, bytes: &[u8]) -> Result<ListOf<u8>, AllocError>
    ensures { IfOk result (λ copy. copy ≡ bytes.now) }
{
    Ok(ListOf::from_vec(Vec::from_slice(alloc, bytes)?))
}

/// The number of the file of each name. The empty name stands for none.
pub fn seen_names(alloc: Global, files: &Files) -> Result<ByName<u32>, AllocError>
    ensures { map.get files.now.names [] ≡ None → IfOk result (λ seen. seen ≡ files.now.names) }
{
    files.whole();
    let mut seen = ByName::new(alloc);
    add_name(&mut seen, alloc, files, 0)?;
    let mut above = 0;
    while let Some(file) = files.next_above(above) {
        add_name(&mut seen, alloc, files, file)?;
        above = file;
    }
    Ok(seen)
}

/// Adds the name of the file, if it has one.
fn add_name(
    seen: &mut ByName<u32>,
    alloc: Global,
    files: &Files,
    file: u32,
) -> Result<(), AllocError>
    ensures ok { OnOk result (words.AddsName files.now file seen.old seen.new) }
{
    files.whole();
    let Some(name) = files.name(file) else {
        return Ok(());
    };
    if name.is_empty() {
        return Ok(());
    }
    seen.insert(copy_of(alloc, name)?, file)?;
    Ok(())
}
