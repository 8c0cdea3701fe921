//! The list of files.

ghost use Rattle.std.specs.Prelude.{◌≡◌, ◌≤◌, ◌+◌, length, nat_le, sum_by, IfOk, OnOk};
ghost use Rattle.std.specs.FinMap as map;
ghost use Rattle.image_format.specs.Fields.{is_within};
ghost use Rattle.image_format.specs.Format.{counted, each, next, raw, unsigned, n16, n32};
ghost use Rattle.image_format.specs.Reading.{Gives, read};
ghost use Rattle.shared_items.specs.SharedFormat as format;
ghost use Rattle.shared_items.specs.SharedTests as field;
ghost use Rattle.shared_items.specs.KnownNames.{KnowsNames};

use crate::FileImage;
use crate::contents::{content_at, list_of};
use crate::item_tests::{is_file_count, is_file_name, is_file_number, is_file_size};
use id_maps::ByName;
use image_format::fields::{Fault, bytes_at, u16_at, u32_at};
use std::alloc::{AllocError, Global};
use views::list_of::ListOf;

const NAME_LIMIT: u16 = 255;

/// A file's number, above those before it.
#[tactic(auto, unfolding(image_format::specs::Reading::read, image_format::specs::Reading::read_if))]
fn file_number_at<'a>(
    next_file: u32,
    front: &[FileImage],
    text: &'a [u8],
) -> Result<(u32, &'a [u8]), Fault>
    ensures { Gives (λ x. (x.0, x.1.now)) result
        (read (unsigned n32 (field.is_file_number next_file front.now)) text.now) }
{
    let (number, rest) = u32_at(text)?;
    if !is_file_number(next_file, front, number) {
        return Err(Fault::Left(text.len()));
    }
    Ok((number, rest))
}

/// A file's name, which none before it has, behind its size.
#[tactic(auto, unfolding(image_format::specs::Reading::read, image_format::specs::Reading::read_next, image_format::specs::Reading::read_if))]
fn file_name_at<'a>(
    front: &[FileImage],
    names: &ByName<()>,
    text: &'a [u8],
) -> Result<(&'a [u8], &'a [u8]), Fault>
    requires { KnowsNames names.now front.now }
    ensures { Gives (λ x. (x.0.now, x.1.now)) result
        (read (next (unsigned n16 (is_within 0 255)) (λ size. raw size (field.is_file_name front.now)))
        text.now) }
{
    let (size, after_size) = u16_at(text)?;
    if size > NAME_LIMIT {
        return Err(Fault::Left(text.len()));
    }
    let (name, rest) = bytes_at(after_size, size as usize)?;
    if !is_file_name(front, names, name) {
        return Err(Fault::Left(after_size.len()));
    }
    Ok((name, rest))
}

/// A file's bytes behind their number, after files of so many bytes together.
#[tactic(auto, unfolding(image_format::specs::Reading::read, image_format::specs::Reading::read_next, image_format::specs::Reading::read_if))]
fn file_bytes_at(total: u64, text: &[u8]) -> Result<(&[u8], &[u8]), Fault>
    requires { total ≤ 67108864 }
    ensures read { Gives (λ x. (x.0.now, x.1.now)) result
        (read (next (unsigned n32 (λ size. nat_le (total + size) 67108864))
        (λ size. raw size field.are_bytes)) text.now) }
    ensures limit { IfOk result (λ x. total + length x.0.now ≤ 67108864) }
{
    let (size, after_size) = u32_at(text)?;
    if !is_file_size(total, size) {
        return Err(Fault::Left(text.len()));
    }
    content_at(after_size, size as usize)
}

/// The file of this number, with these bytes as its own.
fn file_of(alloc: Global, number: u32, name: &[u8], bytes: &[u8]) -> Result<FileImage, AllocError>
    ensures { IfOk result (λ file. file ≡ record { number = number; name = name.now; bytes = bytes.now }) }
{
    Ok(FileImage {
        number,
        name: list_of(alloc, name)?,
        bytes: list_of(alloc, bytes)?,
    })
}

/// A file, after files of so many bytes together.
#[tactic(auto, unfolding(crate::specs::SharedFormat::file, image_format::specs::Reading::read, image_format::specs::Reading::read_next, image_format::specs::Reading::read_if))]
fn file_at<'a>(
    alloc: Global,
    next_file: u32,
    front: &[FileImage],
    names: &ByName<()>,
    total: u64,
    text: &'a [u8],
) -> Result<(FileImage, &'a [u8]), Fault>
    requires names { KnowsNames names.now front.now }
    requires total { total ≡ sum_by (λ file. length file.bytes) front.now }
    requires limit { total ≤ 67108864 }
    ensures read { Gives (λ x. (x.0, x.1.now)) result (read (format.file next_file front.now) text.now) }
    ensures limit { IfOk result (λ x. total + length x.0.bytes ≤ 67108864) }
{
    let (number, rest) = file_number_at(next_file, front, text)?;
    let (name, rest) = file_name_at(front, names, rest)?;
    let (bytes, rest) = file_bytes_at(total, rest)?;
    Ok((file_of(alloc, number, name, bytes)?, rest))
}

/// Notes a name, of which the map has a copy.
fn note_name(alloc: Global, names: &mut ByName<()>, name: &[u8]) -> Result<(), AllocError>
    ensures { OnOk result (names.new ≡ map.insert names.old name.now tt) }
{
    names.insert(list_of(alloc, name)?, ())?;
    Ok(())
}

/// Reads one more file, and notes its name and its size.
#[tactic(auto, unfolding(image_format::specs::Format::each, image_format::specs::Reading::read, image_format::specs::Reading::read_next))]
fn add_file<'a>(
    alloc: Global,
    next_file: u32,
    files: &mut ListOf<FileImage>,
    names: &mut ByName<()>,
    total: &mut u64,
    text: &'a [u8],
) -> Result<&'a [u8], Fault>
    requires names { KnowsNames names.old files.old }
    requires total { total.old ≡ sum_by (λ file. length file.bytes) files.old }
    requires limit { total.old ≤ 67108864 }
    ensures read { Gives (λ rest. (files.new, rest.now)) result
        (read (each (format.file next_file) 1 files.old) text.now) }
    ensures names { OnOk result (KnowsNames names.new files.new) }
    ensures total { OnOk result (total.new ≡ sum_by (λ file. length file.bytes) files.new) }
    ensures limit { OnOk result (total.new ≤ 67108864) }
{
    let (file, rest) = file_at(alloc, next_file, files.as_slice(), names, *total, text)?;
    *total += file.bytes.len() as u64;
    note_name(alloc, names, file.name.as_slice())?;
    files.push(file)?;
    Ok(rest)
}

#[tactic(auto, unfolding(image_format::specs::Format::counted, image_format::specs::Reading::read, image_format::specs::Reading::read_next, image_format::specs::Reading::read_if), using(crate::proofs::OneMore::one_more, image_format::proofs::Loop::is_done))]
pub fn files_at<'a>(
    alloc: Global,
    next_file: u32,
    text: &'a [u8],
) -> Result<(ListOf<FileImage>, &'a [u8]), Fault>
    ensures { Gives (λ x. (x.0, x.1.now)) result
        (read (counted field.is_file_count (format.file next_file)) text.now) }
{
    let (count, items) = u32_at(text)?;
    if !is_file_count(count) {
        return Err(Fault::Left(text.len()));
    }
    let mut files = ListOf::new(alloc);
    let mut names = ByName::new(alloc);
    let mut total = 0;
    let mut rest = items;
    for _item in 0..count {
        rest = add_file(alloc, next_file, &mut files, &mut names, &mut total, rest)?;
    }
    Ok((files, rest))
}
