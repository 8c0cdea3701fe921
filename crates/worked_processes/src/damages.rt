// An image that is changed in a byte, cut, or read as another file.
use crate::asserts::holds;
use crate::process_texts::{Image, bytes_of};
use crate::reading::is_damaged;
use crate::shared_images::{Processes, shared_of};
use image_codec::Shared;
use std::alloc::{AllocError, Global};
use std::process::Abort;
use std::test::Fail;

/// How an image of file 2 is spoilt, and where it is damaged then.
#[derive(Clone, Copy)]
pub enum Damaging {
    /// The byte at a place gets another value: the offset of the damage.
    Change(usize, u8, u64),
    /// Only so many bytes are left: at their end.
    Cut(usize),
    /// It is read as this file: at the number of the process.
    AsFile(u32),
}

/// The image is this long, and is damaged in each way, where it is read beside these processes.
pub fn assert_damaged(
    rt: &(impl Abort + AllocGlobal),
    image: Image,
    len: usize,
    processes: Processes,
    ways: &[Damaging],
) -> Result<(), Fail> {
    let shared = shared_of(rt.alloc(), processes)?;
    let bytes = bytes_of(rt.alloc(), image)?;
    holds(rt, bytes.len() == len);
    assert_each(rt, bytes.as_slice(), &shared, ways)?;
    Ok(())
}

fn assert_each(
    rt: &(impl Abort + AllocGlobal),
    bytes: &[u8],
    shared: &Shared,
    ways: &[Damaging],
) -> Result<(), AllocError> {
    for way in ways {
        holds(rt, is_damaged_so(rt.alloc(), bytes, shared, *way)?);
    }
    Ok(())
}

fn is_damaged_so(
    alloc: Global,
    bytes: &[u8],
    shared: &Shared,
    way: Damaging,
) -> Result<bool, AllocError> {
    match way {
        Damaging::Change(at, value, offset) => {
            let other = changed(alloc, bytes, at, value)?;
            Ok(is_damaged(alloc, 2, other.as_slice(), shared, offset))
        }
        Damaging::Cut(len) => Ok(is_damaged(alloc, 2, cut(bytes, len), shared, len as u64)),
        Damaging::AsFile(file) => Ok(is_damaged(alloc, file, bytes, shared, 8)),
    }
}

/// The bytes with one of them changed.
fn changed(alloc: Global, bytes: &[u8], at: usize, value: u8) -> Result<Vec<u8>, AllocError> {
    let mut copy = bytes.to_vec(alloc)?;
    if let Some(byte) = copy.get_mut(at) {
        *byte = value;
    }
    Ok(copy)
}

/// The first so many bytes.
fn cut(bytes: &[u8], len: usize) -> &[u8] {
    bytes.get(..len).unwrap_or(bytes)
}
