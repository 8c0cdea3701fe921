//! Runs of bytes, which are copied and moved whole.
ghost use Rattle.std.specs.Prelude.{◌≡◌, ◌≤◌, ◌<◌, ◌^◌, ◌++◌, take, drop, length, IfOk, OnOk};
ghost use Rattle.plain_machine.specs.Transfers.Files.{bytes_from, filled, overwritten, with_piece};

use std::alloc::{AllocError, Global};
use std::mem;
use views::list_of::ListOf;

/// A copy of the first bytes, at most so many.
pub(crate) fn first_bytes(
    alloc: Global,
    bytes: &[u8],
    count: usize,
) -> Result<ListOf<u8>, AllocError>
    ensures copy { IfOk result (λ copy. copy ≡ take count bytes.now) }
    ensures few { IfOk result (λ copy. length copy ≤ count) }
{
    let end = count.min(bytes.len());
    Ok(ListOf::from_vec(Vec::from_slice(alloc, &bytes[..end])?))
}

/// The bytes from a place on, at most so many.
pub(crate) fn piece_at(bytes: &[u8], place: usize, count: usize) -> &[u8]
    ensures { result.now ≡ bytes_from bytes.now place count }
{
    let start = place.min(bytes.len());
    let length = count.min(bytes.len() - start);
    &bytes[start..start + length]
}

/// Takes the first items out of a list, at most so many. Takes no memory.
pub(crate) fn drop_first<T: Drop>(list: &mut ListOf<T>, alloc: Global, count: usize)
    ensures { list.new ≡ drop count list.old }
{
    let mut items = mem::replace(list, ListOf::new(alloc)).into_vec();
    drop_front(&mut items, count);
    *list = ListOf::from_vec(items);
}

fn drop_front<T: Drop>(items: &mut Vec<T>, count: usize)
    ensures { items.new.items ≡ drop count items.old.items }
{
    let gone = count.min(items.len());
    let kept = items.len() - gone;
    items.rotate_left(gone);
    items.truncate(kept);
}

/// Appends bytes to a list. After want of memory it may hold any.
pub(crate) fn append(list: &mut ListOf<u8>, alloc: Global, bytes: &[u8]) -> Result<(), AllocError>
    ensures { OnOk result (list.new ≡ list.old ++ bytes.now) }
{
    let mut items = mem::replace(list, ListOf::new(alloc)).into_vec();
    items.extend_from_slice(bytes)?;
    *list = ListOf::from_vec(items);
    Ok(())
}

/// Puts a piece in its place over what is there and past the end; zeros fill a gap before it. After want of
/// memory the list may hold any bytes.
pub(crate) fn put_piece(
    list: &mut ListOf<u8>,
    alloc: Global,
    place: usize,
    piece: &[u8],
) -> Result<(), AllocError>
    requires { place < 2 ^ 32 }
    ensures { OnOk result (list.new ≡ with_piece list.old place piece.now) }
{
    let mut items = mem::replace(list, ListOf::new(alloc)).into_vec();
    put_into(&mut items, place, piece)?;
    *list = ListOf::from_vec(items);
    Ok(())
}

fn put_into(bytes: &mut Vec<u8>, place: usize, piece: &[u8]) -> Result<(), AllocError>
    requires { place < 2 ^ 32 }
    ensures { OnOk result (bytes.new.items ≡ with_piece bytes.old.items place piece.now) }
{
    if place > bytes.len() {
        append_at(bytes, place, piece)
    } else {
        overwrite(bytes, place, piece)
    }
}

/// Fills up to a place past the end with zeros, and appends the piece.
fn append_at(bytes: &mut Vec<u8>, place: usize, piece: &[u8]) -> Result<(), AllocError>
    requires before { length bytes.old.items ≤ place }
    requires fits { place < 2 ^ 32 }
    ensures { OnOk result (bytes.new.items ≡ filled place bytes.old.items ++ piece.now) }
{
    bytes.reserve(place - bytes.len() + piece.len())?;
    bytes.resize(place, 0)?;
    bytes.extend_from_slice(piece)
}

/// Writes over the bytes from a place within them or at their end, and appends the rest of the piece.
fn overwrite(bytes: &mut Vec<u8>, place: usize, piece: &[u8]) -> Result<(), AllocError>
    requires { place ≤ length bytes.old.items }
    ensures { OnOk result (bytes.new.items ≡ overwritten place piece.now bytes.old.items) }
{
    let kept = piece.len().min(bytes.len() - place);
    bytes.extend_from_slice(&piece[kept..])?;
    bytes[place..place + kept].copy_from_slice(&piece[..kept]);
    Ok(())
}
