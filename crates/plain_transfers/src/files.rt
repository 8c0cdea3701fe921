//! Bytes of files.
ghost use Rattle.std.specs.Prelude.{◌≡◌, ◌≤◌, ◌<◌, ◌+◌, ◌^◌, nat_le, length, min, IfOk, OnOk};
ghost use Rattle.views.specs.Limits as limits;
ghost use Rattle.sys_abi.specs.declared.transfer.TheConstants.{TRANSFER_LIMIT};
ghost use Rattle.plain_machine.specs.OfPlainTables.Tables.{changed_at};
ghost use Rattle.plain_machine.specs.HeldTold.{held_of};
ghost use Rattle.plain_machine.specs.Transfers.Files as words;
ghost use Rattle.plain_machine.specs.Answers.{RowTold, KeepsUnlessGives};

use crate::bytes::{piece_at, put_piece};
use crate::moving::gift;
use plain_machine::PlainKernel;
use plain_machine::descriptors::Held;
use plain_machine::plain_tables::answer::{Attempt, RowResult};
use plain_machine::plain_tables::{Description, Object};
use std::alloc::{AllocError, Global};
use sys_abi::errors::{EBADF, EFBIG, ENOSPC};
use sys_abi::flags::O_APPEND;
use views::list_of::ListOf;
use views::number_map::NumberMap;

/// All files together have at most so many bytes.
const ALL_FILES_LIMIT: u64 = 67_108_864;

/// Offsets are below this one.
const OFFSET_LIMIT: usize = 0x8000_0000;

/// The greatest offset, up to which no file has bytes.
const LAST_OFFSET: usize = OFFSET_LIMIT - 1;

/// A read of at most so many bytes of the file, from the description's offset on.
#[tactic(auto, unfolding(plain_machine::specs::Transfers::Files::read_file, plain_process::specs::Attempts::and_then, plain_process::specs::Attempts::found))]
pub fn read_file(
    kernel: &mut PlainKernel,
    alloc: Global,
    held: Held,
    number: u32,
    offset: u32,
    count: u32,
) -> RowResult
    requires { count ≤ TRANSFER_LIMIT }
    ensures row { IfOk result (RowTold (words.read_file kernel.old (held_of held) number offset count) kernel.new) }
    ensures kept { IfOk result (λ attempt. KeepsUnlessGives attempt kernel.old kernel.new) }
{
    let Some(bytes) = kernel.files.get(number) else {
        return Ok(Attempt::fails(EBADF));
    };
    let piece = piece_copy(alloc, bytes.as_slice(), offset, count)?;
    move_to(kernel, held, number, offset + piece.len() as u32)?;
    Ok(gift(piece))
}

/// A copy of the bytes from an offset on, at most so many, none of them behind the greatest offset.
fn piece_copy(
    alloc: Global,
    bytes: &[u8],
    offset: u32,
    count: u32,
) -> Result<ListOf<u8>, AllocError>
    ensures copy { IfOk result (λ copy. copy ≡ words.bytes_from bytes.now offset (words.read_room offset count)) }
    ensures few { IfOk result (λ copy. length copy ≤ count) }
    ensures fits { IfOk result (λ copy. offset + length copy < 2 ^ 32) }
{
    let room = LAST_OFFSET.saturating_sub(offset as usize);
    let piece = piece_at(bytes, offset as usize, room.min(count as usize));
    Ok(ListOf::from_vec(Vec::from_slice(alloc, piece)?))
}

fn move_to(kernel: &mut PlainKernel, held: Held, number: u32, offset: u32) -> Result<(), AllocError>
    ensures { OnOk result (kernel.new ≡ words.moved_behind kernel.old (held_of held) number offset) }
{
    kernel.put_description(
        held.0.desc,
        Description {
            object: Object::File { number, offset },
            flags: held.1.flags,
            owner: held.1.owner,
        },
    )
}

/// A write of these bytes to the file, at the description's offset or at the file's end.
#[tactic(auto, unfolding(plain_machine::specs::Transfers::Files::write_file, plain_machine::specs::Transfers::Files::write_piece, plain_process::specs::Attempts::and_then, plain_process::specs::Attempts::need, plain_process::specs::Attempts::found))]
pub fn write_file(
    kernel: &mut PlainKernel,
    alloc: Global,
    held: Held,
    number: u32,
    offset: u32,
    given: &[u8],
) -> RowResult
    requires { length given.now ≤ TRANSFER_LIMIT }
    ensures row { IfOk result (RowTold (words.write_file kernel.old (held_of held) number offset given.now) kernel.new) }
    ensures kept { IfOk result (λ attempt. KeepsUnlessGives attempt kernel.old kernel.new) }
{
    let Some(bytes) = kernel.files.get(number) else {
        return Ok(Attempt::fails(EBADF));
    };
    if given.len() == 0 {
        return Ok(Attempt::value(alloc, 0));
    }
    let place = write_place(held.1.flags, offset, bytes.as_slice());
    if place >= OFFSET_LIMIT || place + given.len() >= OFFSET_LIMIT {
        return Ok(Attempt::fails(EFBIG));
    }
    let end = place + given.len();
    let growth = end.saturating_sub(bytes.len());
    if !have_room(&kernel.files, growth as u64) {
        return Ok(Attempt::fails(ENOSPC));
    }
    put_at(&mut kernel.files, alloc, number, place, given)?;
    move_to(kernel, held, number, end as u32)?;
    Ok(Attempt::value(alloc, given.len() as u32))
}

fn write_place(flags: u32, offset: u32, bytes: &[u8]) -> usize
    ensures { result ≡ words.write_place flags offset bytes.now }
{
    if flags / O_APPEND % 2 == 1 {
        bytes.len()
    } else {
        offset as usize
    }
}

/// Whether all files together may have so many bytes more.
fn have_room(files: &NumberMap<ListOf<u8>>, growth: u64) -> bool
    ensures { result ≡ nat_le (words.total_bytes files.now + growth) limits.ALL_FILES_LIMIT }
{
    let mut room = ALL_FILES_LIMIT;
    for bytes in files.values() {
        let length = bytes.len() as u64;
        if length > room {
            return false;
        }
        room -= length;
    }
    growth <= room
}

fn put_at(
    files: &mut NumberMap<ListOf<u8>>,
    alloc: Global,
    number: u32,
    place: usize,
    piece: &[u8],
) -> Result<(), AllocError>
    requires { place < 2 ^ 32 }
    ensures { OnOk result (files.new ≡ changed_at files.old number (λ bytes. words.with_piece bytes place piece.now)) }
{
    match files.get_mut(number) {
        None => Ok(()),
        Some(bytes) => put_piece(bytes, alloc, place, piece),
    }
}
