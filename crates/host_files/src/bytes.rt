//! The bytes of open files (`man 2 read`, `man 2 write`).
ghost use Rattle.std.specs.Prelude.{◌≡◌, ◌<◌, ◌≤◌, ◌+◌, ◌^◌, ℕ, List, length, Some, None, IsSome, IfOk, OnErr, if◌then◌else◌};
ghost use Rattle.std.specs.FinMap as map;
ghost use Rattle.views.specs.Numbers.{Byte};
ghost use Rattle.sys_abi.specs.declared.transfer.TheConstants.{TRANSFER_LIMIT};
ghost use Rattle.sys_abi.specs.declared.flags.TheConstants.{O_APPEND};
ghost use Rattle.sys_abi.specs.Flags.{has_flag};
ghost use Rattle.fd_tables.specs.declared.description.Object.TheVariants.{File};
ghost use Rattle.plain_machine.specs.declared.kernel.PlainKernel.{PlainKernel};
ghost use Rattle.plain_machine.specs.Transfers.Files as words;
ghost use Rattle.host_descriptors.specs.OfHostTables.Serves.{Serves, ByNumber, same, bytes_or};
ghost use Rattle.host_descriptors.specs.OfHostTables.Stands.{Given, Stands};
ghost use Rattle.host_descriptors.specs.Held.{seen_held};

use crate::offsets::move_to;
use host_descriptors::{Attempt, Held, Kernel, RowResult};
use std::alloc::AllocError;
use sys_abi::errors::{EBADF, EFBIG, ENOSPC};
use sys_abi::flags::O_APPEND;
use sys_abi::{Errno, Transfer};
use vfs_files::FileFault;

/// Offsets are below this one.
const OFFSET_LIMIT: u64 = 0x8000_0000;

/// The greatest offset, up to which no file has bytes.
const LAST_OFFSET: u32 = 0x7FFF_FFFF;

/// A read of at most so many bytes of an open file, from the description's offset on. Takes no memory.
pub fn read_file(
    kernel: &mut Kernel,
    held: &Held,
    number: u32,
    offset: u32,
    count: u32,
    transfer: &mut Transfer,
) -> Attempt
    requires there { map.get kernel.old.book.descriptions held.now.desc ≡ Some held.now.description }
    requires file { held.now.description.object ≡ File number offset }
    requires few { count ≤ TRANSFER_LIMIT }
    ensures { (g : Given) (k : PlainKernel) → Stands g None kernel.old k
        → Serves ByNumber same g kernel.old kernel.new transfer.old transfer.new result
        (words.read_file k (seen_held g kernel.old held.now) number offset count) }
{
    let Some(bytes) = kernel.files.bytes(number) else {
        return Attempt::Fails(Errno(EBADF));
    };
    let taken = take_piece(bytes, offset, count, transfer);
    move_to(kernel, held, number, offset + taken);
    Attempt::Gives(taken)
}

/// Puts the bytes from an offset on into the transfer, at most so many and none behind the greatest offset,
/// and tells how many they are. Where there are none the transfer stays as it is.
fn take_piece(bytes: &[u8], offset: u32, count: u32, transfer: &mut Transfer) -> u32
    requires few { count ≤ TRANSFER_LIMIT }
    ensures length { result ≡ length (words.bytes_from bytes.now offset (words.read_room offset count)) }
    ensures fits { offset + result < 2 ^ 32 }
    ensures bytes { transfer.new
        ≡ bytes_or transfer.old (words.bytes_from bytes.now offset (words.read_room offset count)) }
{
    let room = LAST_OFFSET.saturating_sub(offset).min(count);
    let piece = piece_at(bytes, offset as usize, room as usize);
    put_in_place(transfer, piece);
    piece.len() as u32
}

/// The piece stands in the place of what the transfer held, unless it is empty.
fn put_in_place(transfer: &mut Transfer, piece: &[u8])
    requires { length piece.now ≤ TRANSFER_LIMIT }
    ensures { transfer.new ≡ bytes_or transfer.old piece.now }
{
    if piece.is_empty() {
        return;
    }
    transfer.clear();
    transfer.put(piece);
}

/// The bytes from a place on, at most so many.
fn piece_at(bytes: &[u8], place: usize, count: usize) -> &[u8]
    ensures value { result.now ≡ words.bytes_from bytes.now place count }
    ensures few { length result.now ≤ count }
{
    let start = place.min(bytes.len());
    let length = count.min(bytes.len() - start);
    &bytes[start..start + length]
}

/// A write of the transfer's bytes to an open file, at the description's offset or at the file's end.
pub fn write_file(
    kernel: &mut Kernel,
    held: &Held,
    number: u32,
    offset: u32,
    transfer: &Transfer,
) -> RowResult
    requires there { map.get kernel.old.book.descriptions held.now.desc ≡ Some held.now.description }
    requires file { held.now.description.object ≡ File number offset }
    ensures ok { IfOk result (λ a. (g : Given) (k : PlainKernel) → Stands g None kernel.old k
        → Serves ByNumber same g kernel.old kernel.new transfer.now transfer.now a
        (words.write_file k (seen_held g kernel.old held.now) number offset transfer.now)) }
    ensures err { OnErr result (kernel.new ≡ kernel.old) }
{
    let piece = transfer.as_slice();
    let Some(size) = kernel.files.len(number) else {
        return Ok(Attempt::Fails(Errno(EBADF)));
    };
    if piece.is_empty() {
        return Ok(Attempt::Gives(0));
    }
    let place = write_place(held.description.flags, offset, size);
    write_piece(kernel, held, number, place, piece)
}

/// Where a write begins.
fn write_place(flags: u32, offset: u32, size: u32) -> u32
    ensures { result ≡ (if has_flag flags O_APPEND then size else offset) }
{
    if flags / O_APPEND % 2 == 1 {
        size
    } else {
        offset
    }
}

/// A write of a piece that isn't empty.
fn write_piece(kernel: &mut Kernel, held: &Held, number: u32, place: u32, piece: &[u8]) -> RowResult
    requires there { map.get kernel.old.book.descriptions held.now.desc ≡ Some held.now.description }
    requires file { IsSome (map.get kernel.old.files.files number) }
    requires few { length piece.now ≤ TRANSFER_LIMIT }
    requires some { 0 < length piece.now }
    ensures ok { IfOk result (λ a. (g : Given) (k : PlainKernel) (at : ℕ) (bytes x : List Byte)
        → Stands g None kernel.old k → held.now.description.object ≡ File number at
        → map.get kernel.old.files.files number ≡ Some bytes
        → Serves ByNumber same g kernel.old kernel.new x x a
        (words.write_piece k (seen_held g kernel.old held.now) number place bytes piece.now)) }
    ensures err { OnErr result (kernel.new ≡ kernel.old) }
{
    let end = place as u64 + piece.len() as u64;
    if end >= OFFSET_LIMIT {
        return Ok(Attempt::Fails(Errno(EFBIG)));
    }
    match kernel.files.write_at(number, place, piece) {
        Ok(()) => {
            move_to(kernel, held, number, end as u32);
            Ok(Attempt::Gives(piece.len() as u32))
        }
        Err(FileFault::Space) => Ok(Attempt::Fails(Errno(ENOSPC))),
        Err(FileFault::NoEntry | FileFault::Exists | FileFault::Memory) => Err(AllocError),
    }
}
