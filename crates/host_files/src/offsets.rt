//! The offsets of open files (`man 2 lseek`).
ghost use Rattle.std.specs.Prelude.{◌≡◌, ℕ, List, Some, None};
ghost use Rattle.std.specs.FinMap as map;
ghost use Rattle.views.specs.Numbers.{Byte};
ghost use Rattle.fd_tables.specs.declared.description.Object.TheVariants.{File};
ghost use Rattle.plain_tables.specs.declared.description.Object.TheVariants as plain;
ghost use Rattle.plain_machine.specs.declared.kernel.PlainKernel.{PlainKernel};
ghost use Rattle.plain_machine.specs.Rows.Files as rows;
ghost use Rattle.plain_machine.specs.Transfers.Files.{moved_behind};
ghost use Rattle.host_descriptors.specs.OfHostTables.Serves.{Through, Serves, ByNumber, same};
ghost use Rattle.host_descriptors.specs.OfHostTables.Stands.{Given, Stands};
ghost use Rattle.host_descriptors.specs.Held.{seen_held};
ghost use Rattle.host_files.specs.Sizes.{size_in};

use fd_book::Object;
use host_descriptors::{Attempt, Held, Kernel, held_at};
use sys_abi::errors::{EBADF, EINVAL, ESPIPE};
use sys_abi::{Errno, RealPid};
use vfs_files::Files;

/// Offsets are below this one.
const OFFSET_LIMIT: u64 = 0x8000_0000;

/// lseek (`man 2 lseek`). Takes no memory.
pub fn lseek(kernel: &mut Kernel, who: RealPid, fd: u32, offset: u32, whence: u32) -> Attempt
    ensures { Through kernel.old who (λ g k p. (x : List Byte)
        → Serves ByNumber same g kernel.old kernel.new x x result (rows.lseek_row k p fd offset whence)) }
{
    kernel.book.whole();
    let Some(held) = held_at(&kernel.book, who, fd) else {
        return Attempt::Fails(Errno(EBADF));
    };
    match held.description.object {
        Object::File { number, offset: at } => seek(kernel, &held, number, at, offset, whence),
        _ => Attempt::Fails(Errno(ESPIPE)),
    }
}

/// Moves the offset of an open file.
fn seek(kernel: &mut Kernel, held: &Held, number: u32, at: u32, offset: u32, whence: u32) -> Attempt
    requires there { map.get kernel.old.book.descriptions held.now.desc ≡ Some held.now.description }
    requires file { held.now.description.object ≡ File number at }
    ensures { (g : Given) (k : PlainKernel) (x : List Byte) → Stands g None kernel.old k
        → Serves ByNumber same g kernel.old kernel.new x x result
        (rows.seek k (seen_held g kernel.old held.now) offset whence (plain.File number at)) }
{
    let Some(start) = seek_start(whence, at, file_size(&kernel.files, number)) else {
        return Attempt::Fails(Errno(EINVAL));
    };
    let Some(place) = moved_by(offset, start) else {
        return Attempt::Fails(Errno(EINVAL));
    };
    move_to(kernel, held, number, place);
    Attempt::Gives(place)
}

/// The description's offset is this one.
pub(crate) fn move_to(kernel: &mut Kernel, held: &Held, number: u32, offset: u32)
    requires there { map.get kernel.old.book.descriptions held.now.desc ≡ Some held.now.description }
    ensures { (g : Given) (k : PlainKernel) (at : ℕ) → Stands g None kernel.old k
        → held.now.description.object ≡ File number at
        → Stands g None kernel.new (moved_behind k (seen_held g kernel.old held.now) number offset) }
{
    kernel
        .book
        .set_object(held.desc, Object::File { number, offset });
}

/// How many bytes the file has, none where it is not there.
fn file_size(files: &Files, number: u32) -> u32
    ensures { result ≡ size_in files.now.files number }
{
    files.len(number).unwrap_or(0)
}

/// Where an offset counts from: the start, the place of the next read or write, or the end.
fn seek_start(whence: u32, offset: u32, size: u32) -> Option<u32>
    ensures { result ≡ rows.seek_start whence offset size }
{
    match whence {
        0 => Some(0),
        1 => Some(offset),
        2 => Some(size),
        _ => None,
    }
}

/// The place that a signed number leads to, where it is not below zero and not too far.
#[tactic(auto, unfolding(plain_machine::specs::Rows::Files::place_moved))]
fn moved_by(offset: u32, start: u32) -> Option<u32>
    ensures { result ≡ rows.place_moved offset start }
{
    let sum = start as u64 + offset as u64;
    if offset < 0x8000_0000 {
        return in_reach(sum);
    }
    if sum < 0x1_0000_0000 {
        return None;
    }
    in_reach(sum - 0x1_0000_0000)
}

fn in_reach(place: u64) -> Option<u32>
    ensures { result ≡ rows.in_reach place }
{
    if place >= OFFSET_LIMIT {
        return None;
    }
    Some(place as u32)
}
