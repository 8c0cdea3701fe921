ghost use Rattle.std.specs.Prelude.{◌≡◌, ◌+◌, ◌^◌, ◌<◌, ◌≤◌, ◌==◌, Some, None, [], length, position, IfSome, IfOk, IsOk, OnOk, if◌then◌else◌};
ghost use Rattle.plain_machine.specs.Answers.{attempt_told, RowTold, KeepsUnlessGives};
ghost use Rattle.plain_tables.specs.declared.description.Object.TheVariants.{File};
ghost use Rattle.plain_machine.specs.HeldTold.{held_of};
ghost use Rattle.plain_machine.specs.Kernel as words;
ghost use Rattle.plain_machine.specs.Rows.Files as rows;
ghost use Rattle.plain_machine.specs.Start.{with_file};
ghost use Rattle.plain_files.specs.Paths.{path_told};

use plain_machine::PlainKernel;
use plain_machine::descriptors::Held;
use plain_tables::answer::{Attempt, RowResult};
use plain_tables::closing::drop_unkept;
use plain_tables::description::{Description, Object};
use std::alloc::{AllocError, Global};
use sys_abi::errors::{
    EBADF, EEXIST, EINVAL, EMFILE, ENAMETOOLONG, ENFILE, ENOENT, ENOSPC, ESPIPE,
};
use sys_abi::flags::{AT_FDCWD, O_CLOEXEC, O_CREAT, O_EXCL, O_TRUNC};
use sys_abi::{DescId, Descriptor, VPid};
use views::list_of::ListOf;

/// How many bytes a path has at most, its zero byte included.
const PATH_LIMIT: usize = 256;

/// How many files there are at most.
const FILE_LIMIT: usize = 1024;

/// Files' numbers are below this one.
const LAST_FILE: u32 = 0xFFFF_FFFF;

/// Offsets are below this one.
const OFFSET_LIMIT: u64 = 0x8000_0000;

/// The access mode, O_APPEND and O_NONBLOCK.
const STATUS_FLAGS: u32 = 0xC03;

/// unlinkat (`man 2 unlinkat`), of this path. Takes no memory.
#[tactic(auto, unfolding(plain_machine::specs::Rows::Files::unlinkat_row, plain_process::specs::Attempts::and_then, plain_process::specs::Attempts::need, plain_process::specs::Attempts::found))]
pub fn unlinkat(
    kernel: &mut PlainKernel,
    alloc: Global,
    p: VPid,
    directory: u32,
    flags: u32,
    given: &[u8],
) -> RowResult
    ensures row { IfOk result (λ attempt.
        rows.unlinkat_row kernel.old p directory flags given.now ≡ attempt_told kernel.new given.now attempt) }
    ensures kept { IfOk result (λ attempt. KeepsUnlessGives attempt kernel.old kernel.new) }
    ensures memory { IsOk result }
{
    if directory != AT_FDCWD {
        return Ok(Attempt::fails(EBADF));
    }
    if flags != 0 {
        return Ok(Attempt::fails(EINVAL));
    }
    let Some(end) = path_end(given) else {
        return Ok(Attempt::fails(ENAMETOOLONG));
    };
    let name = &given[..end];
    let Some(number) = kernel.names.get(name).copied() else {
        return Ok(Attempt::fails(ENOENT));
    };
    kernel.names.remove(name);
    drop_unkept(
        &kernel.names,
        &kernel.descriptions,
        &mut kernel.files,
        number,
    );
    Ok(Attempt::value(alloc, 0))
}

/// Where the path ends, which is before its first zero byte; ENAMETOOLONG where that is too far.
#[tactic(auto, unfolding(plain_machine::specs::Rows::Files::path_of, plain_process::specs::Attempts::and_then, plain_process::specs::Attempts::need, plain_process::specs::Attempts::found))]
fn path_end(given: &[u8]) -> Option<usize>
    ensures value { rows.path_of given.now ≡ path_told given.now result }
    ensures inside { IfSome result (λ end. end ≤ length given.now) }
{
    let Some(end) = first_zero(given) else {
        return None;
    };
    if end >= PATH_LIMIT {
        return None;
    }
    Some(end)
}

fn first_zero(bytes: &[u8]) -> Option<usize>
    ensures value { result ≡ position (λ byte. byte == 0) bytes.now }
    ensures inside { IfSome result (λ place. place < length bytes.now) }
{
    bytes.iter().position(|byte| *byte == 0)
}

/// openat (`man 2 openat`), of this path.
#[tactic(auto, unfolding(plain_machine::specs::Rows::Files::openat_row, plain_process::specs::Attempts::and_then, plain_process::specs::Attempts::need, plain_process::specs::Attempts::refuse_if, plain_process::specs::Attempts::found))]
pub fn openat(
    kernel: &mut PlainKernel,
    alloc: Global,
    p: VPid,
    directory: u32,
    flags: u32,
    given: &[u8],
) -> RowResult
    ensures row { IfOk result (λ attempt.
        rows.openat_row kernel.old p directory flags given.now ≡ attempt_told kernel.new given.now attempt) }
    ensures kept { IfOk result (λ attempt. KeepsUnlessGives attempt kernel.old kernel.new) }
{
    if directory != AT_FDCWD {
        return Ok(Attempt::fails(EBADF));
    }
    let Some(end) = path_end(given) else {
        return Ok(Attempt::fails(ENAMETOOLONG));
    };
    let name = &given[..end];
    if name.len() == 0 {
        return Ok(Attempt::fails(ENOENT));
    }
    if flags % 4 == 3 {
        return Ok(Attempt::fails(EINVAL));
    }
    if !kernel.has_numbers(p) {
        return Ok(Attempt::fails(ENFILE));
    }
    let Some(fd) = kernel.free_from(p, 0) else {
        return Ok(Attempt::fails(EMFILE));
    };
    match kernel.names.get(name).copied() {
        None => create(kernel, alloc, p, name, flags, fd),
        Some(number) => open(kernel, alloc, p, name, flags, fd, number),
    }
}

/// Opens a file that is made for it.
#[tactic(auto, unfolding(plain_machine::specs::Rows::Files::open_at, plain_machine::specs::Rows::Files::may_open, plain_machine::specs::Start::with_file, plain_process::specs::Attempts::and_then, plain_process::specs::Attempts::need))]
fn create(
    kernel: &mut PlainKernel,
    alloc: Global,
    p: VPid,
    name: &[u8],
    flags: u32,
    fd: u32,
) -> RowResult
    requires { words.made_of kernel.old p + 1 < 2 ^ 32 }
    ensures row { IfOk result (RowTold (rows.open_at kernel.old p name.now flags fd None) kernel.new) }
    ensures kept { IfOk result (λ attempt. KeepsUnlessGives attempt kernel.old kernel.new) }
{
    if flags / O_CREAT % 2 == 0 {
        return Ok(Attempt::fails(ENOENT));
    }
    if kernel.files.len() >= FILE_LIMIT || kernel.next_file >= LAST_FILE {
        return Ok(Attempt::fails(ENOSPC));
    }
    let number = kernel.next_file;
    make_file(kernel, alloc, name)?;
    open_file(kernel, p, flags, fd, number)?;
    Ok(Attempt::value(alloc, fd))
}

/// An empty file under a new name. After want of memory the kernel part may be any.
#[tactic(auto, unfolding(plain_machine::specs::Start::with_file))]
fn make_file(kernel: &mut PlainKernel, alloc: Global, name: &[u8]) -> Result<(), AllocError>
    requires { kernel.old.next_file + 1 < 2 ^ 32 }
    ensures { OnOk result (kernel.new ≡ with_file kernel.old (record { name = name.now; bytes = [] })) }
{
    let number = kernel.next_file;
    let name = ListOf::from_vec(name.to_vec(alloc)?);
    kernel.names.insert(name, number)?;
    kernel.files.insert(number, ListOf::new(alloc))?;
    kernel.next_file = number + 1;
    Ok(())
}

/// Opens a file that is there.
#[tactic(auto, unfolding(plain_machine::specs::Rows::Files::open_at, plain_machine::specs::Rows::Files::may_open, plain_process::specs::Attempts::and_then, plain_process::specs::Attempts::refuse_if))]
fn open(
    kernel: &mut PlainKernel,
    alloc: Global,
    p: VPid,
    name: &[u8],
    flags: u32,
    fd: u32,
    number: u32,
) -> RowResult
    requires { words.made_of kernel.old p + 1 < 2 ^ 32 }
    ensures row { IfOk result (RowTold
        (rows.open_at kernel.old p name.now flags fd (Some number)) kernel.new) }
    ensures kept { IfOk result (λ attempt. KeepsUnlessGives attempt kernel.old kernel.new) }
{
    if flags / O_CREAT % 2 == 1 && flags / O_EXCL % 2 == 1 {
        return Ok(Attempt::fails(EEXIST));
    }
    empty_if(kernel, alloc, number, flags / O_TRUNC % 2 == 1)?;
    open_file(kernel, p, flags, fd, number)?;
    Ok(Attempt::value(alloc, fd))
}

/// A new description of the file, at its start. After want of memory the kernel part may be any.
fn open_file(
    kernel: &mut PlainKernel,
    p: VPid,
    flags: u32,
    fd: u32,
    number: u32,
) -> Result<(), AllocError>
    requires { words.made_of kernel.old p + 1 < 2 ^ 32 }
    ensures { OnOk result (kernel.new ≡ rows.with_open_file kernel.old p fd flags number) }
{
    let descriptor = Descriptor {
        desc: DescId {
            pid: p,
            num: kernel.made_of(p),
        },
        cloexec: flags / O_CLOEXEC % 2 == 1,
    };
    kernel.count_made(p, 1)?;
    let object = Object::File { number, offset: 0 };
    kernel.place(p, fd, descriptor, object, flags & STATUS_FLAGS)
}

/// The file becomes empty, if that is wanted. After want of memory the kernel part may be any.
fn empty_if(
    kernel: &mut PlainKernel,
    alloc: Global,
    number: u32,
    is_wanted: bool,
) -> Result<(), AllocError>
    ensures { OnOk result
        (kernel.new ≡ (if is_wanted then rows.with_file_bytes kernel.old number [] else kernel.old)) }
{
    if !is_wanted {
        return Ok(());
    }
    kernel.files.insert(number, ListOf::new(alloc))?;
    Ok(())
}

/// lseek (`man 2 lseek`).
#[tactic(auto, unfolding(plain_machine::specs::Rows::Files::lseek_row, plain_machine::specs::Rows::Files::seek, plain_process::specs::Attempts::and_then))]
pub fn lseek(
    kernel: &mut PlainKernel,
    alloc: Global,
    p: VPid,
    fd: u32,
    offset: u32,
    whence: u32,
) -> RowResult
    ensures row { IfOk result (RowTold (rows.lseek_row kernel.old p fd offset whence) kernel.new) }
    ensures kept { IfOk result (λ attempt. KeepsUnlessGives attempt kernel.old kernel.new) }
{
    let Some(held) = kernel.held_at(p, fd) else {
        return Ok(Attempt::fails(EBADF));
    };
    match held.1.object {
        Object::File { number, offset: at } => {
            seek(kernel, alloc, held, number, at, offset, whence)
        }
        _ => Ok(Attempt::fails(ESPIPE)),
    }
}

/// Moves the offset of an open file.
#[tactic(auto, unfolding(plain_machine::specs::Rows::Files::seek, plain_process::specs::Attempts::and_then, plain_process::specs::Attempts::found))]
fn seek(
    kernel: &mut PlainKernel,
    alloc: Global,
    held: Held,
    number: u32,
    at: u32,
    offset: u32,
    whence: u32,
) -> RowResult
    ensures row { IfOk result (RowTold
        (rows.seek kernel.old (held_of held) offset whence (File number at)) kernel.new) }
    ensures kept { IfOk result (λ attempt. KeepsUnlessGives attempt kernel.old kernel.new) }
{
    let Some(start) = seek_start(whence, at, file_size(kernel, number)) else {
        return Ok(Attempt::fails(EINVAL));
    };
    let Some(place) = moved_by(offset, start) else {
        return Ok(Attempt::fails(EINVAL));
    };
    let (descriptor, description) = held;
    let object = Object::File {
        number,
        offset: place,
    };
    kernel.put_description(
        descriptor.desc,
        Description {
            object,
            ..description
        },
    )?;
    Ok(Attempt::value(alloc, place))
}

/// How many bytes the file has, none where it is not there.
fn file_size(kernel: &PlainKernel, number: u32) -> usize
    ensures { result ≡ rows.file_size kernel.now number }
{
    match kernel.files.get(number) {
        Some(bytes) => bytes.len(),
        None => 0,
    }
}

/// Where an offset counts from: the start, the place of the next read or write, or the end.
fn seek_start(whence: u32, offset: u32, size: usize) -> Option<u64>
    ensures { result ≡ rows.seek_start whence offset size }
{
    match whence {
        0 => Some(0),
        1 => Some(offset as u64),
        2 => Some(size as u64),
        _ => None,
    }
}

/// The place that a signed number leads to, where it is not below zero and not too far.
#[tactic(auto, unfolding(plain_machine::specs::Rows::Files::place_moved))]
fn moved_by(offset: u32, start: u64) -> Option<u32>
    ensures { result ≡ rows.place_moved offset start }
{
    if start >= 0x1_0000_0000 {
        return None;
    }
    let sum = start + offset as u64;
    if offset < 0x8000_0000 {
        return in_reach(sum);
    }
    if sum < 0x1_0000_0000 {
        return None;
    }
    in_reach(sum - 0x1_0000_0000)
}

fn in_reach(place: u64) -> Option<u32>
    ensures { result ≡ rows.in_reach place }
{
    if place >= OFFSET_LIMIT {
        return None;
    }
    Some(place as u32)
}
