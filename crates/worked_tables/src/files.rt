// The table of files and their names.
ghost use Rattle.std.specs.Prelude.{◌≤◌};

use crate::asserting::holds;
use std::alloc::{AllocError, AllocGlobal, Global};
use std::process::Abort;
use sys_abi::Transfer;
use sys_abi::flags::{O_CREAT, O_EXCL};
use vfs_files::limits::TOTAL_LIMIT;
use vfs_files::{FileFault, Files};

/// Writes into the file 1; `NoEntry` where it is not there.
fn write(files: &mut Files, at: u32, bytes: &[u8]) -> Result<(), FileFault> {
    if files.bytes(1).is_none() {
        return Err(FileFault::NoEntry);
    }
    files.write_at(1, at, bytes)
}

/// Whether a reading of the file 1 gives these bytes.
fn reads(files: &Files, at: u32, count: u32, xfer: &mut Transfer, want: &[u8]) -> bool
    requires { count ≤ 65536 }
{
    files.read_at(1, at, count, xfer);
    xfer.as_slice() == want
}

/// Whether new files get one with these bytes under the number 1 and the name `a`.
fn is_made(files: &mut Files, bytes: &[u8]) -> bool {
    files.open_file(b"a", O_CREAT) == Ok(1) && write(files, 0, bytes).is_ok()
}

fn are_opened(files: &mut Files) -> bool {
    files.open_file(b"a", 0) == Err(FileFault::NoEntry)
        && files.open_file(b"a", O_EXCL) == Err(FileFault::NoEntry)
        && files.open_file(b"a", O_CREAT | O_EXCL) == Ok(1)
        && files.open_file(b"a", O_CREAT | O_EXCL) == Err(FileFault::Exists)
        && files.open_file(b"a", O_CREAT) == Ok(1)
        && files.open_file(b"b", O_CREAT) == Ok(2)
        && files.open_file(b"b", 0) == Ok(2)
        && files.next_file() == 3
        && files.name(2) == Some(b"b".as_slice())
        && files.name(3).is_none()
        && files.next_above(0) == Some(1)
        && files.next_above(2).is_none()
}

/// Whether three readings, one after the other by the same transfer, give what was written.
fn are_read(alloc: Global, files: &Files) -> bool {
    match Transfer::new(alloc) {
        Ok(mut xfer) => {
            reads(files, 5, 2, &mut xfer, b"me")
                && reads(files, 8, 65536, &mut xfer, b"\0!")
                && reads(files, 10, 1, &mut xfer, b"")
        }
        Err(_) => false,
    }
}

fn are_written(alloc: Global, files: &mut Files) -> bool {
    let are_whole = is_made(files, b"hello")
        && files.bytes(1) == Some(b"hello".as_slice())
        && write(files, 3, b"p me").is_ok()
        && write(files, 9, b"!").is_ok()
        && files.bytes(1) == Some(b"help me\0\0!".as_slice())
        && files.len(1) == Some(10)
        && are_read(alloc, files);
    files.truncate(1);
    are_whole && files.len(1) == Some(0)
}

fn are_limited(files: &mut Files) -> bool {
    is_made(files, b"x")
        && write(files, TOTAL_LIMIT as u32, b"y") == Err(FileFault::Space)
        && write(files, 0xFFFF_FFFF, b"").is_ok()
        && files.count() == 1
        && files.total() == 1
        && files.bytes(1) == Some(b"x".as_slice())
}

fn is_unlinked(files: &mut Files) -> bool {
    let is_kept = is_made(files, b"kept")
        && files.unlink(b"b") == Err(FileFault::NoEntry)
        && files.unlink(b"a") == Ok(1)
        && files.unlink(b"a") == Err(FileFault::NoEntry)
        && files.bytes(1) == Some(b"kept".as_slice())
        && files.name(1) == Some(b"".as_slice())
        && files.open_file(b"a", O_CREAT) == Ok(2);
    files.forget(1);
    files.whole();
    is_kept && files.bytes(1).is_none() && files.len(2) == Some(0)
}

/// Puts a file back under the number 7, and sets the next number to the last one.
fn put_back(alloc: Global, name: &[u8]) -> Result<Files, AllocError> {
    let mut files = Files::new(alloc);
    files.set_next(8);
    files.restore(7, name, b"siete")?;
    files.set_next(0xFFFF_FFFF);
    Ok(files)
}

fn is_back(files: &mut Files) -> bool {
    files.name(7) == Some(b"seven".as_slice())
        && files.next_above(3) == Some(7)
        && files.open_file(b"seven", 0) == Ok(7)
        && files.open_file(b"new", O_CREAT) == Err(FileFault::Space)
}

/// Whether 1,024 files are made, which get the numbers from 1 on, and no more until one is forgotten.
fn is_full(files: &mut Files) -> bool {
    let mut all = true;
    for number in 0..1024u32 {
        all &= files.open_file(&number.to_be_bytes(), O_CREAT) == Ok(number + 1);
    }
    let is_refused = all
        && files.open_file(b"one more", O_CREAT) == Err(FileFault::Space)
        && files.open_file(&[0, 0, 3, 255], O_CREAT) == Ok(1024);
    files.forget(1024);
    is_refused && files.open_file(b"one more", O_CREAT) == Ok(1025)
}

/// What is shown of files. They are new, or one was put back without a name or with one.
#[derive(Clone, Copy)]
enum Case {
    Opened,
    Written,
    Limited,
    Unlinked,
    Nameless,
    Named,
    Full,
}

/// The files with which the case begins.
fn files_of(alloc: Global, case: Case) -> Result<Files, AllocError> {
    match case {
        Case::Nameless => put_back(alloc, b""),
        Case::Named => put_back(alloc, b"seven"),
        _ => Ok(Files::new(alloc)),
    }
}

/// Whether each call of the case answers as it is to.
fn answers(alloc: Global, files: &mut Files, case: Case) -> bool {
    match case {
        Case::Opened => are_opened(files),
        Case::Written => are_written(alloc, files),
        Case::Limited => are_limited(files),
        Case::Unlinked => is_unlinked(files),
        Case::Nameless => files.bytes(7) == Some(b"siete".as_slice())
            && files.name(7) == Some(b"".as_slice()),
        Case::Named => is_back(files),
        Case::Full => is_full(files),
    }
}

fn follow(rt: &(impl Abort + AllocGlobal), case: Case) {
    let mut files = files_of(rt.alloc(), case).expect(rt, "memory for the files");
    holds(rt, answers(rt.alloc(), &mut files, case));
}

#[test]
fn files_are_opened_and_made(rt: HostRuntime) {
    follow(&rt, Case::Opened);
}

#[test]
fn bytes_are_written_and_read(rt: HostRuntime) {
    follow(&rt, Case::Written);
}

#[test]
fn no_byte_past_the_limits(rt: HostRuntime) {
    follow(&rt, Case::Limited);
}

#[test]
fn a_name_goes_while_its_file_is_open(rt: HostRuntime) {
    follow(&rt, Case::Unlinked);
}

#[test]
fn a_file_without_a_name_is_put_back(rt: HostRuntime) {
    follow(&rt, Case::Nameless);
}

#[test]
fn a_file_is_put_back_and_numbers_end(rt: HostRuntime) {
    follow(&rt, Case::Named);
}

#[test]
fn there_are_1024_files_at_most(rt: HostRuntime) {
    follow(&rt, Case::Full);
}
