// Calls that open and unlink files, and what each leaves.
use crate::kernels::{Call, Change, Look};
use crate::steps::{Step, follow};
use std::test::Fail;
use sys_abi::errors::{
    EBADF, EEXIST, EINVAL, EMFILE, ENAMETOOLONG, ENFILE, ENOENT, ENOSPC, ESPIPE,
};
use sys_abi::flags::{
    AT_FDCWD, O_APPEND, O_CLOEXEC, O_CREAT, O_EXCL, O_NONBLOCK, O_RDWR, O_TRUNC, O_WRONLY,
};
use sys_abi::{Errno, Reply};

/// A path without a zero byte.
const LONG: [u8; 256] = [b'a'; 256];

const TOO_LONG: Reply = Reply::Error(Errno(ENAMETOOLONG));

const NO_FILE: Reply = Reply::Error(Errno(ENOENT));

const NO_SPACE: Reply = Reply::Error(Errno(ENOSPC));

const NO_NUMBER: Reply = Reply::Error(Errno(ENFILE));

const BAD: Reply = Reply::Error(Errno(EBADF));

const INVALID: Reply = Reply::Error(Errno(EINVAL));

static OPENS: [Step; 13] = [
    Step::Ask(Call::Open(0, &LONG, 3), BAD),
    Step::Ask(Call::Open(AT_FDCWD - 1, b"a\0", 0), BAD),
    Step::Ask(Call::Open(AT_FDCWD, &LONG, 3), TOO_LONG),
    Step::Ask(Call::Open(AT_FDCWD, b"a", 3), TOO_LONG),
    Step::Ask(Call::Open(AT_FDCWD, b"\0a\0", 3), NO_FILE),
    Step::Ask(Call::Open(AT_FDCWD, b"a\0", 3 + O_CREAT), INVALID),
    Step::Ask(Call::Open(AT_FDCWD, b"a\0", O_EXCL), NO_FILE),
    Step::Ask(
        Call::Open(AT_FDCWD, b"a\0", O_CREAT + O_EXCL),
        Reply::Value(3),
    ),
    Step::Ask(
        Call::Open(AT_FDCWD, b"a\0", O_CREAT + O_EXCL),
        Reply::Error(Errno(EEXIST)),
    ),
    Step::Ask(Call::Open(AT_FDCWD, b"a\0b\0", O_EXCL), Reply::Value(4)),
    Step::Ask(Call::Open(AT_FDCWD, b"a/b\0", O_CREAT), Reply::Value(5)),
    Step::Ask(Call::Open(AT_FDCWD, b"a\0", O_CREAT), Reply::Value(6)),
    Step::See(Look::Counts([10, 6, 2, 2])),
];

#[test]
fn errors_of_openat(rt: HostRuntime) -> Result<(), Fail> {
    follow(&rt, &OPENS)
}

/// A name of 255 bytes, as four lines of 64, of which the last one ends in a zero byte.
const NAME: &[u8] = b"aaaaaaaaaaaaaaaaaaaaaaaaaaaaaaaaaaaaaaaaaaaaaaaaaaaaaaaaaaaaaaaa\
    aaaaaaaaaaaaaaaaaaaaaaaaaaaaaaaaaaaaaaaaaaaaaaaaaaaaaaaaaaaaaaaa\
    aaaaaaaaaaaaaaaaaaaaaaaaaaaaaaaaaaaaaaaaaaaaaaaaaaaaaaaaaaaaaaaa\
    aaaaaaaaaaaaaaaaaaaaaaaaaaaaaaaaaaaaaaaaaaaaaaaaaaaaaaaaaaaaaaa\0";

static LONG_NAME: [Step; 1] = [Step::Ask(Call::Open(AT_FDCWD, NAME, O_CREAT), Reply::Value(3))];

#[test]
fn a_name_of_255_bytes(rt: HostRuntime) -> Result<(), Fail> {
    follow(&rt, &LONG_NAME)
}

static NO_DESCRIPTOR: [Step; 5] = [
    Step::Put(Change::FillDescriptors),
    Step::Ask(Call::Open(AT_FDCWD, b"a\0", 0), Reply::Error(Errno(EMFILE))),
    Step::Put(Change::Made(0xFFFF_FFFC)),
    Step::Ask(Call::Open(AT_FDCWD, b"a\0", 0), NO_NUMBER),
    Step::Ask(Call::Open(AT_FDCWD, b"a\0", 3), INVALID),
];

#[test]
fn no_number_comes_before_no_descriptor(rt: HostRuntime) -> Result<(), Fail> {
    follow(&rt, &NO_DESCRIPTOR)
}

static LAST_NUMBER: [Step; 5] = [
    Step::Put(Change::AddFile),
    Step::Put(Change::Made(0xFFFF_FFFB)),
    Step::Ask(Call::Open(AT_FDCWD, b"a\0", 0), Reply::Value(3)),
    Step::See(Look::Number(3, 0xFFFF_FFFB)),
    Step::Ask(Call::Open(AT_FDCWD, b"a\0", 0), NO_NUMBER),
];

#[test]
fn the_last_number(rt: HostRuntime) -> Result<(), Fail> {
    follow(&rt, &LAST_NUMBER)
}

/// Flags that openat knows, and one that it doesn't.
const FLAGS: u32 = O_CREAT + O_RDWR + O_APPEND + O_NONBLOCK + O_CLOEXEC + 0x1000;

static OPEN_FLAGS: [Step; 9] = [
    Step::Ask(Call::Open(AT_FDCWD, b"a\0", FLAGS), Reply::Value(3)),
    Step::See(Look::Number(3, 1)),
    Step::See(Look::File(3, 1)),
    Step::See(Look::Mark(3, true)),
    Step::Ask(Call::Fcntl(3, 3, 0), Reply::Value(0xC02)),
    Step::Ask(Call::Open(AT_FDCWD, b"a\0", O_WRONLY), Reply::Value(4)),
    Step::See(Look::Number(4, 2)),
    Step::See(Look::Mark(4, false)),
    Step::Ask(Call::Fcntl(4, 3, 0), Reply::Value(1)),
];

#[test]
fn flags_of_an_open_file(rt: HostRuntime) -> Result<(), Fail> {
    follow(&rt, &OPEN_FLAGS)
}

static TRUNCATION: [Step; 5] = [
    Step::Put(Change::AddFile),
    Step::Ask(Call::Open(AT_FDCWD, b"a\0", O_CREAT), Reply::Value(3)),
    Step::See(Look::Length(3, 6)),
    Step::Ask(Call::Open(AT_FDCWD, b"a\0", O_TRUNC), Reply::Value(4)),
    Step::See(Look::Length(3, 0)),
];

#[test]
fn truncation_in_any_mode(rt: HostRuntime) -> Result<(), Fail> {
    follow(&rt, &TRUNCATION)
}

static SPACE: [Step; 6] = [
    Step::Put(Change::AddFile),
    Step::Put(Change::FillFiles(2, 1024)),
    Step::Ask(Call::Open(AT_FDCWD, b"b\0", O_CREAT), Reply::Value(3)),
    Step::Ask(Call::Open(AT_FDCWD, b"c\0", O_CREAT), NO_SPACE),
    Step::Ask(Call::Open(AT_FDCWD, b"c\0", 0), NO_FILE),
    Step::Ask(Call::Open(AT_FDCWD, b"a\0", O_CREAT), Reply::Value(4)),
];

#[test]
fn no_space_for_a_file(rt: HostRuntime) -> Result<(), Fail> {
    follow(&rt, &SPACE)
}

static LAST_FILE: [Step; 4] = [
    Step::Put(Change::NextFile(0xFFFF_FFFE)),
    Step::Ask(Call::Open(AT_FDCWD, b"a\0", O_CREAT), Reply::Value(3)),
    Step::See(Look::File(3, 0xFFFF_FFFE)),
    Step::Ask(Call::Open(AT_FDCWD, b"b\0", O_CREAT), NO_SPACE),
];

#[test]
fn no_number_for_a_file(rt: HostRuntime) -> Result<(), Fail> {
    follow(&rt, &LAST_FILE)
}

static UNLINKS: [Step; 10] = [
    Step::Put(Change::AddFile),
    Step::Ask(Call::Unlink(0, b"b\0", 1), BAD),
    Step::Ask(Call::Unlink(AT_FDCWD, &LONG, 1), INVALID),
    Step::Ask(Call::Unlink(AT_FDCWD, &LONG, 0), TOO_LONG),
    Step::Ask(Call::Unlink(AT_FDCWD, b"b\0", 0), NO_FILE),
    Step::Ask(Call::Unlink(AT_FDCWD, b"\0", 0), NO_FILE),
    Step::Ask(Call::Unlink(AT_FDCWD, b"a", 0), TOO_LONG),
    Step::Ask(Call::Unlink(AT_FDCWD, b"a\0", 0), Reply::Value(0)),
    Step::Ask(Call::Unlink(AT_FDCWD, b"a\0", 0), NO_FILE),
    Step::See(Look::Counts([6, 2, 0, 0])),
];

#[test]
fn errors_of_unlinkat(rt: HostRuntime) -> Result<(), Fail> {
    follow(&rt, &UNLINKS)
}

static WITHOUT_NAME: [Step; 10] = [
    Step::Put(Change::AddFile),
    Step::Ask(Call::Open(AT_FDCWD, b"a\0", 0), Reply::Value(3)),
    Step::Ask(Call::Open(AT_FDCWD, b"a\0", 0), Reply::Value(4)),
    Step::Ask(Call::Unlink(AT_FDCWD, b"a\0", 0), Reply::Value(0)),
    Step::Ask(Call::Close(3), Reply::Value(0)),
    Step::See(Look::Length(4, 6)),
    Step::Ask(Call::Open(AT_FDCWD, b"a\0", O_CREAT), Reply::Value(3)),
    Step::See(Look::File(3, 2)),
    Step::Ask(Call::Close(4), Reply::Value(0)),
    Step::See(Look::Counts([7, 3, 1, 1])),
];

#[test]
fn an_open_file_outlives_its_name(rt: HostRuntime) -> Result<(), Fail> {
    follow(&rt, &WITHOUT_NAME)
}

static SEEKS: [Step; 17] = [
    Step::Put(Change::AddFile),
    Step::Ask(Call::Open(AT_FDCWD, b"a\0", 0), Reply::Value(3)),
    Step::Ask(Call::Lseek(7, 0, 3), BAD),
    Step::Ask(Call::Lseek(0, 0, 3), Reply::Error(Errno(ESPIPE))),
    Step::Ask(Call::Lseek(3, 0, 3), INVALID),
    Step::Ask(Call::Lseek(3, 4, 0), Reply::Value(4)),
    Step::Ask(Call::Lseek(3, 0xFFFF_FFFF, 1), Reply::Value(3)),
    Step::Ask(Call::Lseek(3, 0xFFFF_FFFC, 1), INVALID),
    Step::Ask(Call::Lseek(3, 0xFFFF_FFFF, 0), INVALID),
    Step::Ask(Call::Lseek(3, 0, 1), Reply::Value(3)),
    Step::Ask(Call::Lseek(3, 0, 2), Reply::Value(6)),
    Step::Ask(Call::Lseek(3, 0x7FFF_FFFF, 0), Reply::Value(0x7FFF_FFFF)),
    Step::Ask(Call::Lseek(3, 1, 1), INVALID),
    Step::Ask(Call::Lseek(3, 0x7FFF_FFFA, 2), INVALID),
    Step::Ask(Call::Lseek(3, 0x7FFF_FFF9, 2), Reply::Value(0x7FFF_FFFF)),
    Step::Ask(Call::Lseek(3, 0xFFFF_FFF9, 2), INVALID),
    Step::Ask(Call::Lseek(3, 0xFFFF_FFFA, 2), Reply::Value(0)),
];

#[test]
fn offsets_of_an_open_file(rt: HostRuntime) -> Result<(), Fail> {
    follow(&rt, &SEEKS)
}
