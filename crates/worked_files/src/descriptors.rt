// Calls on descriptors, and what each leaves.
use crate::kernels::{Call, Change, Look};
use crate::steps::{Step, follow};
use plain_machine::FIRST_PID;
use std::test::Fail;
use sys_abi::errors::{EBADF, EINVAL, EMFILE, ESRCH};
use sys_abi::flags::{AT_FDCWD, O_CLOEXEC, O_CREAT, O_NONBLOCK, O_RDWR};
use sys_abi::{Errno, Reply};

const BAD: Reply = Reply::Error(Errno(EBADF));

const INVALID: Reply = Reply::Error(Errno(EINVAL));

const NO_PROCESS: Reply = Reply::Error(Errno(ESRCH));

const TOO_MANY: Reply = Reply::Error(Errno(EMFILE));

static LEAST: [Step; 7] = [
    Step::Ask(Call::Dup(7), BAD),
    Step::Ask(Call::Dup(0), Reply::Value(3)),
    Step::Ask(Call::Dup(3), Reply::Value(4)),
    Step::Ask(Call::Close(0), Reply::Value(0)),
    Step::Ask(Call::Dup(4), Reply::Value(0)),
    Step::See(Look::Mark(0, false)),
    Step::See(Look::Counts([8, 2, 0, 0])),
];

#[test]
fn the_free_descriptor_is_the_least(rt: HostRuntime) -> Result<(), Fail> {
    follow(&rt, &LEAST)
}

static NONE_FREE: [Step; 5] = [
    Step::Put(Change::FillDescriptors),
    Step::Ask(Call::Dup(0), TOO_MANY),
    Step::Ask(Call::Dup(256), BAD),
    Step::Ask(Call::Close(255), Reply::Value(0)),
    Step::Ask(Call::Dup(0), Reply::Value(255)),
];

#[test]
fn no_descriptor_is_free(rt: HostRuntime) -> Result<(), Fail> {
    follow(&rt, &NONE_FREE)
}

static DUP3_ERRORS: [Step; 10] = [
    Step::Ask(Call::Dup3(7, 7, 1), BAD),
    Step::Ask(Call::Dup3(0, 0, 0), INVALID),
    Step::Ask(Call::Dup3(0, 5, O_CLOEXEC + 1), INVALID),
    Step::Ask(Call::Dup3(0, 256, O_NONBLOCK), INVALID),
    Step::Ask(Call::Dup3(0, 256, 0), BAD),
    Step::Ask(Call::Dup3(0, 0xFFFF_FFFF, O_CLOEXEC), BAD),
    Step::Ask(Call::Dup3(0, 255, O_CLOEXEC), Reply::Value(255)),
    Step::Ask(Call::Dup3(0, 5, 0), Reply::Value(5)),
    Step::See(Look::Mark(255, true)),
    Step::See(Look::Mark(5, false)),
];

#[test]
fn errors_of_dup3(rt: HostRuntime) -> Result<(), Fail> {
    follow(&rt, &DUP3_ERRORS)
}

static DUP3_CLOSES: [Step; 5] = [
    Step::Ask(
        Call::Open(AT_FDCWD, b"a\0", O_CREAT + O_RDWR),
        Reply::Value(3),
    ),
    Step::Ask(Call::Unlink(AT_FDCWD, b"a\0", 0), Reply::Value(0)),
    Step::See(Look::Counts([7, 3, 0, 1])),
    Step::Ask(Call::Dup3(0, 3, 0), Reply::Value(3)),
    Step::See(Look::Counts([7, 2, 0, 0])),
];

#[test]
fn dup3_closes_first(rt: HostRuntime) -> Result<(), Fail> {
    follow(&rt, &DUP3_CLOSES)
}

static COMMANDS: [Step; 32] = [
    Step::Ask(Call::Fcntl(7, 5, 256), BAD),
    Step::Ask(Call::Fcntl(0, 0, 256), INVALID),
    Step::Ask(Call::Fcntl(0, 1030, 256), INVALID),
    Step::Ask(Call::Fcntl(0, 0, 5), Reply::Value(5)),
    Step::Ask(Call::Fcntl(0, 0, 5), Reply::Value(6)),
    Step::Ask(Call::Fcntl(0, 1030, 0), Reply::Value(3)),
    Step::Ask(Call::Fcntl(3, 1, 0), Reply::Value(1)),
    Step::Ask(Call::Fcntl(5, 1, 0), Reply::Value(0)),
    Step::Ask(Call::Fcntl(5, 2, 3), Reply::Value(0)),
    Step::Ask(Call::Fcntl(5, 1, 0), Reply::Value(1)),
    Step::Ask(Call::Fcntl(6, 1, 0), Reply::Value(0)),
    Step::Ask(Call::Fcntl(5, 2, 2), Reply::Value(0)),
    Step::Ask(Call::Fcntl(5, 1, 0), Reply::Value(0)),
    Step::Ask(Call::Fcntl(0, 3, 0), Reply::Value(2)),
    Step::Ask(Call::Fcntl(0, 4, 0xFFFF_FFFF), Reply::Value(0)),
    Step::Ask(Call::Fcntl(1, 3, 0), Reply::Value(0xC02)),
    Step::Ask(Call::Fcntl(0, 4, 0x401), Reply::Value(0)),
    Step::Ask(Call::Fcntl(5, 3, 0), Reply::Value(0x402)),
    Step::Ask(Call::Fcntl(0, 9, 0), Reply::Value(0)),
    Step::Ask(Call::Fcntl(0, 8, FIRST_PID), Reply::Value(0)),
    Step::Ask(Call::Fcntl(1, 9, 0), Reply::Value(FIRST_PID)),
    Step::Ask(Call::Fcntl(0, 8, FIRST_PID + 1), NO_PROCESS),
    Step::Ask(Call::Fcntl(0, 8, FIRST_PID + 2), NO_PROCESS),
    Step::Ask(Call::Fcntl(0, 8, 0xFFFF_FFFF), NO_PROCESS),
    Step::Ask(Call::Fcntl(0, 9, 0), Reply::Value(FIRST_PID)),
    Step::Ask(Call::Fcntl(0, 8, 0), Reply::Value(0)),
    Step::Ask(Call::Fcntl(0, 9, 0), Reply::Value(0)),
    Step::Ask(Call::Fcntl(0, 5, 0), INVALID),
    Step::Ask(Call::Fcntl(0, 10, 0), INVALID),
    Step::Ask(Call::Fcntl(0, 1031, 0), INVALID),
    Step::Ask(Call::Fcntl(0, 0, 255), Reply::Value(255)),
    Step::Ask(Call::Fcntl(0, 1030, 255), TOO_MANY),
];

#[test]
fn commands_of_fcntl(rt: HostRuntime) -> Result<(), Fail> {
    follow(&rt, &COMMANDS)
}

static LAST_CLOSES: [Step; 7] = [
    Step::Ask(Call::Close(3), BAD),
    Step::Ask(Call::Close(0), Reply::Value(0)),
    Step::Ask(Call::Close(0), BAD),
    Step::Ask(Call::Close(1), Reply::Value(0)),
    Step::See(Look::Counts([4, 2, 0, 0])),
    Step::Ask(Call::Close(2), Reply::Value(0)),
    Step::See(Look::Counts([3, 1, 0, 0])),
];

#[test]
fn the_last_descriptor_closes(rt: HostRuntime) -> Result<(), Fail> {
    follow(&rt, &LAST_CLOSES)
}
