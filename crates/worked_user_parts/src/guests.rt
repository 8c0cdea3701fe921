// What no clause can say: that calls succeed with memory to spare; and a new thread at values worked out by
// hand. The program was put together by hand: seven instructions and two calls, on one page.
use crate::steps::{NEW, Step, THREAD, WORD, go_on, started};
use guest_proc::Guest;
use std::alloc::{AllocError, Global};
use std::process::Abort;
use std::test::Fail;

/// Writes `hello` by two calls, from one segment that is the whole file, at 0x10000. The code begins at byte
/// 84: `addi a0, zero, 1`, `auipc a1, 0`, `addi a1, a1, 32`, `addi a2, zero, 6`, `addi a7, zero, 64`,
/// `ecall`, `addi a0, zero, 0`, `addi a7, zero, 94`, `ecall`.
static HELLO: [u8; 126] = [
    0x7F, 0x45, 0x4C, 0x46, 0x01, 0x01, 0x01, 0x00, 0x00, 0x00, 0x00, 0x00, 0x00, 0x00, 0x00, 0x00,
    0x02, 0x00, 0xF3, 0x00, 0x01, 0x00, 0x00, 0x00, 0x54, 0x00, 0x01, 0x00, 0x34, 0x00, 0x00, 0x00,
    0x00, 0x00, 0x00, 0x00, 0x00, 0x00, 0x00, 0x00, 0x34, 0x00, 0x20, 0x00, 0x01, 0x00, 0x00, 0x00,
    0x00, 0x00, 0x00, 0x00, 0x01, 0x00, 0x00, 0x00, 0x00, 0x00, 0x00, 0x00, 0x00, 0x00, 0x01, 0x00,
    0x00, 0x00, 0x01, 0x00, 0x7E, 0x00, 0x00, 0x00, 0x7E, 0x00, 0x00, 0x00, 0x05, 0x00, 0x00, 0x00,
    0x00, 0x10, 0x00, 0x00, 0x13, 0x05, 0x10, 0x00, 0x97, 0x05, 0x00, 0x00, 0x93, 0x85, 0x05, 0x02,
    0x13, 0x06, 0x60, 0x00, 0x93, 0x08, 0x00, 0x04, 0x73, 0x00, 0x00, 0x00, 0x13, 0x05, 0x00, 0x00,
    0x93, 0x08, 0xE0, 0x05, 0x73, 0x00, 0x00, 0x00, 0x68, 0x65, 0x6C, 0x6C, 0x6F, 0x0A,
];

/// The start of that program.
pub fn hello(alloc: Global) -> Result<Guest, Fail> {
    started(alloc, &HELLO, b"hello\0")
}

/// Each step answers so, from the start of that program on.
pub fn follow(rt: &(impl Abort + AllocGlobal), steps: &[Step]) -> Result<(), Fail> {
    let mut guest = hello(rt.alloc())?;
    go_on(rt, &mut guest, steps);
    Ok(())
}

fn copy_of(alloc: Global, guest: &Guest) -> Result<Guest, AllocError> {
    let image = guest.image(alloc)?;
    Guest::of_image(alloc, image)
}

static COPIED: [Step; 2] = [Step::Pid(40_000), Step::Pages(66)];

static RUN: [Step; 1] = [Step::Run(THREAD, 100, (5, true))];

#[test]
fn the_guest_of_an_image_runs_on_the_same(rt: HostRuntime) -> Result<(), Fail> {
    let mut guest = hello(rt.alloc())?;
    let mut copy = copy_of(rt.alloc(), &guest)?;
    go_on(&rt, &mut copy, &COPIED);
    go_on(&rt, &mut guest, &RUN);
    go_on(&rt, &mut copy, &RUN);
    Ok(())
}

/// The new thread stands behind the instruction at which its caller does.
static CLONED: [Step; 9] = [
    Step::AddThread,
    Step::Register(THREAD, 2, 0x7FFF_FFE0),
    Step::Register(NEW, 2, 0x7FFF_8000),
    Step::Register(NEW, 4, 0x1234),
    Step::Register(NEW, 10, 0),
    Step::Counter(THREAD, 0x10054),
    Step::Counter(NEW, 0x10058),
    Step::ClearTid(NEW, WORD),
    Step::NextThread(40_000, Some(NEW)),
];

#[test]
fn a_clone_makes_a_thread(rt: HostRuntime) -> Result<(), Fail> {
    follow(&rt, &CLONED)
}
