// Programs that write their own code: the next instruction reads the word as the store left it, whoever
// stored it. Each was assembled by a stock assembler (binutils 2.40), for one page to read, write and
// execute.
use crate::steps::{NEW, Step, THREAD, go_on, started};
use call_table::Request;
use std::alloc::{AllocError, Global};
use std::process::Abort;
use std::test::Fail;

/// The head of a file of one segment, which is the whole file, at 0x10000; the program begins at 0x10054.
static HEAD: [u8; 84] = [
    0x7F, 0x45, 0x4C, 0x46, 0x01, 0x01, 0x01, 0x00, 0x00, 0x00, 0x00, 0x00, 0x00, 0x00, 0x00, 0x00,
    0x02, 0x00, 0xF3, 0x00, 0x01, 0x00, 0x00, 0x00, 0x54, 0x00, 0x01, 0x00, 0x34, 0x00, 0x00, 0x00,
    0x00, 0x00, 0x00, 0x00, 0x00, 0x00, 0x00, 0x00, 0x34, 0x00, 0x20, 0x00, 0x01, 0x00, 0x00, 0x00,
    0x00, 0x00, 0x00, 0x00, 0x01, 0x00, 0x00, 0x00, 0x00, 0x00, 0x00, 0x00, 0x00, 0x00, 0x01, 0x00,
    0x00, 0x00, 0x01, 0x00, 0x84, 0x00, 0x00, 0x00, 0x84, 0x00, 0x00, 0x00, 0x07, 0x00, 0x00, 0x00,
    0x00, 0x10, 0x00, 0x00,
];

/// Stores `addi a0, zero, 7` over the word behind the store.
static NEXT_WORD: [u32; 12] = [
    0x0000_0297,
    0x0142_A303,
    0x0062_A623,
    0x0010_0513,
    0x0000_0073,
    0x0070_0513,
    0x0000_0000,
    0x0000_0000,
    0x0000_0000,
    0x0000_0000,
    0x0000_0000,
    0x0000_0000,
];

/// Calls a function, stores `addi a0, a0, 16` over its first word, and calls it again.
static SAME_PAGE: [u32; 12] = [
    0x0000_0297,
    0x0000_0513,
    0x0180_00EF,
    0x0282_A303,
    0x0262_A023,
    0x00C0_00EF,
    0x0000_0073,
    0x0000_0013,
    0x0015_0513,
    0x0000_8067,
    0x0105_0513,
    0x0000_0000,
];

/// Makes `addi a0, zero, 80` of the word behind the stores by one of a byte and one of a half-word.
static BYTE_AND_HALF: [u32; 12] = [
    0x0000_0297,
    0x0050_0313,
    0x0062_8BA3,
    0x5130_0313,
    0x0062_9A23,
    0x0000_0073,
    0x0000_0073,
    0x0000_0000,
    0x0000_0000,
    0x0000_0000,
    0x0000_0000,
    0x0000_0000,
];

/// Counts in a loop, and in it stores `ecall` over the store itself.
static ITSELF: [u32; 12] = [
    0x0000_0297,
    0x0182_A303,
    0x0015_0513,
    0x0062_A623,
    0xFF9F_F06F,
    0x0000_0073,
    0x0000_0073,
    0x0000_0000,
    0x0000_0000,
    0x0000_0000,
    0x0000_0000,
    0x0000_0000,
];

/// Stands at a call, over which the thread that it makes stores `addi a0, zero, 9`.
static CALLER: [u32; 12] = [
    0x0000_0073,
    0x0000_0297,
    0x0102_A303,
    0xFE62_AE23,
    0x0000_0073,
    0x0090_0513,
    0x0000_0000,
    0x0000_0000,
    0x0000_0000,
    0x0000_0000,
    0x0000_0000,
    0x0000_0000,
];

/// Counts in a loop, over whose jump the handler behind it stores `ecall`. The action lies behind the
/// handler.
static HANDLED: [u32; 12] = [
    0x0015_0513,
    0xFFDF_F06F,
    0x0000_0297,
    0x0102_A303,
    0xFE62_AE23,
    0x0000_8067,
    0x0000_0073,
    0x0001_005C,
    0x0000_0000,
    0x0000_0000,
    0x0000_0000,
    0x0000_0000,
];

/// The handler for signal 10, on the program's words.
const ACTION: Request = Request::RtSigaction {
    signal: 10,
    action: 0x10070,
    old_action: 0,
    size: 8,
};

/// The file of a program of these words.
fn file_of(alloc: Global, code: &[u32; 12]) -> Result<Vec<u8>, AllocError> {
    let mut bytes = Vec::new(alloc);
    bytes.extend_from_slice(&HEAD)?;
    for word in code {
        bytes.extend_from_slice(&word.to_le_bytes())?;
    }
    Ok(bytes)
}

/// Each call of the start of the program answers so.
fn follow(rt: &(impl Abort + AllocGlobal), code: &[u32; 12], steps: &[Step]) -> Result<(), Fail> {
    let file = file_of(rt.alloc(), code)?;
    let mut guest = started(rt.alloc(), file.as_slice(), b"own\0")?;
    go_on(rt, &mut guest, steps);
    Ok(())
}

static NEXT_WORD_RUN: [Step; 2] = [
    Step::Run(THREAD, 100, (4, true)),
    Step::Register(THREAD, 10, 7),
];

static BYTE_AND_HALF_RUN: [Step; 2] = [
    Step::Run(THREAD, 100, (6, true)),
    Step::Register(THREAD, 10, 80),
];

#[test]
fn the_next_word_is_written(rt: HostRuntime) -> Result<(), Fail> {
    follow(&rt, &NEXT_WORD, &NEXT_WORD_RUN)?;
    follow(&rt, &BYTE_AND_HALF, &BYTE_AND_HALF_RUN)
}

static SAME_PAGE_RUN: [Step; 2] = [
    Step::Run(THREAD, 100, (10, true)),
    Step::Register(THREAD, 10, 17),
];

static ITSELF_RUN: [Step; 2] = [
    Step::Run(THREAD, 100, (6, true)),
    Step::Register(THREAD, 10, 2),
];

#[test]
fn the_page_under_the_program_counter_is_written(rt: HostRuntime) -> Result<(), Fail> {
    follow(&rt, &SAME_PAGE, &SAME_PAGE_RUN)?;
    follow(&rt, &ITSELF, &ITSELF_RUN)
}

static CALLER_RUN: [Step; 5] = [
    Step::Run(THREAD, 100, (0, true)),
    Step::AddThread,
    Step::Run(NEW, 100, (3, true)),
    Step::Run(THREAD, 100, (4, true)),
    Step::Register(THREAD, 10, 9),
];

#[test]
fn another_thread_writes_the_code(rt: HostRuntime) -> Result<(), Fail> {
    follow(&rt, &CALLER, &CALLER_RUN)
}

/// The answer of the call that sets the action goes on behind the program's first word.
static HANDLED_RUN: [Step; 8] = [
    Step::Local(ACTION),
    Step::Run(THREAD, 3, (3, false)),
    Step::Deliver,
    Step::Run(THREAD, 5, (5, false)),
    Step::Run(THREAD, 100, (0, true)),
    Step::Local(Request::RtSigreturn),
    Step::Run(THREAD, 100, (1, true)),
    Step::Register(THREAD, 10, 2),
];

#[test]
fn a_handler_writes_the_code_that_it_interrupts(rt: HostRuntime) -> Result<(), Fail> {
    follow(&rt, &HANDLED, &HANDLED_RUN)
}
