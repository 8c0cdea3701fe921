// The process of the tests: one page that may be read, written and executed, and one thread at its first
// byte.
use crate::asserting::holds;
use call_table::Request;
use plain_calls::local::local_row;
use plain_memory::memory::bytes_at;
use plain_process::{Frame, Regs, Right, ThreadPart, UserPart};
use plain_steps::steps::{UserStep, user_step, user_steps};
use std::alloc::{AllocError, Global};
use std::process::Abort;
use sys_abi::{Page, Tid};
use views::list_of::ListOf;
use views::number_map::NumberMap;

pub const THREAD: Tid = Tid(40_000);

/// `addi t0, zero, -2`, `auipc t1, 0`, `sb t0, 64(t1)`, `lb t2, 64(t1)`, `mul t2, t2, t0`, `ecall`.
static PROGRAM: [u8; 24] = [
    0x93, 0x02, 0xE0, 0xFF, 0x17, 0x03, 0x00, 0x00, 0x23, 0x00, 0x53, 0x04, 0x83, 0x03, 0x03, 0x04,
    0xB3, 0x83, 0x53, 0x02, 0x73, 0x00, 0x00, 0x00,
];

/// That process with the page at 0x10000, and an empty heap.
pub fn with_one_page(alloc: Global, page: Page, heap: u32) -> Result<UserPart, AllocError> {
    let mut memory = NumberMap::new(alloc);
    memory.insert(0x10, Frame { rights: 7, page })?;
    let mut threads = NumberMap::new(alloc);
    threads.insert(THREAD.0, thread(alloc))?;
    Ok(UserPart {
        memory,
        break_start: heap,
        break_end: heap,
        threads,
        actions: ListOf::new(alloc),
        waiters: ListOf::new(alloc),
    })
}

fn thread(alloc: Global) -> ThreadPart {
    ThreadPart {
        regs: Regs {
            x: [0; 32],
            pc: 0x0001_0000,
        },
        mask: 0,
        clear_tid: 0,
        contexts: ListOf::new(alloc),
    }
}

/// A process with the program of six words at 0x10000, where its one thread starts.
pub fn with_program(alloc: Global) -> Result<UserPart, AllocError> {
    let mut page = Page::zeroed(alloc)?;
    page.write(0, &PROGRAM);
    with_one_page(alloc, page, 0)
}

/// The registers of its thread.
pub fn regs_of(user: &UserPart) -> Option<Regs> {
    Some(user.threads.get(THREAD.0)?.regs)
}

/// What the process does, and what is found there then.
pub enum Step {
    /// The thread's call, which the process answers alone, and the word that is in a0 at once.
    Call(Request, u32),
    /// The process has so many pages.
    Pages(usize),
    /// So many of its threads wait on a word.
    Waiters(usize),
    /// The thread makes so many steps.
    Run(u32),
    StandsAt(u32),
    /// The word in t2.
    InT2(u32),
    /// The byte at an address.
    Byte(u32, u8),
    /// In its next step the thread stands at a call that no row has, with number 0.
    AsksForCall0,
    HasNoThread(Tid),
}

/// Whether the step ends so.
fn answers(alloc: Global, user: &mut UserPart, step: &Step) -> bool {
    match *step {
        Step::Call(call, word) => calls(alloc, user, &call) == Some(word),
        Step::Pages(count) => user.memory.len() == count,
        Step::Waiters(count) => user.waiters.len() == count,
        Step::Run(count) => user_steps(count, user, THREAD).is_ok(),
        Step::StandsAt(address) => regs_of(user).is_some_and(|regs| regs.pc == address),
        Step::InT2(word) => regs_of(user).is_some_and(|regs| regs.x[7] == word),
        Step::Byte(address, byte) => has_byte(alloc, user, address, byte),
        Step::AsksForCall0 => asks_for_call_0(user),
        Step::HasNoThread(thread) => matches!(user_step(user, thread), UserStep::NoThread),
    }
}

/// The word that is in a0 after a call.
fn calls(alloc: Global, user: &mut UserPart, call: &Request) -> Option<u32> {
    local_row(alloc, user, THREAD, call).ok()?;
    Some(regs_of(user)?.x[10])
}

/// Whether the byte at the address may be read, and is this one.
fn has_byte(alloc: Global, user: &UserPart, address: u32, byte: u8) -> bool {
    match bytes_at(alloc, &user.memory, Right::Read, address, 1) {
        Ok(Some(bytes)) => bytes.as_slice() == [byte].as_slice(),
        _ => false,
    }
}

fn asks_for_call_0(user: &mut UserPart) -> bool {
    matches!(
        user_steps(1, user, THREAD),
        Err(UserStep::Asks(Request::Unknown(0)))
    )
}

/// Each step of the process ends so.
pub fn follow(rt: &(impl Abort + AllocGlobal), user: &mut UserPart, steps: &[Step]) {
    for step in steps {
        holds(rt, answers(rt.alloc(), user, step));
    }
}
