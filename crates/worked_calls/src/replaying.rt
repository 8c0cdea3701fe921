//! The trace of a call, replayed by the plain machine from a start that is made here by hand.
use id_maps::ByPid;
use plain_machine::{FIRST_PID, Plain, PlainKernel};
use plain_process::{Frame, Regs, SignalAction, ThreadPart, UserPart};
use plain_replay::{ReplayFault, replay};
use std::alloc::{AllocError, Global};
use std::fmt::Write;
use sys_abi::page::PAGE_SIZE;
use sys_abi::{Page, Record, VPid};
use views::list_of::ListOf;
use views::number_map::NumberMap;
use worked_guests::fault::CaseFault;

/// The end of the stack of a program with the name `hello.elf`: the count of arguments, where the
/// name stands, words of zeros, and the name.
const STACK_END: [u8; 48] = [
    1, 0, 0, 0, 0xF6, 0xFF, 0xFF, 0x7F, 0, 0, 0, 0, 0, 0, 0, 0, 0, 0, 0, 0, 0, 0, 0, 0, 0, 0, 0, 0,
    0, 0, 0, 0, 0, 0, 0, 0, 0, 0, b'h', b'e', b'l', b'l', b'o', b'.', b'e', b'l', b'f', 0,
];

/// What a handler returns to: `addi a7, zero, 139`, `ecall`.
const RETURN: [u8; 8] = [0x93, 0x08, 0xB0, 0x08, 0x73, 0, 0, 0];

/// A page with these bytes at a place.
fn page_with(alloc: Global, rights: u8, place: usize, bytes: &[u8]) -> Result<Frame, AllocError> {
    let mut page = Page::zeroed(alloc)?;
    if bytes.len() <= PAGE_SIZE && place <= PAGE_SIZE - bytes.len() {
        page.write(place, bytes);
    }
    Ok(Frame { rights, page })
}

/// Puts in the pages of a program whose file is loaded whole at 0x10000.
fn put_pages(alloc: Global, memory: &mut NumberMap<Frame>, file: &[u8]) -> Result<(), AllocError> {
    memory.insert(0x10, page_with(alloc, 5, 0, file)?)?;
    for number in 0x7_FFC0..0x7_FFFF {
        memory.insert(number, page_with(alloc, 6, 0, b"")?)?;
    }
    memory.insert(0x7_FFFF, page_with(alloc, 6, 0xFD0, &STACK_END)?)?;
    memory.insert(0x8_0000, page_with(alloc, 5, 0, &RETURN)?)?;
    Ok(())
}

/// The first thread at the program's first instruction.
fn first_thread(alloc: Global) -> ThreadPart {
    let mut regs = Regs {
        x: [0; 32],
        pc: 0x1_0054,
    };
    regs.x[2] = 0x7FFF_FFD0;
    ThreadPart {
        regs,
        mask: 0,
        clear_tid: 0,
        contexts: ListOf::new(alloc),
    }
}

/// No handler for any signal.
fn no_actions(alloc: Global) -> Result<ListOf<SignalAction>, AllocError> {
    let mut actions = ListOf::new(alloc);
    for _ in 0..31 {
        actions.push(SignalAction {
            handler: 0,
            flags: 0,
            mask: 0,
        })?;
    }
    Ok(actions)
}

fn user_part(alloc: Global, file: &[u8]) -> Result<UserPart, AllocError> {
    let mut user = UserPart {
        memory: NumberMap::new(alloc),
        break_start: 0x1_1000,
        break_end: 0x1_1000,
        threads: NumberMap::new(alloc),
        actions: no_actions(alloc)?,
        waiters: ListOf::new(alloc),
    };
    put_pages(alloc, &mut user.memory, file)?;
    user.threads.insert(FIRST_PID, first_thread(alloc))?;
    Ok(user)
}

/// Puts the program's process into a state without any.
fn put_process(alloc: Global, plain: &mut Plain, file: &[u8]) -> Result<(), AllocError> {
    plain.kernel.add_process(alloc, FIRST_PID, 0)?;
    plain
        .users
        .insert(VPid(FIRST_PID), user_part(alloc, file)?)?;
    Ok(())
}

/// The start of a job of this program alone.
fn start_of(alloc: Global, file: &[u8]) -> Result<Box<Plain>, AllocError> {
    let empty = Plain {
        kernel: PlainKernel::empty(alloc),
        users: ByPid::new(alloc),
    };
    let mut plain = Box::new(alloc, empty)?;
    put_process(alloc, &mut plain, file)?;
    Ok(plain)
}

/// Prints what a replay of these records comes to, from the start of a program with the name
/// `hello.elf`.
pub fn put_replay(
    alloc: Global,
    text: &mut String,
    file: &[u8],
    records: &[Record],
) -> Result<(), CaseFault> {
    let start = start_of(alloc, file)?;
    match replay(alloc, &start, records) {
        Ok(plain) => Ok(put_state(text, &plain)?),
        Err(ReplayFault::Refused(place)) => Ok(writeln!(text, "  refused at {place}")?),
        Err(ReplayFault::Memory) => Err(CaseFault::Memory),
    }
}

/// Prints where the first thread's next instruction stands, and which number the next thread gets.
fn put_state(text: &mut String, plain: &Plain) -> Result<(), AllocError> {
    let next = plain.kernel.next_id;
    match first_place(plain) {
        Some(place) => writeln!(text, "  replayed: at {place:#x}, next number {next}"),
        None => put_end(text, plain),
    }
}

fn first_place(plain: &Plain) -> Option<u32> {
    let user = plain.users.get(VPid(FIRST_PID))?;
    let thread = user.threads.get(FIRST_PID)?;
    Some(thread.regs.pc)
}

fn put_end(text: &mut String, plain: &Plain) -> Result<(), AllocError> {
    if plain.kernel.has_life() || plain.users.len() != 0 {
        return text.push_str("  replayed: without its first thread\n");
    }
    text.push_str("  replayed: nobody lives\n")
}
