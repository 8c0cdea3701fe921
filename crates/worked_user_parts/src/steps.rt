// Steps of a guest.
ghost use Rattle.std.specs.Prelude.{◌≤◌, length};

use crate::asserts::all;
use call_table::Request;
use elf32::read_elf;
use guest_proc::{Guest, Ran};
use image_process::ProcImage;
use plain_process::ThreadPart;
use plain_process::threads::added_thread;
use std::alloc::Global;
use std::process::Abort;
use std::test::Fail;
use sys_abi::{Reply, Signal, Tid, VPid};

/// The first thread.
pub const THREAD: Tid = Tid(40_000);

/// The thread that is made of it.
pub const NEW: Tid = Tid(40_001);

/// A word on the page of the first thread's stack.
pub const WORD: u32 = 0x7FFF_F000;

/// The word of a thread that is there to be cleared at its end, a stack and a thread pointer of its own.
const CLONE: Request = Request::Clone {
    flags: 0x003D_0F00,
    stack: 0x7FFF_8000,
    parent_tid: WORD,
    tls: 0x1234,
    child_tid: WORD,
};

/// A call of a guest with what it answers, or what its image has then.
pub enum Step {
    Pid(u32),
    NextThread(u32, Option<Tid>),
    /// A thread runs with room for so many instructions: how many it runs, and whether it stands at a call
    /// then.
    Run(Tid, u32, (u32, bool)),
    /// A call of the first thread that the process answers alone.
    Local(Request),
    /// A clone of the first thread.
    AddThread,
    /// Signal 10 comes to the first thread.
    Deliver,
    /// How many pages there are.
    Pages(usize),
    /// How many threads wait.
    Waiters(usize),
    /// The first word of a page.
    Word(u32, u32),
    Counter(Tid, u32),
    Register(Tid, usize, u32),
    /// The word that the end of the thread clears.
    ClearTid(Tid, u32),
}

fn runs(guest: &mut Guest, t: Tid, room: u32, answer: (u32, bool)) -> bool {
    if room == 0 || !guest.has_thread(t) {
        return false;
    }
    let (count, ran) = guest.run(t, room);
    (count, matches!(ran, Ran::Asks(_))) == answer
}

/// Adds a thread by a clone of the first one's.
#[tactic(auto, using(guest_proc::proofs::Putting::is_free))]
fn adds_thread(alloc: Global, guest: &mut Guest) -> bool {
    let Ok(()) = guest.reserve_thread(alloc) else {
        return false;
    };
    if !guest.has_thread(THREAD) || guest.has_thread(NEW) {
        return false;
    }
    let Some(new) = added_thread(&CLONE, Reply::Value(NEW.0)) else {
        return false;
    };
    if new != NEW.0 {
        return false;
    }
    guest.add_thread(THREAD, NEW, &CLONE);
    true
}

fn delivers(guest: &mut Guest) -> bool {
    if !guest.has_thread(THREAD) {
        return false;
    }
    guest.deliver(THREAD, Signal(10), false);
    true
}

/// Whether the call answers so.
fn answers(alloc: Global, guest: &mut Guest, step: &Step) -> bool {
    match *step {
        Step::Pid(number) => guest.pid() == VPid(number),
        Step::NextThread(above, answer) => guest.next_thread(above) == answer,
        Step::Run(t, room, answer) => runs(guest, t, room, answer),
        Step::Local(request) => guest.local(alloc, THREAD, &request).is_ok(),
        Step::AddThread => adds_thread(alloc, guest),
        Step::Deliver => delivers(guest),
        _ => shows(alloc, guest, step),
    }
}

fn shows(alloc: Global, guest: &Guest, step: &Step) -> bool {
    match guest.image(alloc) {
        Ok(image) => has(&image, step),
        Err(_) => false,
    }
}

/// Whether the image has this.
fn has(image: &ProcImage, step: &Step) -> bool {
    match *step {
        Step::Pages(count) => image.pages.len() == count,
        Step::Waiters(count) => image.waiters.len() == count,
        Step::Word(page, value) => first_word(image, page) == Some(value),
        Step::Counter(t, _) | Step::Register(t, _, _) | Step::ClearTid(t, _) => {
            match thread_of(image, t) {
                Some(thread) => thread_has(thread, step),
                None => false,
            }
        }
        _ => false,
    }
}

fn thread_has(thread: &ThreadPart, step: &Step) -> bool {
    match *step {
        Step::Counter(_, value) => thread.regs.pc == value,
        Step::Register(_, number, value) => number < 32 && thread.regs.x[number] == value,
        Step::ClearTid(_, value) => thread.clear_tid == value,
        _ => false,
    }
}

fn thread_of(image: &ProcImage, t: Tid) -> Option<&ThreadPart> {
    for thread in &image.threads {
        if thread.tid == t.0 {
            return Some(&thread.part);
        }
    }
    None
}

/// The first word of a page.
fn first_word(image: &ProcImage, number: u32) -> Option<u32> {
    for page in &image.pages {
        if page.number == number {
            return Some(page.frame.page.word(0));
        }
    }
    None
}

/// The start of the program in a file, with these argument strings.
pub fn started(alloc: Global, file: &[u8], arguments: &[u8]) -> Result<Guest, Fail>
    requires some { 1 ≤ length arguments.now }
    requires few { length arguments.now ≤ 4096 }
{
    let program = read_elf(alloc, file)?;
    Ok(Guest::load(alloc, VPid(THREAD.0), &program, arguments)?)
}

/// How many calls answer so, up to the first that doesn't.
fn answered(alloc: Global, guest: &mut Guest, steps: &[Step]) -> usize {
    for (place, step) in steps.iter().enumerate() {
        if !answers(alloc, guest, step) {
            return place;
        }
    }
    steps.len()
}

/// Each call of the guest answers so.
pub fn go_on(rt: &(impl Abort + AllocGlobal), guest: &mut Guest, steps: &[Step]) {
    all(rt, answered(rt.alloc(), guest, steps), steps.len());
}
