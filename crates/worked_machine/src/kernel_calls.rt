// Calls on a kernel part that begins with one process, and what they leave there.
ghost use Rattle.std.specs.Prelude.{◌≡◌};

use crate::asserting::holds;
use call_table::Request;
use plain_machine::{FIRST_PID, NOBODY, PlainKernel};
use plain_replay::{Served, serve_slowly};
use plain_rows::{is_ready, serve};
use std::alloc::{AllocError, Global};
use std::process::Abort;
use std::test::Fail;
use sys_abi::errors::{EBADF, EINVAL, ESRCH};
use sys_abi::{Errno, Reply, Signal, Tid, VPid};
use views::list_of::ListOf;

const FIRST: VPid = VPid(FIRST_PID);

const THREAD: Tid = Tid(FIRST_PID);

/// The number of the second process or thread.
const SECOND: u32 = FIRST_PID + 1;

/// A kernel part with one process.
fn kernel(alloc: Global) -> Result<Box<PlainKernel>, AllocError> {
    let mut kernel = Box::new(alloc, PlainKernel::empty(alloc))?;
    kernel.add_process(alloc, FIRST_PID, 3)?;
    Ok(kernel)
}

/// Whether a write of six bytes to the descriptor replies so and shows these bytes on the console, with none
/// for the process.
fn write_says(alloc: Global, fd: u32, reply: Reply, shown: &[u8]) -> Result<bool, AllocError> {
    let kernel = kernel(alloc)?;
    let call = Request::Write {
        fd,
        buffer: 0,
        count: 6,
    };
    let served = serve_slowly(alloc, &kernel, FIRST, THREAD, &call, b"hello\n")?;
    Ok(says(served, reply, shown))
}

fn says(served: Served, want: Reply, shown: &[u8]) -> bool {
    match served {
        Served::Done {
            kernel: _,
            reply,
            bytes,
            console,
        } => reply == want && bytes.as_slice().is_empty() && console.as_slice() == shown,
        Served::NotReady => false,
    }
}

#[test]
fn write_on_the_console(rt: HostRuntime) -> Result<(), Fail> {
    holds(&rt, write_says(rt.alloc(), 1, Reply::Value(6), b"hello\n")?);
    Ok(())
}

#[test]
fn write_on_no_descriptor(rt: HostRuntime) -> Result<(), Fail> {
    holds(
        &rt,
        write_says(rt.alloc(), 5, Reply::Error(Errno(EBADF)), b"")?,
    );
    Ok(())
}

/// What is done with the kernel part, and what it answers.
enum Step {
    /// A call of a thread of the first process, its reply, and the bytes for the process's memory.
    Call(Tid, Request, Reply, &'static [u8]),
    /// A kill of a process, with this signal.
    Kill(u32, u32, Reply),
    /// Whether a call of the first thread doesn't wait.
    IsReady(Request, bool),
    /// A second process comes, on this host.
    AddSecond(u32),
    EndSecond,
    /// The first thread takes a pending signal.
    Take(Signal),
    Holds(State),
}

/// What the kernel part holds.
enum State {
    /// The signals that are pending for a thread of the first process.
    Pending(Tid, u32),
    /// Whether the first process lives.
    IsLive(bool),
    /// Whether some process lives.
    HasLife(bool),
    /// Whether the first process has its first thread.
    HasThread(bool),
    /// How many threads the first process has.
    ThreadCount(usize),
    /// How many processes, makers, descriptors and descriptions are there.
    Counts([usize; 4]),
}

/// Whether the step answers so.
fn answers(alloc: Global, kernel: &mut PlainKernel, step: &Step) -> bool {
    match step {
        Step::Call(thread, call, reply, bytes) => {
            replies(alloc, kernel, *thread, call, *reply, bytes)
        }
        Step::Kill(pid, signal, reply) => kills(alloc, kernel, *pid, *signal, *reply),
        Step::IsReady(call, ready) => is_ready(kernel, FIRST, THREAD, call, &[0; 16]) == *ready,
        Step::AddSecond(host) => kernel.add_process(alloc, SECOND, *host).is_ok(),
        Step::EndSecond => {
            kernel.end_process(alloc, VPid(SECOND), 0);
            true
        }
        Step::Take(signal) => {
            kernel.take(FIRST, THREAD, *signal);
            true
        }
        Step::Holds(state) => holds_state(kernel, state),
    }
}

fn holds_state(kernel: &PlainKernel, state: &State) -> bool {
    match *state {
        State::Pending(thread, signals) => kernel.pending(FIRST, thread) == signals,
        State::IsLive(is_live) => kernel.is_live(FIRST) == is_live,
        State::HasLife(has_life) => kernel.has_life() == has_life,
        State::HasThread(has_thread) => kernel.has_thread(FIRST, FIRST_PID) == has_thread,
        State::ThreadCount(count) => kernel.thread_count(FIRST) == count,
        State::Counts(counts) => counts_of(kernel) == counts,
    }
}

fn kills(alloc: Global, kernel: &mut PlainKernel, pid: u32, signal: u32, reply: Reply) -> bool {
    let call = Request::Kill { pid, signal };
    replies(alloc, kernel, THREAD, &call, reply, b"")
}

/// Whether the call of a thread of the first process replies so, with these bytes for the process's memory.
fn replies(
    alloc: Global,
    kernel: &mut PlainKernel,
    thread: Tid,
    call: &Request,
    reply: Reply,
    bytes: &[u8],
) -> bool {
    match serve(kernel, alloc, FIRST, thread, call, b"") {
        Ok(Some(answer)) => answer.reply == reply && answer.bytes.as_slice() == bytes,
        _ => false,
    }
}

fn counts_of(kernel: &PlainKernel) -> [usize; 4] {
    [
        kernel.processes.len(),
        kernel.makers.len(),
        kernel.descriptors.len(),
        kernel.descriptions.len(),
    ]
}

/// Each step on a kernel part with one process answers so.
fn follow(rt: &(impl Abort + AllocGlobal), steps: &[Step]) -> Result<(), Fail> {
    let mut kernel = kernel(rt.alloc())?;
    for step in steps {
        holds(rt, answers(rt.alloc(), &mut kernel, step));
    }
    Ok(())
}

const EXIT_GROUP: Request = Request::ExitGroup { code: 0 };

static END_OF_A_PROCESS: [Step; 7] = [
    Step::AddSecond(3),
    Step::Call(THREAD, EXIT_GROUP, Reply::Value(0), &[]),
    Step::Holds(State::IsLive(false)),
    Step::Holds(State::Counts([1, 1, 3, 1])),
    Step::EndSecond,
    Step::Holds(State::HasLife(false)),
    Step::Holds(State::Counts([0, 0, 0, 0])),
];

#[test]
fn end_of_a_process(rt: HostRuntime) -> Result<(), Fail> {
    follow(&rt, &END_OF_A_PROCESS)
}

fn text(alloc: Global, bytes: &[u8]) -> Result<ListOf<u8>, AllocError> {
    Ok(ListOf::from_vec(bytes.to_vec(alloc)?))
}

/// Whether the name has the file of this number, with these bytes.
fn has_file(kernel: &PlainKernel, name: &[u8], number: u32, bytes: &[u8]) -> bool {
    if kernel.names.get(name).copied() != Some(number) {
        return false;
    }
    match kernel.files.get(number) {
        Some(held) => held.as_slice() == bytes,
        None => false,
    }
}

/// The next file has this number.
fn next_is(rt: &impl Abort, kernel: &PlainKernel, number: u32)
    ensures { kernel.now.next_file ≡ number }
{
    assert!(rt; kernel.next_file == number);
}

fn name_a_file(rt: &(impl Abort + AllocGlobal), kernel: &mut PlainKernel) -> Result<(), Fail> {
    let alloc = rt.alloc();
    next_is(rt, kernel, 1);
    kernel.add_file(alloc, text(alloc, b"a")?, text(alloc, b"hello\n")?)?;
    holds(rt, has_file(kernel, b"a", 1, b"hello\n"));
    next_is(rt, kernel, 2);
    Ok(())
}

#[test]
fn named_file(rt: HostRuntime) -> Result<(), Fail> {
    let mut kernel = Box::new(rt.alloc(), PlainKernel::empty(rt.alloc()))?;
    name_a_file(&rt, &mut kernel)
}

/// CLONE_VM, CLONE_FS, CLONE_FILES, CLONE_SIGHAND, CLONE_THREAD and CLONE_PARENT_SETTID.
const NEW_THREAD: u32 = 0x0011_0F00;

const CLONE: Request = Request::Clone {
    flags: NEW_THREAD,
    stack: 0,
    parent_tid: 0x1000,
    tls: 0,
    child_tid: 0,
};

const EXIT: Request = Request::Exit { code: 0 };

const WAIT: Request = Request::Wait4 {
    pid: FIRST_PID,
    status: 0,
    options: 0,
    usage: 0,
};

static THREAD_BEGINS_AND_ENDS: [Step; 7] = [
    Step::Call(THREAD, CLONE, Reply::Value(SECOND), &[0x41, 0x9C, 0, 0]),
    Step::Holds(State::ThreadCount(2)),
    Step::Call(THREAD, EXIT, Reply::Value(0), &[]),
    Step::Holds(State::HasThread(false)),
    Step::Holds(State::IsLive(true)),
    Step::Call(Tid(SECOND), EXIT, Reply::Value(0), &[]),
    Step::Holds(State::IsLive(false)),
];

#[test]
fn thread_begins_and_ends(rt: HostRuntime) -> Result<(), Fail> {
    follow(&rt, &THREAD_BEGINS_AND_ENDS)
}

const TGKILL: Request = Request::Tgkill {
    pid: FIRST_PID,
    tid: FIRST_PID,
    signal: 10,
};

static SIGNAL_TO_A_THREAD: [Step; 4] = [
    Step::Call(THREAD, TGKILL, Reply::Value(0), &[]),
    Step::Holds(State::Pending(THREAD, 0x200)),
    Step::Take(Signal(10)),
    Step::Holds(State::Pending(THREAD, 0)),
];

#[test]
fn signal_to_a_thread(rt: HostRuntime) -> Result<(), Fail> {
    follow(&rt, &SIGNAL_TO_A_THREAD)
}

static SIGNAL_TO_A_PROCESS: [Step; 7] = [
    Step::AddSecond(4),
    Step::Kill(FIRST_PID, 12, Reply::Value(0)),
    Step::Holds(State::Pending(Tid(7), 0x800)),
    Step::Kill(FIRST_PID, 0, Reply::Value(0)),
    Step::Holds(State::Pending(THREAD, 0x800)),
    Step::Kill(FIRST_PID, 19, Reply::Error(Errno(EINVAL))),
    Step::Kill(SECOND, 9, Reply::Error(Errno(ESRCH))),
];

#[test]
fn signal_to_a_process(rt: HostRuntime) -> Result<(), Fail> {
    follow(&rt, &SIGNAL_TO_A_PROCESS)
}

static NUMBERS: [Step; 2] = [
    Step::Call(THREAD, Request::Getpid, Reply::Value(FIRST_PID), &[]),
    Step::Call(THREAD, Request::Getppid, Reply::Value(NOBODY), &[]),
];

#[test]
fn numbers_of_a_process(rt: HostRuntime) -> Result<(), Fail> {
    follow(&rt, &NUMBERS)
}

static NO_CALL_WAITS: [Step; 2] = [Step::IsReady(WAIT, true), Step::IsReady(EXIT, true)];

#[test]
fn no_call_waits(rt: HostRuntime) -> Result<(), Fail> {
    follow(&rt, &NO_CALL_WAITS)
}
