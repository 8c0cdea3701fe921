// A kernel part with one process, its calls, and what else a test does with it.
use plain_files::clone::clone;
use plain_files::end::{exit, exit_group};
use plain_files::wait::{is_wait4_ready, wait4};
use plain_machine::{Attempt, FIRST_PID, PlainKernel};
use std::alloc::{AllocError, Global};
use sys_abi::{Reply, Signal, Slot, Tid, VPid};

pub const FIRST: VPid = VPid(FIRST_PID);

/// SIGCHLD alone: a fork (`man 2 clone`).
pub const FORK: u32 = 17;

/// CLONE_VM, CLONE_FS, CLONE_FILES, CLONE_SIGHAND and CLONE_THREAD: a thread.
pub const THREAD: u32 = 0x0001_0F00;

/// The host of the first process.
pub const HOST: u32 = 3;

/// What a call came to.
#[derive(Clone, Copy, PartialEq, Eq)]
pub enum Came {
    Value(u32),
    Fails(u16),
    Waits,
}

/// A kernel part with one process.
pub fn first_process(alloc: Global) -> Result<Box<PlainKernel>, AllocError> {
    let mut kernel = Box::new(alloc, PlainKernel::empty(alloc))?;
    kernel.add_process(alloc, FIRST_PID, HOST)?;
    Ok(kernel)
}

/// What it came to, and the word among its bytes.
fn outcome(attempt: Attempt) -> (Came, Option<u32>) {
    match attempt {
        Attempt::Gives(answer) => (value_of(answer.reply), word_of(answer.bytes.as_slice())),
        Attempt::Fails(error) => (Came::Fails(error.0), None),
        Attempt::NotReady => (Came::Waits, None),
    }
}

fn value_of(reply: Reply) -> Came {
    match reply {
        Reply::Value(value) => Came::Value(value),
        Reply::Error(error) => Came::Fails(error.0),
    }
}

/// The four bytes of a word; other bytes are the word of none.
fn word_of(bytes: &[u8]) -> Option<u32> {
    match *bytes {
        [a, b, c, d] => Some(u32::from_le_bytes([a, b, c, d])),
        _ => None,
    }
}

/// A clone of a process with these flags.
pub fn cloned(
    alloc: Global,
    kernel: &mut PlainKernel,
    p: VPid,
    flags: u32,
) -> Result<(Came, Option<u32>), AllocError> {
    Ok(outcome(clone(kernel, alloc, p, flags)?))
}

/// Whether so many clones of the first process with these flags all give a number.
pub fn clones(
    alloc: Global,
    kernel: &mut PlainKernel,
    count: u32,
    flags: u32,
) -> Result<bool, AllocError> {
    for _more in 0..count {
        let (Came::Value(_), _) = cloned(alloc, kernel, FIRST, flags)? else {
            return Ok(false);
        };
    }
    Ok(true)
}

/// Number, options and usage of a wait.
pub type Wait = (u32, u32, u32);

/// Whether the call comes to this, writes nothing and takes nobody away.
pub fn waits(
    alloc: Global,
    kernel: &mut PlainKernel,
    p: VPid,
    wait: Wait,
    want: Came,
) -> Result<bool, AllocError> {
    let (number, options, usage) = wait;
    let is_ready = is_wait4_ready(kernel, p, number, options, usage);
    let before = kernel.processes.len();
    let given = outcome(wait4(kernel, alloc, p, number, options, usage)?);
    let is_kept = kernel.processes.len() == before;
    Ok(given == (want, None) && is_ready == (want != Came::Waits) && is_kept)
}

/// Whether the first process's call for this number answers the child and its status, and the child is gone.
pub fn reaps(
    alloc: Global,
    kernel: &mut PlainKernel,
    number: u32,
    child: u32,
    status: u32,
) -> Result<bool, AllocError> {
    let is_ready = is_wait4_ready(kernel, FIRST, number, 0, 0);
    let given = outcome(wait4(kernel, alloc, FIRST, number, 0, 0)?);
    let is_there = kernel.processes.contains_key(VPid(child));
    let has_maker = kernel.makers.contains_key(VPid(child));
    let want = (Came::Value(child), Some(status));
    Ok(is_ready && given == want && !is_there && !has_maker)
}

/// What a test does with a kernel part, where no answer is looked at.
pub enum Change {
    /// A process ends with a code.
    Exit(VPid, u32),
    /// A thread of a process ends with a code.
    ExitThread(VPid, Tid, u32),
    /// A process ends with a status.
    End(VPid, u32),
    /// A signal becomes pending for a process.
    Raise(VPid, Signal),
    /// A descriptor of the first process becomes one that exec closes.
    CloseOnExec(u32),
    /// A process becomes the owner of what the first one's descriptor 0 refers to.
    Own(VPid),
    /// The next process or thread gets this number.
    NextId(u32),
}

/// Makes the change. Answers whether the descriptor that it is made to is there; the other changes are made
/// to no descriptor.
pub fn make_change(
    alloc: Global,
    kernel: &mut PlainKernel,
    change: &Change,
) -> Result<bool, AllocError> {
    match *change {
        Change::Exit(p, code) => {
            let _ = exit_group(kernel, alloc, p, code);
        }
        Change::ExitThread(p, t, code) => {
            let _ = exit(kernel, alloc, p, t, code);
        }
        Change::End(p, status) => kernel.end_process(alloc, p, status),
        Change::Raise(p, signal) => kernel.raise_for_all(p, signal),
        Change::CloseOnExec(fd) => return close_on_exec(kernel, fd),
        Change::Own(p) => return own(kernel, p),
        Change::NextId(number) => kernel.next_id = number,
    }
    Ok(true)
}

fn close_on_exec(kernel: &mut PlainKernel, fd: u32) -> Result<bool, AllocError> {
    let at = Slot { pid: FIRST, fd };
    let Some(mut descriptor) = kernel.descriptors.get(at).copied() else {
        return Ok(false);
    };
    descriptor.cloexec = true;
    kernel.descriptors.insert(at, descriptor)?;
    Ok(true)
}

fn own(kernel: &mut PlainKernel, owner: VPid) -> Result<bool, AllocError> {
    let Some((descriptor, mut description)) = kernel.held_at(FIRST, 0) else {
        return Ok(false);
    };
    description.owner = owner.0;
    kernel.descriptions.insert(descriptor.desc, description)?;
    Ok(true)
}
