ghost use Rattle.std.specs.Prelude.{◌≡◌, ◌<◌, ◌^◌, IfOk, if◌then◌else◌};
ghost use Rattle.plain_process.specs.Threads as words;
ghost use Rattle.std.specs.FinMap as map;

use call_table::Request;
use plain_memory::memory::put_bytes;
use plain_process::memory::Frame;
use plain_process::threads::{after_call, new_clear_tid, new_regs};
use plain_process::user_part::{ThreadPart, UserPart};
use std::alloc::{AllocError, Global};
use sys_abi::Tid;
use sys_abi::flags::CLONE_CHILD_SETTID;
use views::duplicate::Duplicate;
use views::list_of::ListOf;
use views::number_map::NumberMap;

/// The part of the child that a fork makes of a process, of which the child has the calling thread alone,
/// under its own number (`man 2 fork`). The process's part is that before the call's answer.
pub fn child_of(
    alloc: Global,
    user: &UserPart,
    t: Tid,
    new: u32,
    request: &Request,
) -> Result<Box<UserPart>, AllocError>
    ensures { IfOk result (λ child. child.value ≡ words.child_of user.now t.0 new request.now) }
{
    let mut child = Box::new(alloc, user.duplicate(alloc)?)?;
    make_child(alloc, &mut child, t, new, request)?;
    Ok(child)
}

/// Makes a copy of a process's part that of its child.
#[tactic(auto, unfolding(plain_process::specs::Threads::child_of))]
fn make_child(
    alloc: Global,
    user: &mut UserPart,
    t: Tid,
    new: u32,
    request: &Request,
) -> Result<(), AllocError>
    ensures { IfOk result (λ done. user.new ≡ words.child_of user.old t.0 new request.now) }
{
    match *request {
        Request::Clone {
            flags,
            stack,
            tls,
            child_tid,
            ..
        } => {
            let Some(caller) = user.threads.get(t.0) else {
                return Ok(());
            };
            let thread = child_thread(alloc, caller, flags, stack, tls, child_tid)?;
            user.threads = only(alloc, new, thread)?;
            put_number(&mut user.memory, flags, child_tid, new);
            user.waiters = ListOf::new(alloc);
            Ok(())
        }
        _ => Ok(()),
    }
}

/// The one thread of the child.
fn only(alloc: Global, new: u32, thread: ThreadPart) -> Result<NumberMap<ThreadPart>, AllocError>
    ensures { IfOk result (λ threads. threads ≡ map.insert map.empty new thread) }
{
    let mut threads = NumberMap::new(alloc);
    threads.insert(new, thread)?;
    Ok(threads)
}

/// The thread of the child that a fork with these arguments makes of its caller.
fn child_thread(
    alloc: Global,
    caller: &ThreadPart,
    flags: u32,
    stack: u32,
    tls: u32,
    child_tid: u32,
) -> Result<ThreadPart, AllocError>
    ensures { IfOk result (λ thread. thread ≡ words.child_thread caller.now flags stack tls child_tid) }
{
    Ok(ThreadPart {
        regs: new_regs(after_call(caller.regs, 0), flags, stack, tls),
        mask: caller.mask,
        clear_tid: new_clear_tid(flags, child_tid),
        contexts: caller.contexts.duplicate(alloc)?,
    })
}

/// Puts the child's number into its memory, where the flags ask for it.
fn put_number(memory: &mut NumberMap<Frame>, flags: u32, child_tid: u32, new: u32)
    ensures { memory.new ≡ words.child_memory memory.old flags child_tid new }
{
    if flags / CLONE_CHILD_SETTID % 2 == 1 {
        put_bytes(memory, child_tid, &new.to_le_bytes());
    }
}
