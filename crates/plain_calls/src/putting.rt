ghost use Rattle.std.specs.Prelude.{◌≡◌, ◌<◌, ◌^◌, length, IfOk};
ghost use Rattle.plain_process.specs.Buffers as buffers;
ghost use Rattle.plain_process.specs.Put as words;
ghost use Rattle.plain_process.specs.Threads.{new_thread};

use crate::waking::end_thread;
use call_table::Request;
use plain_memory::lending::filled_spans;
use plain_memory::memory::put_bytes;
use plain_process::buffers::Spans;
use plain_process::memory::Frame;
use plain_process::threads::{added_thread, after_call, new_clear_tid, new_regs};
use plain_process::user_part::{ThreadPart, UserPart};
use plain_steps::steps::set_regs;
use std::alloc::{AllocError, Global};
use sys_abi::errors::EFAULT;
use sys_abi::{Errno, Reply, Tid};
use views::list_of::ListOf;
use views::number_map::NumberMap;

/// The part after a call's answer: a0 holds the reply, the bytes stand where the call asked for them, and the
/// thread goes on after the call. An exit's answer ends the thread, and a clone's may add one.
#[tactic(auto, unfolding(plain_process::specs::Put::put))]
pub fn put(
    alloc: Global,
    user: &mut UserPart,
    t: Tid,
    request: &Request,
    reply: Reply,
    bytes: &[u8],
) -> Result<(), AllocError>
    requires { length bytes.now < 2 ^ 32 }
    ensures { IfOk result (λ done. user.new ≡ words.put user.old t.0 request.now reply bytes.now) }
{
    let Some(thread) = user.threads.get(t.0) else {
        return Ok(());
    };
    let regs = after_call(thread.regs, word_of(reply));
    let spans = filled_spans(&user.memory, request);
    put_spans(&mut user.memory, spans, bytes);
    set_regs(&mut user.threads, t, regs);
    change_threads(alloc, user, t, request, reply)
}

/// The part after the answer of a call with a buffer that isn't readable or writable as needed (`EFAULT`).
pub fn put_fault(
    alloc: Global,
    user: &mut UserPart,
    t: Tid,
    request: &Request,
) -> Result<(), AllocError>
    ensures { IfOk result (λ done. user.new ≡ words.put_fault user.old t.0 request.now) }
{
    put(alloc, user, t, request, Reply::Error(Errno(EFAULT)), &[])
}

/// The word that a reply puts into a0.
fn word_of(reply: Reply) -> u32
    ensures { result ≡ words.word_of reply }
{
    match reply {
        Reply::Value(value) => value,
        Reply::Error(error) => (error.0 as u32).wrapping_neg(),
    }
}

/// Puts the bytes of an answer where the call asked for them: into the first span, and where there are two,
/// the last ones into the second.
fn put_spans(memory: &mut NumberMap<Frame>, spans: Spans, bytes: &[u8])
    requires { length bytes.now < 2 ^ 32 }
    ensures { memory.new ≡ words.with_spans memory.old (buffers.listed spans) bytes.now }
{
    match (spans.first, spans.second) {
        (Some(at), Some(next)) => {
            let front = bytes.len().saturating_sub(next.length as usize);
            put_bytes(memory, at.address, &bytes[..front]);
            put_bytes(memory, next.address, &bytes[front..]);
        }
        (Some(at), None) => put_bytes(memory, at.address, bytes),
        (None, Some(at)) => put_bytes(memory, at.address, bytes),
        (None, None) => {}
    }
}

/// What an answer does to the threads.
#[tactic(auto, unfolding(plain_process::specs::Put::after_threads, plain_process::specs::Threads::with_new_thread, plain_process::specs::Put::added_thread))]
fn change_threads(
    alloc: Global,
    user: &mut UserPart,
    t: Tid,
    request: &Request,
    reply: Reply,
) -> Result<(), AllocError>
    ensures { IfOk result (λ done. user.new ≡ words.after_threads user.old t.0 request.now reply) }
{
    match *request {
        Request::Exit { .. } => {
            end_thread(alloc, user, t);
            Ok(())
        }
        Request::Clone {
            flags,
            stack,
            tls,
            child_tid,
            ..
        } => {
            let Some(new) = added_thread(request, reply) else {
                return Ok(());
            };
            let Some(caller) = user.threads.get(t.0) else {
                return Ok(());
            };
            let thread = new_thread(alloc, caller, flags, stack, tls, child_tid);
            user.threads.insert(new, thread)?;
            Ok(())
        }
        _ => Ok(()),
    }
}

/// The thread that a clone with these arguments makes of its caller.
fn new_thread(
    alloc: Global,
    caller: &ThreadPart,
    flags: u32,
    stack: u32,
    tls: u32,
    child_tid: u32,
) -> ThreadPart
    ensures { result ≡ new_thread caller.now flags stack tls child_tid }
{
    ThreadPart {
        regs: new_regs(caller.regs, flags, stack, tls),
        mask: caller.mask,
        clear_tid: new_clear_tid(flags, child_tid),
        contexts: ListOf::new(alloc),
    }
}
