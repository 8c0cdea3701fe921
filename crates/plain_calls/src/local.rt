ghost use Rattle.std.specs.Prelude.{◌≡◌, Some, [], IfOk};
ghost use Rattle.std.specs.FinMap as map;
ghost use Rattle.plain_process.specs.Attempts.{Gives};
ghost use Rattle.plain_process.specs.Local as words;
ghost use Rattle.plain_memory.specs.LocalAnswers.{DoesRow, answer_told};
ghost use Rattle.plain_process.specs.declared.user_part.ThreadPart.{ThreadPart};
ghost use Rattle.plain_process.specs.declared.user_part.UserPart.{UserPart};

use crate::local_handlers::{sigaction, sigprocmask, sigreturn};
use crate::local_threads::{futex, set_tid_address};
use crate::putting::{put, put_fault};
use call_table::Request;
use plain_memory::lending::lent;
use plain_memory::local_answer::LocalAnswer;
use plain_memory::local_memory::{brk, mmap, munmap};
use plain_process::handlers::{action_bytes, mask_bytes};
use plain_process::user_part::UserPart;
use std::alloc::{AllocError, Global};
use sys_abi::errors::ENOSYS;
use sys_abi::{Errno, Reply, Tid};

/// Makes the call of a thread that is there, but for its answer, where `given` are the bytes that the call
/// reads.
#[tactic(auto, unfolding(plain_process::specs::Local::local_by))]
fn local_by(
    alloc: Global,
    user: &mut UserPart,
    t: Tid,
    request: &Request,
    given: &[u8],
) -> Result<Result<LocalAnswer, Errno>, AllocError>
    ensures { IfOk result (λ attempt. (thread : ThreadPart) → map.get user.old.threads t.0 ≡ Some thread
        → DoesRow user.old user.new (words.local_by user.old t.0 thread request.now given.now) attempt) }
{
    match *request {
        Request::SetTidAddress { place } => Ok(set_tid_address(user, t, place)),
        Request::Futex {
            address,
            operation,
            value,
            timeout,
        } => futex(alloc, user, t, given, address, operation, value, timeout),
        Request::SchedYield => Ok(Ok(LocalAnswer::Value(0))),
        Request::RtSigaction {
            signal,
            action,
            size,
            ..
        } => Ok(sigaction(user, given, signal, action, size)),
        Request::RtSigprocmask { how, set, size, .. } => {
            Ok(sigprocmask(user, t, given, how, set, size))
        }
        Request::RtSigreturn => sigreturn(alloc, user, t),
        Request::Gettid => Ok(Ok(LocalAnswer::Value(t.0))),
        Request::Brk { address } => brk(alloc, user, address),
        Request::Munmap { address, length } => Ok(munmap(user, address, length)),
        Request::Mmap {
            length,
            protection,
            flags,
            ..
        } => mmap(alloc, user, length, protection, flags),
        _ => Ok(Err(Errno(ENOSYS))),
    }
}

/// Puts the answer of a call that was made.
fn put_answer(
    alloc: Global,
    user: &mut UserPart,
    t: Tid,
    request: &Request,
    answer: LocalAnswer,
) -> Result<(), AllocError>
    ensures { IfOk result (λ done. (before : UserPart) → user.new ≡ words.local_settled before t.0 request.now (Gives (answer_told user.old answer))) }
{
    match answer {
        LocalAnswer::Value(value) => put(alloc, user, t, request, Reply::Value(value), &[]),
        LocalAnswer::Action(action) => {
            put(
                alloc,
                user,
                t,
                request,
                Reply::Value(0),
                &action_bytes(action),
            )
        }
        LocalAnswer::Mask(mask) => {
            put(alloc, user, t, request, Reply::Value(0), &mask_bytes(mask))
        }
        LocalAnswer::Stays => Ok(()),
    }
}

/// The part after a call that its process answers alone.
#[tactic(auto, unfolding(plain_process::specs::Local::local_row))]
pub fn local_row(
    alloc: Global,
    user: &mut UserPart,
    t: Tid,
    request: &Request,
) -> Result<(), AllocError>
    ensures { IfOk result (λ done. user.new ≡ words.local_row user.old t.0 request.now) }
{
    let Some(_thread) = user.threads.get(t.0) else {
        return Ok(());
    };
    let Some(given) = lent(alloc, &user.memory, request)? else {
        return put_fault(alloc, user, t, request);
    };
    match local_by(alloc, user, t, request, given.as_slice())? {
        Ok(answer) => put_answer(alloc, user, t, request, answer),
        Err(errno) => put(alloc, user, t, request, Reply::Error(errno), &[]),
    }
}
