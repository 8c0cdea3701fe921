ghost use Rattle.std.specs.Prelude.{◌≡◌, ◌==◌, ◌&&◌, ◌||◌, ◌-◌, not, nat_le, slice_set, Some, IfOk, IfSome, IfNone};
ghost use Rattle.std.specs.Option.{option_map};
ghost use Rattle.std.specs.FinMap as map;
ghost use Rattle.sys_abi.specs.Signals.{is_signal as is_number};
ghost use Rattle.plain_memory.specs.LocalAnswers.{DoesRow};
ghost use Rattle.plain_process.specs.Rows.Handlers as rows;
ghost use Rattle.plain_process.specs.declared.user_part.ThreadPart.{ThreadPart};

use plain_memory::local_answer::LocalAnswer;
use plain_process::deliveries::action_on;
use plain_process::handlers::{action_in, is_uncatchable, mask_by, word_in};
use plain_process::user_part::{SignalAction, ThreadPart, UserPart};
use std::alloc::{AllocError, Global};
use sys_abi::errors::EINVAL;
use sys_abi::signals::is_signal;
use sys_abi::{Errno, Signal, Tid};
use views::list_of::ListOf;
use views::number_map::NumberMap;

/// Whether rt_sigaction takes these arguments.
fn is_action_call(signal: u32, action: u32, size: u32) -> bool
    ensures { result ≡ ((size == 8) && is_number signal && ((action == 0) || not (rows.is_uncatchable signal))) }
{
    size == 8 && is_signal(signal) && (action == 0 || !is_uncatchable(signal))
}

fn is_mask_call(how: u32, size: u32) -> bool
    ensures { result ≡ ((size == 8) && nat_le how 2) }
{
    size == 8 && how <= 2
}

fn put_action(actions: &mut ListOf<SignalAction>, signal: u32, action: SignalAction)
    ensures { actions.new ≡ slice_set actions.old (signal - 1) action }
{
    let index = signal.saturating_sub(1) as usize;
    if index < actions.len() {
        actions.set(index, action);
    }
}

/// rt_sigaction: it answers the old action.
#[tactic(auto, unfolding(plain_process::specs::Rows::Handlers::sigaction_row, plain_process::specs::Attempts::and_then, plain_process::specs::Attempts::need))]
pub fn sigaction(
    user: &mut UserPart,
    given: &[u8],
    signal: u32,
    action: u32,
    size: u32,
) -> Result<LocalAnswer, Errno>
    ensures { DoesRow user.old user.new (rows.sigaction_row user.old given.now signal action size) result }
{
    if !is_action_call(signal, action, size) {
        return Err(Errno(EINVAL));
    }
    let old = action_on(user.actions.as_slice(), Signal(signal));
    if action == 0 {
        return Ok(LocalAnswer::Action(old));
    }
    put_action(&mut user.actions, signal, action_in(given));
    Ok(LocalAnswer::Action(old))
}

/// Sets the mask of a thread, if it is there.
fn set_mask(threads: &mut NumberMap<ThreadPart>, t: Tid, mask: u32)
    ensures there { IfSome (map.get threads.old t.0) (λ thread. threads.new ≡ map.insert threads.old t.0 (rows.with_mask thread mask)) }
    ensures none { IfNone (map.get threads.old t.0) (threads.new ≡ threads.old) }
{
    if let Some(thread) = threads.get_mut(t.0) {
        thread.mask = mask;
    }
}

/// rt_sigprocmask of a thread that is there: it answers the old mask.
#[tactic(auto, unfolding(plain_process::specs::Rows::Handlers::sigprocmask_row, plain_process::specs::Attempts::and_then, plain_process::specs::Attempts::need))]
pub fn sigprocmask(
    user: &mut UserPart,
    t: Tid,
    given: &[u8],
    how: u32,
    set: u32,
    size: u32,
) -> Result<LocalAnswer, Errno>
    ensures { (thread : ThreadPart) → map.get user.old.threads t.0 ≡ Some thread
        → DoesRow user.old user.new (rows.sigprocmask_row user.old t.0 thread given.now how set size) result }
{
    let Some(thread) = user.threads.get(t.0) else {
        return Err(Errno(EINVAL));
    };
    if !is_mask_call(how, size) {
        return Err(Errno(EINVAL));
    }
    let old = thread.mask;
    if set == 0 {
        return Ok(LocalAnswer::Mask(old));
    }
    let mask = mask_by(how, old, word_in(given, 0));
    set_mask(&mut user.threads, t, mask);
    Ok(LocalAnswer::Mask(old))
}

/// The thread as it was before its last handler, where it is in one.
fn returned(alloc: Global, thread: &ThreadPart) -> Result<Option<ThreadPart>, AllocError>
    ensures { IfOk result (λ after. after ≡ option_map (rows.returned thread.now) (rows.last_context thread.now.contexts)) }
{
    let earlier = thread.contexts.len().saturating_sub(1);
    let Some(context) = thread.contexts.get(earlier) else {
        return Ok(None);
    };
    let contexts = thread.contexts.as_slice()[..earlier].to_vec(alloc)?;
    Ok(Some(ThreadPart {
        regs: context.regs,
        mask: context.mask,
        clear_tid: thread.clear_tid,
        contexts: ListOf::from_vec(contexts),
    }))
}

/// rt_sigreturn of a thread that is there: it goes on as its last handler found it.
#[tactic(auto, unfolding(plain_process::specs::Rows::Handlers::sigreturn_row, plain_process::specs::Attempts::and_then, plain_process::specs::Attempts::found))]
pub fn sigreturn(
    alloc: Global,
    user: &mut UserPart,
    t: Tid,
) -> Result<Result<LocalAnswer, Errno>, AllocError>
    ensures { IfOk result (λ attempt. (thread : ThreadPart) → map.get user.old.threads t.0 ≡ Some thread
        → DoesRow user.old user.new (rows.sigreturn_row user.old t.0 thread) attempt) }
{
    let Some(thread) = user.threads.get(t.0) else {
        return Ok(Err(Errno(EINVAL)));
    };
    let Some(after) = returned(alloc, thread)? else {
        return Ok(Err(Errno(EINVAL)));
    };
    user.threads.insert(t.0, after)?;
    Ok(Ok(LocalAnswer::Stays))
}
