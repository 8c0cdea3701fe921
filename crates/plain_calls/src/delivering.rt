ghost use Rattle.std.specs.Prelude.{◌≡◌, IfOk, IfSome};
ghost use Rattle.std.specs.FinMap as map;
ghost use Rattle.plain_process.specs.Deliveries as words;
ghost use Rattle.plain_process.specs.Steps.{user_step};
ghost use Rattle.plain_steps.specs.Results.{step_told};
ghost use Rattle.plain_process.specs.Delivered.{delivery_told, KeepsUnlessEntered};

use crate::waking::stop_waiting;
use call_table::Delivered;
use plain_process::deliveries::{action_on, decided, handler_mask, handler_regs, interrupted};
use plain_process::user_part::{Context, SignalAction, ThreadPart, UserPart};
use plain_steps::steps::{UserStep, user_step};
use std::alloc::{AllocError, Global};
use sys_abi::{Signal, Tid};
use views::duplicate::Duplicate;

/// A step of a thread and the part after it.
#[derive(Drop)]
pub struct Looked {
    pub place: UserStep,
    pub after: UserPart,
}

/// The next step of a thread, made on a copy of its process's part.
pub fn look(alloc: Global, user: &UserPart, t: Tid) -> Result<Looked, AllocError>
    ensures { IfOk result (λ looked. user_step user.now t.0 ≡ step_told looked.place looked.after) }
{
    let mut after = user.duplicate(alloc)?;
    let place = user_step(&mut after, t);
    Ok(Looked { place, after })
}

/// Whether the thread's next instruction traps with the signal.
pub fn traps_with(alloc: Global, user: &UserPart, t: Tid, s: Signal) -> Result<bool, AllocError>
    ensures { IfOk result (λ traps. traps ≡ words.traps_with (user_step user.now t.0) s.0) }
{
    match look(alloc, user, t)?.place {
        UserStep::Trapped(trap) => Ok(trap.0 == s.0),
        _ => Ok(false),
    }
}

/// Delivers a signal to a thread, which waits on a word or stands at a call that isn't ready, or doesn't. A
/// delivery that enters no handler leaves the part as it was.
#[tactic(auto, unfolding(plain_process::specs::Deliveries::deliver))]
pub fn deliver(
    alloc: Global,
    user: &mut UserPart,
    t: Tid,
    s: Signal,
    is_unready: bool,
) -> Result<Delivered, AllocError>
    ensures delivery { IfOk result (λ told. words.deliver user.old t.0 s.0 is_unready ≡ delivery_told told user.new) }
    ensures stays { IfOk result (λ told. KeepsUnlessEntered told user.old user.new) }
{
    let is_trap = traps_with(alloc, user, t, s)?;
    let action = action_on(user.actions.as_slice(), s);
    let Some(thread) = user.threads.get(t.0) else {
        return Ok(Delivered::Ignored);
    };
    match decided(action, s, thread.mask, thread.contexts.len(), is_trap) {
        Delivered::Entered => {
            enter(alloc, user, t, action, s, is_unready)?;
            Ok(Delivered::Entered)
        }
        other => Ok(other),
    }
}

/// The thread goes on in the handler of a signal, and waits no more.
fn enter(
    alloc: Global,
    user: &mut UserPart,
    t: Tid,
    action: SignalAction,
    s: Signal,
    is_unready: bool,
) -> Result<(), AllocError>
    ensures { IfOk result (λ done. IfSome (map.get user.old.threads t.0) (λ thread. user.new ≡ words.with_entered user.old t.0 thread action s.0 is_unready)) }
{
    let Some(thread) = user.threads.get(t.0) else {
        return Ok(());
    };
    let entered = entered(alloc, thread, action, s, is_unready)?;
    user.threads.insert(t.0, entered)?;
    stop_waiting(alloc, user, t.0);
    Ok(())
}

/// A thread in the handler of a signal, with what the handler interrupts saved.
fn entered(
    alloc: Global,
    thread: &ThreadPart,
    action: SignalAction,
    s: Signal,
    is_unready: bool,
) -> Result<ThreadPart, AllocError>
    ensures { IfOk result (λ after. after ≡ words.entered thread.now action s.0 is_unready) }
{
    let mut contexts = thread.contexts.duplicate(alloc)?;
    contexts.push(Context {
        regs: interrupted(is_unready, action.flags, thread.regs),
        mask: thread.mask,
    })?;
    Ok(ThreadPart {
        regs: handler_regs(thread.regs, s, action.handler),
        mask: handler_mask(thread.mask, action, s),
        clear_tid: thread.clear_tid,
        contexts,
    })
}
