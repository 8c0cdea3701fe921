//! rt_sigaction, rt_sigprocmask and rt_sigreturn (`man 2 sigaction`, `man 2 sigprocmask`, `man 2 sigreturn`),
//! and the entry into a handler (`man 7 signal`).
ghost use Rattle.std.specs.Prelude.{◌≡◌, ◌==◌, ◌<◌, ◌&&◌, ◌||◌, ◌-◌, ℕ, List, length, not, nat_le, slice_set, is_some, true, Some, IfSome, if◌then◌else◌};
ghost use Rattle.std.specs.FinMap as map;
ghost use Rattle.sys_abi.specs.Signals.{is_signal as is_number};
ghost use Rattle.views.specs.Limits.{CONTEXT_LIMIT};
ghost use Rattle.plain_process.specs.Deliveries.{action_on};
ghost use Rattle.plain_process.specs.Rows.Handlers as rows;
ghost use Rattle.plain_process.specs.Steps.{with_thread};
ghost use Rattle.plain_process.specs.declared.user_part.ThreadPart.{ThreadPart};
ghost use Rattle.guest_threads.specs.Threads.{with_contexts, earlier};
ghost use Rattle.process_memory.specs.Local.{DoesRow, NamesAction, NamesSet};
ghost use Rattle.process_memory.specs.MemoryParts.{MemoryPart};
ghost use Rattle.thread_group.specs.Groups.{entered_in, joined, with_change};
ghost use Rattle.thread_group.specs.Local.{action_told, mask_told, stays_told};

use crate::group::ThreadGroup;
use plain_process::handlers::{is_uncatchable, mask_by};
use plain_process::{Context, SignalAction};
use process_memory::{INVALID, LocalFault};
use sys_abi::signals::is_signal;
use sys_abi::{Signal, Tid};
use views::list_of::ListOf;

/// Whether rt_sigaction takes these arguments; it names a new action or doesn't.
fn is_action_call(signal: u32, has_action: bool, size: u32) -> bool
    ensures { result ≡ ((size == 8) && is_number signal && (not has_action || not (rows.is_uncatchable signal))) }
{
    size == 8 && is_signal(signal) && (!has_action || !is_uncatchable(signal))
}

fn is_mask_call(how: u32, size: u32) -> bool
    ensures { result ≡ ((size == 8) && nat_le how 2) }
{
    size == 8 && how <= 2
}

fn put_action(actions: &mut ListOf<SignalAction>, signal: u32, action: SignalAction)
    ensures { actions.new ≡ slice_set actions.old (signal - 1) action }
{
    let index = signal.saturating_sub(1) as usize;
    if index < actions.len() {
        actions.set(index, action);
    }
}

impl ThreadGroup {
    /// Enters the handler of a signal: saves what it interrupts, and has the thread go on in the handler. It
    /// waits no more. Takes no memory.
    pub fn enter(&mut self, t: Tid, s: Signal, is_unready: bool)
        requires { IfSome (map.get self.old.threads t.0) (λ thread. length thread.contexts < CONTEXT_LIMIT) }
        ensures entered { (memory : MemoryPart) → joined memory self.new
            ≡ entered_in (joined memory self.old) t.0 (action_on (joined memory self.old) s.0) s.0 is_unready
            (map.get self.old.threads t.0) }
        ensures spare { self.new.spare ≡ self.old.spare }
    {
        let action = self.action_on(s);
        self.threads.enter_handler(t.0, action, s, is_unready);
        self.waiters.remove(t.0);
    }

    fn set_action(&mut self, signal: u32, new: Option<SignalAction>)
        ensures set { (memory : MemoryPart) (given : List ℕ) (address : ℕ) → NamesAction new given address
            → joined memory self.new ≡ (if address == 0 then joined memory self.old
            else rows.with_action (joined memory self.old) signal (rows.action_in given)) }
        ensures spare { self.new.spare ≡ self.old.spare }
    {
        if let Some(action) = new {
            put_action(&mut self.actions, signal, action);
        }
    }

    /// rt_sigaction: it answers the old action.
    #[tactic(auto, unfolding(plain_process::specs::Rows::Handlers::sigaction_row, plain_process::specs::Attempts::and_then, plain_process::specs::Attempts::need))]
    pub(crate) fn sigaction(
        &mut self,
        signal: u32,
        new: Option<SignalAction>,
        size: u32,
    ) -> Result<SignalAction, LocalFault>
        ensures row { (memory : MemoryPart) (given : List ℕ) (address : ℕ) → NamesAction new given address
            → DoesRow action_told (joined memory self.old) (joined memory self.new)
            (rows.sigaction_row (joined memory self.old) given signal address size) result }
        ensures spare { self.new.spare ≡ self.old.spare }
    {
        if !is_action_call(signal, new.is_some(), size) {
            return Err(INVALID);
        }
        let old = self.action_on(Signal(signal));
        self.set_action(signal, new);
        Ok(old)
    }

    fn set_mask(&mut self, t: Tid, how: u32, new: Option<u32>)
        requires { is_some (map.get self.old.threads t.0) ≡ true }
        ensures set { (memory : MemoryPart) (given : List ℕ) (address : ℕ) (thread : ThreadPart)
            → NamesSet new given address → map.get self.old.threads t.0 ≡ Some thread
            → joined memory self.new ≡ (if address == 0 then joined memory self.old
            else with_thread (joined memory self.old) t.0
            (rows.with_mask thread (rows.mask_by how thread.mask (rows.word_in given 0))) memory.pages) }
        ensures spare { self.new.spare ≡ self.old.spare }
    {
        if let Some(set) = new {
            let mask = mask_by(how, self.mask(t), set);
            self.threads.set_mask(t.0, mask);
        }
    }

    /// rt_sigprocmask: it answers the old mask.
    #[tactic(auto, unfolding(plain_process::specs::Rows::Handlers::sigprocmask_row, plain_process::specs::Attempts::and_then, plain_process::specs::Attempts::need))]
    pub(crate) fn sigprocmask(
        &mut self,
        t: Tid,
        how: u32,
        new: Option<u32>,
        size: u32,
    ) -> Result<u32, LocalFault>
        requires { is_some (map.get self.old.threads t.0) ≡ true }
        ensures row { (memory : MemoryPart) (given : List ℕ) (address : ℕ) (thread : ThreadPart)
            → NamesSet new given address → map.get self.old.threads t.0 ≡ Some thread
            → DoesRow mask_told (joined memory self.old) (joined memory self.new)
            (rows.sigprocmask_row (joined memory self.old) t.0 thread given how address size) result }
        ensures spare { self.new.spare ≡ self.old.spare }
    {
        if !is_mask_call(how, size) {
            return Err(INVALID);
        }
        let old = self.mask(t);
        self.set_mask(t, how, new);
        Ok(old)
    }

    /// Takes out the context that the thread's last handler interrupted.
    fn pop_context(&mut self, t: Tid) -> Option<Context>
        ensures last { (thread : ThreadPart) → map.get self.old.threads t.0 ≡ Some thread
            → result ≡ rows.last_context thread.contexts }
        ensures rest { self.new ≡ with_change self.old t.0
            (λ thread. with_contexts thread (earlier thread.contexts)) }
    {
        self.threads.pop_context(t.0)
    }

    fn put_mask(&mut self, t: Tid, mask: u32)
        ensures { self.new ≡ with_change self.old t.0 (λ thread. rows.with_mask thread mask) }
    {
        self.threads.set_mask(t.0, mask);
    }

    /// rt_sigreturn: the thread goes on as its last handler found it.
    pub(crate) fn sigreturn(&mut self, t: Tid) -> Result<(), LocalFault>
        ensures row { (memory : MemoryPart) (thread : ThreadPart) → map.get self.old.threads t.0 ≡ Some thread
            → DoesRow stays_told (joined memory self.old) (joined memory self.new)
            (rows.sigreturn_row (joined memory self.old) t.0 thread) result }
        ensures spare { self.new.spare ≡ self.old.spare }
    {
        let Some(context) = self.pop_context(t) else {
            return Err(INVALID);
        };
        self.set_regs(t, context.regs);
        self.put_mask(t, context.mask);
        Ok(())
    }
}
