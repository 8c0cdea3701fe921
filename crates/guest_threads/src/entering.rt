//! The entry into a signal's handler (`man 7 signal`).
ghost use Rattle.std.specs.Prelude.{◌≡◌, ◌<◌, length, IfSome};
ghost use Rattle.std.specs.FinMap as map;
ghost use Rattle.views.specs.Limits.{CONTEXT_LIMIT};
ghost use Rattle.plain_process.specs.Deliveries.{entered};
ghost use Rattle.guest_threads.specs.Threads.{at_thread};

use crate::threads::Threads;
use plain_process::deliveries::{handler_mask, handler_regs, interrupted};
use plain_process::{Context, SignalAction};
use sys_abi::Signal;

impl Threads {
    /// Saves what the handler of a signal interrupts, and has the thread go on in the handler, if it is
    /// there.
    pub fn enter_handler(&mut self, t: u32, action: SignalAction, s: Signal, is_unready: bool)
        requires { IfSome (map.get self.old.threads t) (λ thread. length thread.contexts < CONTEXT_LIMIT) }
        ensures { self.new ≡ at_thread self.old t (λ thread. entered thread action s.0 is_unready) }
    {
        let Some(regs) = self.regs(t) else {
            return;
        };
        let Some(mask) = self.mask(t) else {
            return;
        };
        let saved = Context {
            regs: interrupted(is_unready, action.flags, regs),
            mask,
        };
        self.push_context(t, saved);
        self.set_mask(t, handler_mask(mask, action, s));
        self.set_regs(t, handler_regs(regs, s, action.handler));
    }
}
