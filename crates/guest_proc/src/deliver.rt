ghost use Rattle.std.specs.Prelude.{◌≡◌, ◌<◌, Bool, Some, length, option_map, IfSome};
ghost use Rattle.std.specs.FinMap as map;
ghost use Rattle.plain_process.specs.Deliveries as words;
ghost use Rattle.plain_process.specs.Steps.{user_step};
ghost use Rattle.views.specs.Limits.{CONTEXT_LIMIT};
ghost use Rattle.thread_group.specs.Groups.{entered_in};
ghost use Rattle.guest_proc.specs.Guests.{HasThread, with_user, delivered_by, part_after};

use crate::guest::Guest;
use crate::ran::Ran;
use call_table::Delivered;
use plain_process::SignalAction;
use plain_process::deliveries::decided;
use sys_abi::{Signal, Tid};

impl Guest {
    /// What the delivery of a signal to a thread would come to.
    pub fn foresee(&self, t: Tid, s: Signal) -> Delivered
        requires { HasThread self.now.user t.0 }
        ensures { (not_ready : Bool) → result ≡ delivered_by (words.deliver self.now.user t.0 s.0 not_ready) }
    {
        let action = self.action_on(s);
        let mask = self.mask(t);
        let count = self.context_count(t);
        decided(action, s, mask, count, self.traps_with(t, s))
    }

    /// Delivers a signal to a thread, which waits on a word or stands at a call that isn't ready, or doesn't.
    /// Takes no memory.
    pub fn deliver(&mut self, t: Tid, s: Signal, not_ready: bool) -> Delivered
        requires { HasThread self.old.user t.0 }
        ensures told { result ≡ delivered_by (words.deliver self.old.user t.0 s.0 not_ready) }
        ensures part { self.new ≡ record self.old { user = part_after self.old.user (words.deliver self.old.user t.0 s.0 not_ready) } }
    {
        match self.foresee(t, s) {
            Delivered::Entered => {
                self.enter(t, s, not_ready);
                Delivered::Entered
            }
            delivered => delivered,
        }
    }

    /// Enters the handler of a signal.
    fn enter(&mut self, t: Tid, s: Signal, is_unready: bool)
        requires { IfSome (map.get self.old.user.threads t.0) (λ thread. length thread.contexts < CONTEXT_LIMIT) }
        ensures { self.new ≡ with_user self.old (entered_in self.old.user t.0 (words.action_on self.old.user s.0) s.0 is_unready (map.get self.old.user.threads t.0)) }
    {
        self.group.enter(t, s, is_unready);
    }

    /// What the process does on a signal.
    fn action_on(&self, s: Signal) -> SignalAction
        ensures { result ≡ words.action_on self.now.user s.0 }
    {
        self.group.action_on(s)
    }

    /// How many contexts a thread that is there has saved.
    fn context_count(&self, t: Tid) -> usize
        requires { HasThread self.now.user t.0 }
        ensures { option_map (λ thread. length thread.contexts) (map.get self.now.user.threads t.0) ≡ Some result }
    {
        self.group.context_count(t)
    }

    /// Whether the thread's next instruction traps with the signal.
    fn traps_with(&self, t: Tid, s: Signal) -> bool
        requires { HasThread self.now.user t.0 }
        ensures { result ≡ words.traps_with (user_step self.now.user t.0) s.0 }
    {
        match self.look(t) {
            Ran::Trapped(trap) => trap.0 == s.0,
            _ => false,
        }
    }
}
