ghost use Rattle.std.specs.Prelude.{◌≡◌, ◌≢◌, ◌↔◌, ◌≤◌, Some, false, option_map};
ghost use Rattle.std.specs.FinMap as map;
ghost use Rattle.plain_process.specs.Steps.{user_step, user_steps, waits};
ghost use Rattle.guest_proc.specs.Guests.{HasThread, Tells, ran_at};

use crate::guest::Guest;
use crate::look::look_at;
use crate::ran::{Ran, ran_of};
use plain_process::Regs;
use sys_abi::Tid;

impl Guest {
    /// The registers of a thread that is there.
    fn regs_of(&self, t: Tid) -> Regs
        requires { HasThread self.now.user t.0 }
        ensures { option_map (λ thread. thread.regs) (map.get self.now.user.threads t.0) ≡ Some result }
    {
        self.group.regs(t)
    }

    /// Whether the thread waits on a word.
    fn waits(&self, t: Tid) -> bool
        ensures { result ≡ waits self.now.user t.0 }
    {
        self.group.waits(t)
    }

    /// Runs instructions of a thread, at most `quantum` of them, until one asks for a call or traps. Tells
    /// how many it ran and where the thread stands then: `Whole` exactly where it ran all of them.
    pub fn run(&mut self, t: Tid, quantum: u32) -> (u32, Ran)
        requires thread { HasThread self.old.user t.0 }
        requires some { 1 ≤ quantum }
        ensures steps { user_steps result.0 self.old.user t.0 ≡ Some self.new.user }
        ensures pid { self.new.pid ≡ self.old.pid }
        ensures spare { self.new.spare ≡ self.old.spare }
        ensures place { Tells result.1 (user_step self.new.user t.0) }
        ensures whole { (result.1 ≡ Ran.Whole) ↔ (result.0 ≡ quantum) }
        ensures count { result.0 ≤ quantum }
    {
        if self.waits(t) {
            return (0, Ran::Waits);
        }
        self.run_thread(t, quantum)
    }

    fn run_thread(&mut self, t: Tid, quantum: u32) -> (u32, Ran)
        requires thread { HasThread self.old.user t.0 }
        requires idle { waits self.old.user t.0 ≡ false }
        ensures steps { user_steps result.0 self.old.user t.0 ≡ Some self.new.user }
        ensures pid { self.new.pid ≡ self.old.pid }
        ensures spare { self.new.spare ≡ self.old.spare }
        ensures place { Tells result.1 (user_step self.new.user t.0) }
        ensures whole { (result.1 ≡ Ran.Whole) ↔ (result.0 ≡ quantum) }
        ensures count { result.0 ≤ quantum }
        ensures running { result.1 ≢ Ran.Waits }
    {
        let mut regs = self.regs_of(t);
        let (count, stop) = self.memory.run(&mut regs, quantum);
        self.group.set_regs(t, regs);
        (count, ran_of(stop, &regs))
    }

    /// Where a thread stands: `Whole` exactly where its next instruction goes on. Changes nothing and takes
    /// no memory.
    pub fn look(&self, t: Tid) -> Ran
        requires { HasThread self.now.user t.0 }
        ensures { result ≡ ran_at (user_step self.now.user t.0) }
    {
        if self.waits(t) {
            return Ran::Waits;
        }
        let regs = self.regs_of(t);
        look_at(&regs, self.memory.ram())
    }
}
