ghost use Rattle.std.specs.Prelude.{◌≡◌, true};
ghost use Rattle.plain_machine.specs.Kernel as words;

use crate::kernel::PlainKernel;
use plain_tables::pending::{raise_at, raise_for_all_at, take_at};
use plain_tables::sys_abi::{Signal, Tid, VPid};

impl PlainKernel {
    /// The signals that are pending for the thread or its process.
    #[tactic(auto, unfolding(crate::specs::Kernel::pending))]
    pub fn pending(&self, p: VPid, t: Tid) -> u32
        ensures { result ≡ words.pending self.now p t.0 }
    {
        match self.processes.get(p) {
            Some(process) => process.signals_of(t.0) | process.pending,
            None => 0,
        }
    }

    /// Takes a pending signal away, of the thread if it has it and else of its process. Takes no memory.
    #[tactic(auto, unfolding(crate::specs::Kernel::after_take))]
    pub fn take(&mut self, p: VPid, t: Tid, s: Signal)
        ensures { self.new ≡ words.after_take self.old p t.0 s.0 }
    {
        take_at(&mut self.processes, p, t.0, s);
    }

    /// Makes the signal pending for a thread that is there. Takes no memory.
    #[tactic(auto, unfolding(crate::specs::Kernel::after_raise))]
    pub fn raise(&mut self, p: VPid, t: Tid, s: Signal)
        requires { words.has_thread self.old p t.0 ≡ true }
        ensures { self.new ≡ words.after_raise self.old p t.0 s.0 }
    {
        raise_at(&mut self.processes, p, t.0, s);
    }

    /// Makes the signal pending for a process that is there. Takes no memory.
    #[tactic(auto, unfolding(crate::specs::Kernel::after_raise_for_all))]
    pub fn raise_for_all(&mut self, p: VPid, s: Signal)
        ensures { self.new ≡ words.after_raise_for_all self.old p s.0 }
    {
        raise_for_all_at(&mut self.processes, p, s);
    }
}
