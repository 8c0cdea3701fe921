ghost use Rattle.std.specs.Prelude.{◌≡◌, ℕ};
ghost use Rattle.plain_machine.specs.Ends as words;

use crate::kernel::PlainKernel;
use plain_tables::ends::{disown, keep_makers, make_zombie, orphan};
use plain_tables::sys_abi::signals::SIGCHLD;
use plain_tables::sys_abi::{Signal, Tid, VPid};
use plain_tables::threads::remove_thread;
use std::alloc::Global;

/// A process has at most so many descriptors.
pub const DESCRIPTOR_LIMIT: u32 = 256;

/// The status that a code of exit gives (`man 2 wait4`).
pub fn exit_status(code: u32) -> u32
    ensures { result ≡ words.exit_status code }
{
    code % 256 * 256
}

impl PlainKernel {
    /// Ends a process: its descriptors close, what it owned has no owner, its children have no parent and its
    /// zombies go; then it is a zombie with this status, of which its live parent hears by a signal, or
    /// without one it is gone. Takes no memory.
    #[tactic(auto, unfolding(crate::specs::Ends::after_end))]
    pub fn end_process(&mut self, alloc: Global, p: VPid, status: u32)
        ensures { self.new ≡ words.after_end self.old p status }
    {
        let Some(process) = self.processes.get(p) else {
            self.leave_all(alloc, p);
            return;
        };
        let parent = VPid(process.parent);
        self.leave_all(alloc, p);
        self.leave_to(alloc, p, status, parent);
    }

    #[tactic(auto, unfolding(crate::specs::Ends::closed_below))]
    fn close_below(&mut self, alloc: Global, p: VPid, count: u32)
        ensures { self.new ≡ words.closed_below self.old p count }
    {
        for fd in 0..count {
            self.close_descriptor(alloc, p, fd);
        }
    }

    fn leave_all(&mut self, alloc: Global, p: VPid)
        ensures { self.new ≡ words.without_holds self.old p }
    {
        self.close_below(alloc, p, DESCRIPTOR_LIMIT);
        disown(&mut self.descriptions, p);
        orphan(&mut self.processes, p);
        keep_makers(&mut self.makers, &self.processes);
    }

    fn leave_to(&mut self, alloc: Global, p: VPid, status: u32, parent: VPid)
        ensures { self.new ≡ words.left_to self.old p status parent }
    {
        if self.is_live(parent) {
            self.raise_for_all(parent, Signal(SIGCHLD));
            make_zombie(&mut self.processes, alloc, p, status);
        } else {
            self.processes.remove(p);
            self.makers.remove(p);
        }
    }

    /// Ends a thread; the last one of a process takes the process with it. Takes no memory.
    #[tactic(auto, unfolding(crate::specs::Ends::thread_ended))]
    pub fn end_thread(&mut self, alloc: Global, p: VPid, t: Tid, status: u32)
        ensures { self.new ≡ words.thread_ended self.old p t.0 status }
    {
        if self.thread_count(p) <= 1 {
            self.end_process(alloc, p, status);
        } else {
            remove_thread(&mut self.processes, p, t.0);
        }
    }
}
