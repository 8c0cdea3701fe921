//! A process ends.
ghost use Rattle.std.specs.Prelude.{◌≡◌, true};
ghost use Rattle.plain_machine.specs.Ends.{after_end};
ghost use Rattle.plain_machine.specs.Kernel as plain;

use crate::wrapped::Wrapped;
use sys_abi::VPid;
use wrap_ends::end_process;
use wrap_passing::Change;

impl Wrapped {
    /// Ends a process: its descriptors close, what it owned has no owner, its children have no parent and its
    /// zombies go; then it is a zombie with this status, of which its live parent hears by a signal, or
    /// without one it is gone. Takes no memory.
    pub fn end_process(&mut self, p: VPid, status: u32)
        requires { plain.is_live self.old p ≡ true }
        ensures { self.new ≡ after_end self.old p status }
    {
        let next = self.stood.then(&Change::End(p, status));
        end_process(&mut self.system, &self.stood, self.next_id, p, status);
        self.stood = next;
    }
}
