ghost use Rattle.std.specs.Prelude.{◌≡◌, ◌+◌, ◌^◌, ◌<◌, OnOk, OnErr};
ghost use Rattle.plain_machine.specs.Kernel as words;

use crate::kernel::PlainKernel;
use plain_tables::sys_abi::VPid;
use plain_tables::threads::insert_thread;
use std::alloc::AllocError;

impl PlainKernel {
    /// A thread more, with the next number. Without memory all is as before.
    #[tactic(auto, unfolding(crate::specs::Kernel::with_next_thread))]
    pub fn add_thread(&mut self, p: VPid) -> Result<(), AllocError>
        requires { self.old.next_id + 1 < 2 ^ 32 }
        ensures ok { OnOk result (self.new ≡ words.with_next_thread self.old p) }
        ensures err { OnErr result (self.new ≡ self.old) }
    {
        insert_thread(&mut self.processes, p, self.next_id)?;
        self.next_id += 1;
        Ok(())
    }
}
