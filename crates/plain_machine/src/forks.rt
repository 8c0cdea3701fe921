ghost use Rattle.std.specs.Prelude.{◌≡◌, ◌+◌, ◌^◌, ◌<◌, OnOk};
ghost use Rattle.plain_machine.specs.Ends as words;
ghost use Rattle.plain_machine.specs.Kernel.{host_of};

use crate::end::DESCRIPTOR_LIMIT;
use crate::kernel::PlainKernel;
use plain_tables::forks::{child_process, share_below};
use plain_tables::sys_abi::{Maker, VPid};
use std::alloc::{AllocError, Global};

impl PlainKernel {
    /// The host of a process, 0 where it is not there.
    fn host_of(&self, p: VPid) -> u32
        ensures { result ≡ host_of self.now p }
    {
        match self.makers.get(p) {
            Some(maker) => maker.host,
            None => 0,
        }
    }

    /// A child of the process more, with the next number, on its host and with its descriptors
    /// (`man 2 fork`).
    #[tactic(auto, unfolding(crate::specs::Ends::after_fork))]
    pub fn add_child(&mut self, alloc: Global, p: VPid) -> Result<(), AllocError>
        requires { self.old.next_id + 1 < 2 ^ 32 }
        ensures { OnOk result (self.new ≡ words.after_fork self.old p) }
    {
        let number = self.next_id;
        let child = VPid(number);
        let maker = Maker {
            host: self.host_of(p),
            made: 1,
        };
        let process = child_process(alloc, p.0, number)?;
        self.processes.insert(child, process)?;
        self.makers.insert(child, maker)?;
        share_below(&mut self.descriptors, p, child, DESCRIPTOR_LIMIT)?;
        self.next_id = number + 1;
        Ok(())
    }
}
