//! What a process that waits for its children finds (`man 2 wait4`).
ghost use Rattle.std.specs.Prelude.{◌≡◌};
ghost use Rattle.plain_tables.specs.Waits as words;

use crate::kernel::PlainKernel;
use plain_tables::sys_abi::VPid;
use plain_tables::waiting::{Waiting, wait_any, wait_by};

impl PlainKernel {
    /// What a wait of a process finds, for this child or for any.
    pub fn wait_for(&self, p: VPid, child: Option<VPid>) -> Waiting
        ensures { result ≡ words.wait_for self.now.processes p child }
    {
        match child {
            None => wait_any(&self.processes, p),
            Some(child) => wait_by(&self.processes, p, child),
        }
    }
}
