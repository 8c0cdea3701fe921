ghost use Rattle.std.specs.Prelude.{◌≡◌};
ghost use Rattle.plain_machine.specs.Kernel as words;
ghost use Rattle.plain_machine.specs.Tests as tests;

use crate::kernel::PlainKernel;
use plain_tables::Description;
use plain_tables::sys_abi::{Slot, VPid};

impl PlainKernel {
    /// Whether the process is there and has not ended.
    #[tactic(auto, unfolding(crate::specs::Kernel::is_live))]
    pub fn is_live(&self, p: VPid) -> bool
        ensures { result ≡ words.is_live self.now p }
    {
        match self.processes.get(p) {
            Some(process) => process.life.is_live(),
            None => false,
        }
    }

    /// Whether some process lives.
    #[tactic(auto, unfolding(crate::specs::Tests::has_life))]
    pub fn has_life(&self) -> bool
        ensures { result ≡ tests.has_life self.now }
    {
        self.processes
            .values()
            .any(|process| process.life.is_live())
    }

    /// How many threads the process has, 0 where it is not there.
    pub fn thread_count(&self, p: VPid) -> usize
        ensures { result ≡ words.thread_count self.now p }
    {
        match self.processes.get(p) {
            Some(process) => process.threads.len(),
            None => 0,
        }
    }

    /// Whether the process is there and has the thread.
    pub fn has_thread(&self, p: VPid, t: u32) -> bool
        ensures { result ≡ words.has_thread self.now p t }
    {
        match self.processes.get(p) {
            Some(process) => process.threads.contains_key(t),
            None => false,
        }
    }

    /// Whether the number is that of a live process of this one's host (`man 2 kill`).
    #[tactic(auto, unfolding(crate::specs::Kernel::is_neighbour))]
    pub fn is_neighbour(&self, p: VPid, number: u32) -> bool
        ensures { result ≡ words.is_neighbour self.now p number }
    {
        if !self.is_live(VPid(number)) {
            return false;
        }
        let Some(maker) = self.makers.get(p) else {
            return false;
        };
        let Some(other) = self.makers.get(VPid(number)) else {
            return false;
        };
        maker.host == other.host
    }

    /// The open description to which a descriptor of the process refers.
    #[tactic(auto, unfolding(crate::specs::Kernel::description_at))]
    pub fn description_at(&self, p: VPid, fd: u32) -> Option<Description>
        ensures { result ≡ words.description_at self.now p fd }
    {
        let descriptor = self.descriptors.get(Slot { pid: p, fd })?;
        self.descriptions.get(descriptor.desc).copied()
    }
}
