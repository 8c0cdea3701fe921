use id_maps::sys_abi::Life;
use plain_process::views::duplicate::Duplicate;
use plain_process::views::number_map::NumberMap;
use std::alloc::{AllocError, Global};

/// A process as the kernel knows it: its parent (1: nobody), its life, the signals that are pending for it,
/// and for each of its threads those that are pending for it. Bit s - 1 of a set of signals stands for signal
/// s.
#[derive(Drop)]
pub struct Process {
    pub parent: u32,
    pub life: Life,
    pub pending: u32,
    pub threads: NumberMap<u32>,
}

impl Duplicate for Process {
    fn duplicate(&self, alloc: Global) -> Result<Self, AllocError> {
        Ok(Process {
            parent: self.parent,
            life: self.life,
            pending: self.pending,
            threads: self.threads.duplicate(alloc)?,
        })
    }
}
