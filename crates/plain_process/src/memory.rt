use call_table::sys_abi::Page;
use elf32::views::duplicate::Duplicate;
use std::alloc::{AllocError, Global};

/// What an access needs of its page: a load reads, a store writes, a fetch executes (ELF's `PF_R`, `PF_W`,
/// `PF_X`).
#[derive(Clone, Copy)]
pub enum Right {
    Read,
    Write,
    Execute,
}

/// A page of a process's memory: its rights (4 reads, 2 writes, 1 executes) and its 4,096 bytes.
#[derive(Drop)]
pub struct Frame {
    pub rights: u8,
    pub page: Page,
}

impl Duplicate for Frame {
    fn duplicate(&self, alloc: Global) -> Result<Self, AllocError> {
        Ok(Frame {
            rights: self.rights,
            page: self.page.duplicate(alloc)?,
        })
    }
}
