ghost use Rattle.std.specs.Prelude.{◌≡◌, Some, None, IfSome};
ghost use Rattle.plain_process.specs.Memory.{Memory, fetch};

use guest_mem::{OpenSpace, Space};
use rv_isa::{AccessFault, GuestMemory};
use std::marker::Model;

/// An address space as the memory of the processor.
#[derive(Drop)]
pub struct Ram {
    pub space: Space,
}

impl Model for Ram {
    ghost use Rattle.plain_process.specs.Memory.{Memory};
    ghost use Rattle.std.specs.FinMap as map;
    ghost use Rattle.std.specs.Coded.{coded_ℕ};
    ghost use Rattle.plain_process.specs.contracts.memory.Frame as frame;

    ghost Value = { Memory };

    ghost coded = { map.code coded_ℕ frame.the_row.coded };

    ghost view = { λ r. r.space };
}

impl Ram {
    /// The word of the instruction at an address.
    #[inline(always)]
    pub fn fetch(&self, address: u32) -> Option<u32>
        ensures { result ≡ fetch self.now address }
    {
        self.space.fetch(address).ok()
    }

    /// Takes the memory out for a stretch of instructions, where the page of an address may be executed.
    #[inline(always)]
    pub fn open(&mut self, address: u32) -> Option<OpenRam>
        ensures some { IfSome result (λ apart. apart ≡ self.old) }
        ensures none { result ≡ None → self.new ≡ self.old }
    {
        match self.space.open(address) {
            Some(space) => Some(OpenRam { space }),
            None => None,
        }
    }

    /// Has the memory that was taken out, in the place of its own.
    #[inline(always)]
    pub fn close(&mut self, apart: OpenRam)
        ensures { self.new ≡ apart }
    {
        self.space.close(apart.space);
    }
}

/// The memory of a stretch of instructions: the page of their code stands apart, so that it is fetched from
/// with no look-up while the others are written. What it can't do at speed it refuses.
#[derive(Drop)]
pub struct OpenRam {
    space: OpenSpace,
}

impl Model for OpenRam {
    ghost use Rattle.plain_process.specs.Memory.{Memory};
    ghost use Rattle.std.specs.FinMap as map;
    ghost use Rattle.std.specs.Coded.{coded_ℕ};
    ghost use Rattle.plain_process.specs.contracts.memory.Frame as frame;

    ghost Value = { Memory };

    ghost coded = { map.code coded_ℕ frame.the_row.coded };

    ghost view = { λ r. r.space };
}

impl OpenRam {
    /// The word of the instruction at an address, where it lies in the page that stands apart.
    #[inline(always)]
    pub fn fetch(&self, address: u32) -> Option<u32>
        ensures { IfSome result (λ word. fetch self.now address ≡ Some word) }
    {
        self.space.fetch(address)
    }
}

impl GuestMemory for OpenRam {
    ghost memory = { λ r. r };

    ghost may_want = { λ _. Unit {0} };

    #[inline(always)]
    fn load(&self, address: u32, size: u32) -> Result<u32, AccessFault> {
        match self.space.load(address, size) {
            Some(value) => Ok(value),
            None => Err(AccessFault::Memory),
        }
    }

    #[inline(always)]
    fn store(&mut self, address: u32, size: u32, value: u32) -> Result<(), AccessFault> {
        if self.space.store(address, size, value) {
            Ok(())
        } else {
            Err(AccessFault::Memory)
        }
    }
}

impl GuestMemory for Ram {
    ghost memory = { λ r. r };

    ghost may_want = { λ _. ⊥ };

    #[inline(always)]
    fn load(&self, address: u32, size: u32) -> Result<u32, AccessFault> {
        match self.space.load(address, size) {
            Ok(value) => Ok(value),
            Err(_) => Err(AccessFault::Fault),
        }
    }

    #[inline(always)]
    fn store(&mut self, address: u32, size: u32, value: u32) -> Result<(), AccessFault> {
        match self.space.store(address, size, value) {
            Ok(()) => Ok(()),
            Err(_) => Err(AccessFault::Fault),
        }
    }
}
