ghost use Rattle.std.specs.Prelude.{◌≡◌, None};
ghost use Rattle.plain_process.specs.Instructions.{effect};
ghost use Rattle.guest_start.specs.Peeking.{memory_of, IsTaken, IsOutcomeOf};

use crate::ram::Ram;
use plain_process::{Insn, Regs};
use rv_isa::{AccessFault, GuestMemory, Outcome, exec};

/// A store that is not made yet.
#[derive(Clone, Copy)]
pub struct Pending {
    pub address: u32,
    pub size: u32,
    pub value: u32,
}

/// A memory that is only looked at: one store on it is remembered and not made, and nothing follows it.
#[derive(Drop)]
pub struct Peek<'a> {
    pub ram: &'a Ram,
    pub pending: Option<Pending>,
}

impl GuestMemory for Peek<'_> {
    ghost memory = { memory_of };

    ghost may_want = { IsTaken };

    fn load(&self, address: u32, size: u32) -> Result<u32, AccessFault> {
        match self.pending {
            Some(_) => Err(AccessFault::Memory),
            None => self.ram.load(address, size),
        }
    }

    fn store(&mut self, address: u32, size: u32, value: u32) -> Result<(), AccessFault> {
        if self.pending.is_some() {
            return Err(AccessFault::Memory);
        }
        let ram = self.ram;
        if !ram.space.is_writable(address, size) {
            return Err(AccessFault::Fault);
        }
        self.pending = Some(Pending {
            address,
            size,
            value,
        });
        Ok(())
    }
}

/// What the instruction would come to on these registers and this memory.
pub fn outcome_of(insn: Insn, regs: &Regs, ram: &Ram) -> Outcome
    ensures { IsOutcomeOf result (effect insn regs.now ram.now) }
{
    let mut after = *regs;
    let mut peek = Peek { ram, pending: None };
    exec(insn, &mut after, &mut peek)
}
