//! Descriptors that a process holds, finds free and gets, and the numbers of what it makes.
ghost use Rattle.std.specs.Prelude.{◌≡◌, ◌+◌, ◌^◌, ◌<◌, OnOk};
ghost use Rattle.plain_tables.specs.OfSysAbi.declared.errors.TheConstants.{EMFILE};
ghost use Rattle.plain_tables.specs.OfPlainProcess.Attempts.{found};
ghost use Rattle.plain_machine.specs.Kernel as words;
ghost use Rattle.plain_machine.specs.HeldTold.{held_told};

use crate::end::DESCRIPTOR_LIMIT;
use crate::kernel::PlainKernel;
use plain_tables::description::{Description, Object};
use plain_tables::sys_abi::{DescId, Descriptor, Maker, Slot, VPid};
use std::alloc::AllocError;

/// A call makes something only where its process's next number is below this one, so that there is room for
/// all that one call makes.
const NUMBER_LIMIT: u32 = 0xFFFF_FFFC;

/// A descriptor, and the description that it refers to.
pub type Held = (Descriptor, Description);

impl PlainKernel {
    /// The descriptor of the process and the description that it refers to; EBADF where there is none.
    #[tactic(auto, unfolding(crate::specs::Kernel::held, plain_tables::specs::HandedOn::and_then, plain_tables::specs::HandedOn::found))]
    pub fn held_at(&self, p: VPid, fd: u32) -> Option<Held>
        ensures { words.held self.now p fd ≡ held_told result }
    {
        let Some(descriptor) = self.descriptors.get(Slot { pid: p, fd }).copied() else {
            return None;
        };
        let Some(description) = self.descriptions.get(descriptor.desc).copied() else {
            return None;
        };
        Some((descriptor, description))
    }

    /// The least descriptor from a number on that the process doesn't use; EMFILE where there is none.
    #[tactic(auto, unfolding(crate::specs::Kernel::free_from, plain_tables::specs::HandedOn::found))]
    pub fn free_from(&self, p: VPid, from: u32) -> Option<u32>
        ensures { words.free_from self.now p from ≡ found result EMFILE }
    {
        for fd in from..DESCRIPTOR_LIMIT {
            if !self.descriptors.contains_key(Slot { pid: p, fd }) {
                return Some(fd);
            }
        }
        None
    }

    /// The next number of what the process makes, 0 where it is not there.
    pub fn made_of(&self, p: VPid) -> u32
        ensures { result ≡ words.made_of self.now p }
    {
        match self.makers.get(p) {
            Some(maker) => maker.made,
            None => 0,
        }
    }

    /// Whether there are numbers left for what one call makes; ENFILE where there are none.
    pub fn has_numbers(&self, p: VPid) -> bool
        ensures { result ≡ words.has_numbers self.now p }
    {
        self.made_of(p) < NUMBER_LIMIT
    }

    /// The process has made so many things more. After want of memory the kernel part may be any.
    pub fn count_made(&mut self, p: VPid, count: u32) -> Result<(), AllocError>
        requires { words.made_of self.old p + count < 2 ^ 32 }
        ensures { OnOk result (self.new ≡ words.numbered self.old p count) }
    {
        let Some(maker) = self.makers.get(p).copied() else {
            return Ok(());
        };
        let made = maker.made + count;
        self.makers.insert(
            p,
            Maker {
                host: maker.host,
                made,
            },
        )?;
        Ok(())
    }

    /// Puts a descriptor in the process's table. After want of memory the kernel part may be any.
    pub fn put_descriptor(
        &mut self,
        p: VPid,
        fd: u32,
        descriptor: Descriptor,
    ) -> Result<(), AllocError>
        ensures { OnOk result (self.new ≡ words.with_descriptor self.old p fd descriptor) }
    {
        self.descriptors.insert(Slot { pid: p, fd }, descriptor)?;
        Ok(())
    }

    /// Puts a description, also in the place of one. After want of memory the kernel part may be any.
    pub fn put_description(
        &mut self,
        id: DescId,
        description: Description,
    ) -> Result<(), AllocError>
        ensures { OnOk result (self.new ≡ words.with_description self.old id description) }
    {
        self.descriptions.insert(id, description)?;
        Ok(())
    }

    /// A new description, which nobody owns, behind a new descriptor. After want of memory the kernel part
    /// may be any.
    pub fn place(
        &mut self,
        p: VPid,
        fd: u32,
        descriptor: Descriptor,
        object: Object,
        flags: u32,
    ) -> Result<(), AllocError>
        ensures { OnOk result
            (self.new ≡ words.placed self.old p fd descriptor.desc descriptor.cloexec object flags) }
    {
        self.put_descriptor(p, fd, descriptor)?;
        self.put_description(
            descriptor.desc,
            Description {
                object,
                flags,
                owner: 0,
            },
        )
    }
}
