ghost use Rattle.std.specs.Prelude.{◌≡◌, ◌+◌, ◌^◌, ◌<◌, OnOk, OnErr};
ghost use Rattle.plain_machine.specs.Start as words;

use crate::kernel::PlainKernel;
use plain_tables::description::{Description, Object};
use plain_tables::start::{with_made, with_standard, with_started};
use plain_tables::sys_abi::flags::O_RDWR;
use plain_tables::sys_abi::{DescId, Descriptor, Maker, VPid};
use plain_tables::views::duplicate::Duplicate;
use plain_tables::views::list_of::ListOf;
use plain_tables::views::number_map::NumberMap;
use plain_tables::{ByAddress, ByConn, ByDesc, ByDir, ByName, ByPid, BySlot};
use std::alloc::{AllocError, Global};

/// The number of the first process.
pub const FIRST_PID: u32 = 40_000;

impl PlainKernel {
    /// The kernel part with no process and no file, which holds no memory yet.
    #[tactic(auto, unfolding(crate::specs::Start::empty_kernel))]
    pub fn empty(alloc: Global) -> PlainKernel
        ensures { result ≡ words.empty_kernel }
    {
        PlainKernel {
            processes: ByPid::new(alloc),
            makers: ByPid::new(alloc),
            descriptors: BySlot::new(alloc),
            descriptions: ByDesc::new(alloc),
            names: ByName::new(alloc),
            files: NumberMap::new(alloc),
            next_file: 1,
            channels: ByConn::new(alloc),
            directions: ByDir::new(alloc),
            listeners: ByAddress::new(alloc),
            inboxes: ByDesc::new(alloc),
            next_id: FIRST_PID,
        }
    }

    /// Adds a live process with one thread of its own number, the console on descriptors 0, 1 and 2, and
    /// nobody for a parent; the next process or thread gets the number after it. Without memory the kernel
    /// part is as before.
    #[tactic(auto, unfolding(crate::specs::Start::with_process))]
    pub fn add_process(&mut self, alloc: Global, p: u32, host: u32) -> Result<(), AllocError>
        requires { p + 1 < 2 ^ 32 }
        ensures ok { OnOk result (self.new ≡ words.with_process self.old p host) }
        ensures err { OnErr result (self.new ≡ self.old) }
    {
        let pid = VPid(p);
        let console = DescId { pid, num: 0 };
        let descriptor = Descriptor {
            desc: console,
            cloexec: false,
        };
        let processes = with_started(alloc, &self.processes, p)?;
        let makers = with_made(alloc, &self.makers, pid, Maker { host, made: 1 })?;
        let descriptors = with_standard(alloc, &self.descriptors, pid, descriptor)?;
        self.descriptions.insert(console, CONSOLE)?;
        self.processes = processes;
        self.makers = makers;
        self.descriptors = descriptors;
        self.next_id = p + 1;
        Ok(())
    }

    /// Adds a file under a name. Without memory the kernel part is as before.
    #[tactic(auto, unfolding(crate::specs::Start::with_file))]
    pub fn add_file(
        &mut self,
        alloc: Global,
        name: ListOf<u8>,
        bytes: ListOf<u8>,
    ) -> Result<(), AllocError>
        requires { self.old.next_file + 1 < 2 ^ 32 }
        ensures ok { OnOk result (self.new ≡ words.with_file self.old (record { name = name; bytes = bytes })) }
        ensures err { OnErr result (self.new ≡ self.old) }
    {
        let number = self.next_file;
        let mut names = self.names.duplicate(alloc)?;
        names.insert(name, number)?;
        self.files.insert(number, bytes)?;
        self.names = names;
        self.next_file = number + 1;
        Ok(())
    }
}

const CONSOLE: Description = Description {
    object: Object::Console,
    flags: O_RDWR,
    owner: 0,
};
