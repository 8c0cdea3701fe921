ghost use Rattle.std.specs.Prelude.{◌≡◌, OnOk, OnErr};
ghost use Rattle.plain_tables.specs.Tables as words;

use crate::process::Process;
use id_maps::ByPid;
use id_maps::sys_abi::VPid;
use std::alloc::AllocError;

/// A thread more in a process that is there. Without memory all is as before.
pub fn insert_thread(processes: &mut ByPid<Process>, p: VPid, t: u32) -> Result<(), AllocError>
    ensures ok { OnOk result (processes.new ≡ words.changed_at processes.old p (words.with_thread_entry t)) }
    ensures err { OnErr result (processes.new ≡ processes.old) }
{
    match processes.get_mut(p) {
        None => Ok(()),
        Some(process) => process.add_thread(t),
    }
}

impl Process {
    /// A thread more, for which no signal is pending.
    fn add_thread(&mut self, t: u32) -> Result<(), AllocError>
        ensures ok { OnOk result (self.new ≡ words.with_thread_entry t self.old) }
        ensures err { OnErr result (self.new ≡ self.old) }
    {
        self.threads.insert(t, 0)?;
        Ok(())
    }
}

/// Takes a thread out of a process that is there. Takes no memory.
pub fn remove_thread(processes: &mut ByPid<Process>, p: VPid, t: u32)
    ensures { processes.new ≡ words.changed_at processes.old p (words.without_thread_entry t) }
{
    if let Some(process) = processes.get_mut(p) {
        process.threads.remove(t);
    }
}
