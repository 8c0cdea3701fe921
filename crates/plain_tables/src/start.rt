//! What stands in the tables for a process that a job begins with.
ghost use Rattle.std.specs.Prelude.{◌≡◌, IfOk};
ghost use Rattle.std.specs.FinMap as map;
ghost use Rattle.plain_tables.specs.Tables.{pid, slot};
ghost use Rattle.plain_tables.specs.Start as words;

use crate::ends::NOBODY;
use crate::process::Process;
use id_maps::sys_abi::{Descriptor, Life, Maker, Slot, VPid};
use id_maps::{ByPid, BySlot};
use plain_process::views::duplicate::Duplicate;
use plain_process::views::number_map::NumberMap;
use std::alloc::{AllocError, Global};

fn start_process(alloc: Global, p: u32) -> Result<Process, AllocError>
    ensures { IfOk result (λ process. process ≡ words.start_process p) }
{
    let mut threads = NumberMap::new(alloc);
    threads.insert(p, 0)?;
    Ok(Process {
        parent: NOBODY,
        life: Life::Live,
        pending: 0,
        threads,
    })
}

/// A copy of the processes, with the one that starts under this number.
pub fn with_started(
    alloc: Global,
    processes: &ByPid<Process>,
    p: u32,
) -> Result<ByPid<Process>, AllocError>
    ensures { IfOk result (λ added. added ≡ map.insert processes.now (pid p) (words.start_process p)) }
{
    let mut added = processes.duplicate(alloc)?;
    added.insert(VPid(p), start_process(alloc, p)?)?;
    Ok(added)
}

/// A copy of the makers, with this one.
pub fn with_made(
    alloc: Global,
    makers: &ByPid<Maker>,
    pid: VPid,
    maker: Maker,
) -> Result<ByPid<Maker>, AllocError>
    ensures { IfOk result (λ added. added ≡ map.insert makers.now pid maker) }
{
    let mut added = makers.duplicate(alloc)?;
    added.insert(pid, maker)?;
    Ok(added)
}

/// A copy of the descriptors, with this one as 0, 1 and 2 of the process.
pub fn with_standard(
    alloc: Global,
    descriptors: &BySlot<Descriptor>,
    pid: VPid,
    descriptor: Descriptor,
) -> Result<BySlot<Descriptor>, AllocError>
    ensures { IfOk result (λ added. added ≡
        map.insert (map.insert (map.insert descriptors.now (slot pid 0) descriptor) (slot pid 1) descriptor) (slot pid 2) descriptor) }
{
    let mut added = descriptors.duplicate(alloc)?;
    added.insert(Slot { pid, fd: 0 }, descriptor)?;
    added.insert(Slot { pid, fd: 1 }, descriptor)?;
    added.insert(Slot { pid, fd: 2 }, descriptor)?;
    Ok(added)
}
