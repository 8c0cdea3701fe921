//! What a fork adds: the child's entry, and its parent's descriptors (`man 2 fork`).
ghost use Rattle.std.specs.Prelude.{◌≡◌, IfOk, OnOk};
ghost use Rattle.std.specs.FinMap as map;
ghost use Rattle.plain_tables.specs.Ends as words;
ghost use Rattle.plain_tables.specs.Tables.{slot};

use crate::process::Process;
use id_maps::BySlot;
use id_maps::sys_abi::{Descriptor, Life, Slot, VPid};
use plain_process::views::number_map::NumberMap;
use std::alloc::{AllocError, Global};

/// A process of this parent with one thread, of its own number.
pub fn child_process(alloc: Global, parent: u32, number: u32) -> Result<Process, AllocError>
    ensures { IfOk result (λ process. process ≡ words.child_process parent number) }
{
    let mut threads = NumberMap::new(alloc);
    threads.insert(number, 0)?;
    Ok(Process {
        parent,
        life: Life::Live,
        pending: 0,
        threads,
    })
}

/// Gives a child its parent's descriptors below this number, each at its own number.
#[tactic(auto, unfolding(crate::specs::Ends::shared_below))]
pub fn share_below(
    descriptors: &mut BySlot<Descriptor>,
    p: VPid,
    child: VPid,
    count: u32,
) -> Result<(), AllocError>
    ensures { OnOk result (descriptors.new ≡ words.shared_below p child descriptors.old count) }
{
    for fd in 0..count {
        share_at(descriptors, p, child, fd)?;
    }
    Ok(())
}

fn share_at(
    descriptors: &mut BySlot<Descriptor>,
    p: VPid,
    child: VPid,
    fd: u32,
) -> Result<(), AllocError>
    ensures { OnOk result (descriptors.new ≡
        words.shared_at child fd (map.get descriptors.old (slot p fd)) descriptors.old) }
{
    if let Some(descriptor) = descriptors.get(Slot { pid: p, fd }).copied() {
        descriptors.insert(Slot { pid: child, fd }, descriptor)?;
    }
    Ok(())
}
