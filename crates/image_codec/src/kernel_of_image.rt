//! The kernel part that a shared image stands for.

ghost use Rattle.std.specs.Prelude.{◌≡◌, IfOk, OnOk, map as each};
ghost use Rattle.std.specs.FinMap as map;
ghost use Rattle.std.specs.List.{filter_map, flat_map};
ghost use Rattle.shared_items.specs.SharedFits.{IsShared};
ghost use Rattle.plain_machine.specs.Kernels.{IsKernel};
ghost use Rattle.image_codec.specs.KernelParts.{kernel_of, inserted, channel_entry, description_entry, descriptor_entries, descriptor_entry, direction_entries, file_entry, listening_of, maker_entry, name_entry, process_entry, signals_entry};

use crate::restored_objects::{
    channels_of, descriptions_of, directions_of, files_of, listeners_of, names_of,
};
use id_maps::{ByPid, BySlot};
use plain_machine::PlainKernel;
use plain_tables::Process;
use shared_items::{DescriptorEntry, ProcessEntry, Shared, ThreadEntry};
use std::alloc::{AllocError, Global};
use sys_abi::{Descriptor, Maker, Slot, VPid};
use views::list_of::ListOf;
use views::number_map::NumberMap;

/// The kernel part that the image stands for, which is one that a run may reach.
pub fn restored_kernel(alloc: Global, s: &Shared) -> Result<PlainKernel, AllocError>
    requires { IsShared s.now }
    ensures kernel { IfOk result (λ k. k ≡ kernel_of s.now) }
    ensures valid { IfOk result (λ k. IsKernel k) }
{
    let mut k = PlainKernel::empty(alloc);
    restore(alloc, &mut k, s)?;
    Ok(k)
}

/// All of it but its inboxes, which no image has.
#[tactic(auto, unfolding(crate::specs::KernelParts::kernel_of))]
fn restore(alloc: Global, k: &mut PlainKernel, s: &Shared) -> Result<(), AllocError>
    ensures { OnOk result (k.new ≡ record (kernel_of s.now) { inboxes = k.old.inboxes }) }
{
    k.next_id = s.next_id;
    k.next_file = s.next_file;
    restore_processes(alloc, k, &s.processes)?;
    restore_files(alloc, k, s)?;
    restore_channels(alloc, k, s)
}

/// The processes with what they hold.
fn restore_processes(
    alloc: Global,
    k: &mut PlainKernel,
    images: &ListOf<ProcessEntry>,
) -> Result<(), AllocError>
    ensures { OnOk result (k.new ≡ record k.old {
      processes = map.from_entries (each process_entry images.now);
      makers = map.from_entries (each maker_entry images.now);
      descriptors = map.from_entries (flat_map descriptor_entries images.now);
    }) }
{
    k.processes = processes_of(alloc, images)?;
    k.makers = makers_of(alloc, images)?;
    k.descriptors = descriptors_of(alloc, images)?;
    Ok(())
}

/// The files with their names, and what is open.
fn restore_files(alloc: Global, k: &mut PlainKernel, s: &Shared) -> Result<(), AllocError>
    ensures { OnOk result (k.new ≡ record k.old {
      names = map.from_entries (filter_map name_entry s.now.files);
      files = map.from_entries (each file_entry s.now.files);
      descriptions = map.from_entries (each description_entry s.now.descriptions);
    }) }
{
    k.names = names_of(alloc, &s.files)?;
    k.files = files_of(alloc, &s.files)?;
    k.descriptions = descriptions_of(alloc, &s.descriptions)?;
    Ok(())
}

/// The channels with their directions, and who listens.
fn restore_channels(alloc: Global, k: &mut PlainKernel, s: &Shared) -> Result<(), AllocError>
    ensures { OnOk result (k.new ≡ record k.old {
      channels = map.from_entries (each (channel_entry s.now.descriptions) s.now.channels);
      directions = map.from_entries (flat_map direction_entries s.now.channels);
      listeners = map.from_entries (filter_map (λ it. listening_of it.object) s.now.descriptions);
    }) }
{
    k.channels = channels_of(alloc, &s.channels, &s.descriptions)?;
    k.directions = directions_of(alloc, &s.channels)?;
    k.listeners = listeners_of(alloc, &s.descriptions)?;
    Ok(())
}

#[tactic(auto, using(crate::proofs::Inserted::inserted_none, crate::proofs::Inserted::inserted_one))]
fn processes_of(alloc: Global, images: &ListOf<ProcessEntry>) -> Result<ByPid<Process>, AllocError>
    ensures { IfOk result (λ processes. processes ≡ map.from_entries (each process_entry images.now)) }
{
    let mut processes = ByPid::new(alloc);
    for image in images.iter().rev() {
        let process = Process {
            parent: image.parent,
            life: image.life,
            pending: image.pending,
            threads: threads_of(alloc, &image.threads)?,
        };
        processes.insert(image.pid, process)?;
    }
    Ok(processes)
}

#[tactic(auto, using(crate::proofs::Inserted::inserted_none, crate::proofs::Inserted::inserted_one))]
fn threads_of(alloc: Global, images: &ListOf<ThreadEntry>) -> Result<NumberMap<u32>, AllocError>
    ensures { IfOk result (λ threads. threads ≡ map.from_entries (each signals_entry images.now)) }
{
    let mut threads = NumberMap::new(alloc);
    for image in images.iter().rev() {
        threads.insert(image.tid, image.pending)?;
    }
    Ok(threads)
}

#[tactic(auto, using(crate::proofs::Inserted::inserted_none, crate::proofs::Inserted::inserted_one))]
fn makers_of(alloc: Global, images: &ListOf<ProcessEntry>) -> Result<ByPid<Maker>, AllocError>
    ensures { IfOk result (λ makers. makers ≡ map.from_entries (each maker_entry images.now)) }
{
    let mut makers = ByPid::new(alloc);
    for image in images.iter().rev() {
        let maker = Maker {
            host: image.host,
            made: image.made,
        };
        makers.insert(image.pid, maker)?;
    }
    Ok(makers)
}

#[tactic(auto, using(crate::proofs::Inserted::inserted_none, crate::proofs::Inserted::inserted_group))]
fn descriptors_of(
    alloc: Global,
    images: &ListOf<ProcessEntry>,
) -> Result<BySlot<Descriptor>, AllocError>
    ensures { IfOk result (λ descriptors.
        descriptors ≡ map.from_entries (flat_map descriptor_entries images.now)) }
{
    let mut descriptors = BySlot::new(alloc);
    for image in images.iter().rev() {
        insert_descriptors(&mut descriptors, image.pid, &image.descriptors)?;
    }
    Ok(descriptors)
}

#[tactic(auto, using(crate::proofs::Inserted::inserted_none, crate::proofs::Inserted::inserted_one))]
fn insert_descriptors(
    descriptors: &mut BySlot<Descriptor>,
    pid: VPid,
    images: &ListOf<DescriptorEntry>,
) -> Result<(), AllocError>
    ensures { OnOk result
        (descriptors.new ≡ inserted (each (descriptor_entry pid) images.now) descriptors.old) }
{
    for image in images.iter().rev() {
        let slot = Slot {
            pid,
            fd: image.number,
        };
        let descriptor = Descriptor {
            desc: image.desc,
            cloexec: image.cloexec,
        };
        descriptors.insert(slot, descriptor)?;
    }
    Ok(())
}
