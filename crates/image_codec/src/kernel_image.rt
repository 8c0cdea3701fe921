//! The image of a kernel part, and the kernel part that an image stands for.

ghost use Rattle.std.specs.Prelude.{◌≡◌, [], ◌∷◌, ◌++◌, IfOk, OnOk, filter, map as each};
ghost use Rattle.std.specs.FinMap as map;
ghost use Rattle.image_codec.specs.KernelImages.{IsImage, shared_of, description_image, descriptor_image, is_of, listener_image, maker_or, object_image, process_image, thread_image};

use crate::stored_images::{channel_images, file_images};
use id_maps::{ByAddress, ByDesc, BySlot};
use plain_machine::PlainKernel;
use plain_tables::{Description, Listening, Object, Process};
use shared_items::{
    DescriptionImage, DescriptorEntry, ObjectImage, ProcessEntry, Shared, ThreadEntry,
};
use std::alloc::{AllocError, Global};
use sys_abi::{DescId, Descriptor, Maker, VPid, VirtAddr};
use views::duplicate::Duplicate;
use views::list_of::ListOf;
use views::number_map::NumberMap;

/// What is made of the entries of the kernel part, which is its one image, if it has one.
#[tactic(auto, unfolding(crate::specs::KernelImages::shared_of))]
pub fn shared_image(alloc: Global, k: &PlainKernel) -> Result<Shared, AllocError>
    ensures image { IfOk result (λ s. s ≡ shared_of k.now) }
    ensures only { (s : Shared) → IsImage s k.now → IfOk result (λ found. found ≡ s) }
{
    Ok(Shared {
        next_id: k.next_id,
        next_file: k.next_file,
        files: file_images(alloc, k)?,
        channels: channel_images(alloc, k)?,
        descriptions: description_images(alloc, &k.descriptions, &k.listeners)?,
        processes: process_images(alloc, k)?,
    })
}

fn description_images(
    alloc: Global,
    descriptions: &ByDesc<Description>,
    listeners: &ByAddress<Listening>,
) -> Result<ListOf<DescriptionImage>, AllocError>
    ensures { IfOk result (λ images.
        images ≡ each (description_image listeners.now) (map.entries descriptions.now)) }
{
    let mut images = ListOf::new(alloc);
    for (id, description) in descriptions.iter() {
        push_description(alloc, &mut images, listeners, *id, description)?;
    }
    Ok(images)
}

fn push_description(
    alloc: Global,
    images: &mut ListOf<DescriptionImage>,
    listeners: &ByAddress<Listening>,
    id: DescId,
    description: &Description,
) -> Result<(), AllocError>
    ensures { OnOk result
        (images.new ≡ images.old ++ description_image listeners.now (id, description.now) ∷ []) }
{
    let object = object_image(alloc, listeners, description.object)?;
    images.push(DescriptionImage {
        id,
        object,
        flags: description.flags,
        owner: description.owner,
    })
}

fn object_image(
    alloc: Global,
    listeners: &ByAddress<Listening>,
    object: Object,
) -> Result<ObjectImage, AllocError>
    ensures { IfOk result (λ image. image ≡ object_image listeners.now object) }
{
    match object {
        Object::File { number, offset } => Ok(ObjectImage::File { number, offset }),
        Object::Stream { conn, side } => Ok(ObjectImage::Stream { conn, side }),
        Object::Socket { address } => Ok(ObjectImage::Socket { address }),
        Object::Listener { address } => listener_image(alloc, listeners, address),
        _ => Ok(ObjectImage::Console),
    }
}

/// With the connections that wait in its queue.
fn listener_image(
    alloc: Global,
    listeners: &ByAddress<Listening>,
    address: VirtAddr,
) -> Result<ObjectImage, AllocError>
    ensures { IfOk result (λ image. image ≡ listener_image address (map.get listeners.now address)) }
{
    let (backlog, pending) = match listeners.get(address) {
        None => (0, ListOf::new(alloc)),
        Some(listening) => (listening.backlog, listening.queue.duplicate(alloc)?),
    };
    Ok(ObjectImage::Listener {
        address,
        backlog,
        pending,
    })
}

fn process_images(alloc: Global, k: &PlainKernel) -> Result<ListOf<ProcessEntry>, AllocError>
    ensures { IfOk result (λ images. images ≡ each (process_image k.now) (map.entries k.now.processes)) }
{
    let mut images = ListOf::new(alloc);
    for (pid, process) in k.processes.iter() {
        images.push(process_image(alloc, k, *pid, process)?)?;
    }
    Ok(images)
}

fn process_image(
    alloc: Global,
    k: &PlainKernel,
    pid: VPid,
    process: &Process,
) -> Result<ProcessEntry, AllocError>
    ensures { IfOk result (λ image. image ≡ process_image k.now (pid, process.now)) }
{
    let maker = maker_of(k, pid);
    Ok(ProcessEntry {
        pid,
        parent: process.parent,
        host: maker.host,
        made: maker.made,
        life: process.life,
        pending: process.pending,
        threads: thread_images(alloc, &process.threads)?,
        descriptors: descriptor_images(alloc, &k.descriptors, pid)?,
    })
}

fn maker_of(k: &PlainKernel, pid: VPid) -> Maker
    ensures { result ≡ maker_or (map.get k.now.makers pid) }
{
    match k.makers.get(pid) {
        None => Maker { host: 0, made: 0 },
        Some(maker) => *maker,
    }
}

fn thread_images(alloc: Global, threads: &NumberMap<u32>) -> Result<ListOf<ThreadEntry>, AllocError>
    ensures { IfOk result (λ images. images ≡ each thread_image (map.entries threads.now)) }
{
    let mut images = ListOf::new(alloc);
    for (tid, pending) in threads.iter() {
        images.push(ThreadEntry {
            tid: *tid,
            pending: *pending,
        })?;
    }
    Ok(images)
}

/// The descriptors of one process.
fn descriptor_images(
    alloc: Global,
    descriptors: &BySlot<Descriptor>,
    pid: VPid,
) -> Result<ListOf<DescriptorEntry>, AllocError>
    ensures { IfOk result (λ images.
        images ≡ each descriptor_image (filter (is_of pid) (map.entries descriptors.now))) }
{
    let mut images = ListOf::new(alloc);
    for (slot, descriptor) in descriptors.iter() {
        if slot.pid.0 == pid.0 {
            images.push(DescriptorEntry {
                number: slot.fd,
                desc: descriptor.desc,
                cloexec: descriptor.cloexec,
            })?;
        }
    }
    Ok(images)
}
