//! The list of processes.

ghost use Rattle.std.specs.Prelude.{◌≡◌};
ghost use Rattle.image_format.specs.Format.{counted, give, n32, next, unsigned};
ghost use Rattle.image_format.specs.Reading.{Gives, read};
ghost use Rattle.shared_items.specs.SharedFormat as format;
ghost use Rattle.shared_items.specs.SharedTests as field;
ghost use Rattle.shared_items.specs.RisingLists.{ChannelsRise, DescriptionsRise, ProcessesRise};
ghost use Rattle.shared_reader.specs.KnownThreads.{KnowsThreads};

use crate::process_tests::{
    is_descriptor_count, is_descriptor_number, is_parent, is_pending_set, is_process_count,
    is_process_number, is_state, is_thread_count, is_thread_number, note_threads,
};
use image_format::fields::{Fault, u8_at, u32_at};
use shared_items::found::has_description;
use shared_items::{ChannelImage, DescriptionImage, DescriptorEntry, ProcessEntry, ThreadEntry};
use std::alloc::Global;
use sys_abi::{DescId, Life, VPid};
use views::list_of::ListOf;
use views::number_map::NumberMap;

#[tactic(auto, unfolding(shared_items::specs::SharedFormat::thread, image_format::specs::Reading::read, image_format::specs::Reading::read_next, image_format::specs::Reading::read_if))]
fn thread_at<'a>(
    next_id: u32,
    earlier: &[ProcessEntry],
    tids: &NumberMap<()>,
    front: &[ThreadEntry],
    text: &'a [u8],
) -> Result<(ThreadEntry, &'a [u8]), Fault>
    requires processes { ProcessesRise earlier.now }
    requires threads { KnowsThreads tids.now earlier.now }
    ensures { Gives (λ x. (x.0, x.1.now)) result
        (read (format.thread next_id earlier.now front.now) text.now) }
{
    let (tid, after_tid) = u32_at(text)?;
    if !is_thread_number(next_id, earlier, tids, front, tid) {
        return Err(Fault::Left(text.len()));
    }
    let (pending, rest) = u32_at(after_tid)?;
    if pending >= 1 << 31 {
        return Err(Fault::Left(after_tid.len()));
    }
    Ok((ThreadEntry { tid, pending }, rest))
}

#[tactic(auto, unfolding(image_format::specs::Format::counted, image_format::specs::Reading::read, image_format::specs::Reading::read_next, image_format::specs::Reading::read_if), using(image_format::proofs::Loop::goes_on, image_format::proofs::Loop::one_item, image_format::proofs::Loop::is_done))]
fn threads_at<'a>(
    alloc: Global,
    next_id: u32,
    earlier: &[ProcessEntry],
    tids: &NumberMap<()>,
    life: Life,
    text: &'a [u8],
) -> Result<(ListOf<ThreadEntry>, &'a [u8]), Fault>
    requires processes { ProcessesRise earlier.now }
    requires threads { KnowsThreads tids.now earlier.now }
    ensures { Gives (λ x. (x.0, x.1.now)) result
        (read (counted (field.is_thread_count life) (format.thread next_id earlier.now)) text.now) }
{
    let (count, items) = u32_at(text)?;
    if !is_thread_count(life, count) {
        return Err(Fault::Left(text.len()));
    }
    let mut threads = ListOf::new(alloc);
    let mut rest = items;
    for _item in 0..count {
        let (thread, more) = thread_at(next_id, earlier, tids, threads.as_slice(), rest)?;
        threads.push(thread)?;
        rest = more;
    }
    Ok((threads, rest))
}

#[tactic(auto, unfolding(shared_items::specs::SharedFormat::descriptor, image_format::specs::Reading::read, image_format::specs::Reading::read_next, image_format::specs::Reading::read_if))]
fn descriptor_at<'a>(
    descriptions: &[DescriptionImage],
    front: &[DescriptorEntry],
    text: &'a [u8],
) -> Result<(DescriptorEntry, &'a [u8]), Fault>
    requires { DescriptionsRise descriptions.now }
    ensures { Gives (λ x. (x.0, x.1.now)) result
        (read (format.descriptor descriptions.now front.now) text.now) }
{
    let (number, after_number) = u32_at(text)?;
    if !is_descriptor_number(front, number) {
        return Err(Fault::Left(text.len()));
    }
    let (maker, after_maker) = u32_at(after_number)?;
    let (num, after_pair) = u32_at(after_maker)?;
    let desc = DescId {
        pid: VPid(maker),
        num,
    };
    if !has_description(descriptions, desc) {
        return Err(Fault::Left(after_maker.len()));
    }
    let (cloexec, rest) = u8_at(after_pair)?;
    if cloexec > 1 {
        return Err(Fault::Left(after_pair.len()));
    }
    let descriptor = DescriptorEntry {
        number,
        desc,
        cloexec: cloexec == 1,
    };
    Ok((descriptor, rest))
}

#[tactic(auto, unfolding(image_format::specs::Format::counted, image_format::specs::Reading::read, image_format::specs::Reading::read_next, image_format::specs::Reading::read_if), using(image_format::proofs::Loop::goes_on, image_format::proofs::Loop::one_item, image_format::proofs::Loop::is_done))]
fn descriptors_at<'a>(
    alloc: Global,
    descriptions: &[DescriptionImage],
    life: Life,
    text: &'a [u8],
) -> Result<(ListOf<DescriptorEntry>, &'a [u8]), Fault>
    requires { DescriptionsRise descriptions.now }
    ensures { Gives (λ x. (x.0, x.1.now)) result
        (read (counted (field.is_descriptor_count life) (format.descriptor descriptions.now)) text.now) }
{
    let (count, items) = u32_at(text)?;
    if !is_descriptor_count(life, count) {
        return Err(Fault::Left(text.len()));
    }
    let mut descriptors = ListOf::new(alloc);
    let mut rest = items;
    for _item in 0..count {
        let (descriptor, more) = descriptor_at(descriptions, descriptors.as_slice(), rest)?;
        descriptors.push(descriptor)?;
        rest = more;
    }
    Ok((descriptors, rest))
}

/// Whether the process lives, or has ended with which status.
#[tactic(auto, unfolding(shared_items::specs::SharedFormat::life, image_format::specs::Reading::read, image_format::specs::Reading::read_next, image_format::specs::Reading::read_if))]
fn life_at<'a>(
    channels: &[ChannelImage],
    descriptions: &[DescriptionImage],
    pid: u32,
    parent: u32,
    made: u32,
    text: &'a [u8],
) -> Result<(Life, &'a [u8]), Fault>
    requires channels { ChannelsRise channels.now }
    requires descriptions { DescriptionsRise descriptions.now }
    ensures { Gives (λ x. (x.0, x.1.now)) result
        (read (format.life channels.now descriptions.now pid parent made) text.now) }
{
    let (state, after_state) = u8_at(text)?;
    if !is_state(channels, descriptions, pid, parent, made, state) {
        return Err(Fault::Left(text.len()));
    }
    let (status, rest) = u32_at(after_state)?;
    if state != 0 {
        return Ok((Life::Zombie(status), rest));
    }
    if status != 0 {
        return Err(Fault::Left(after_state.len()));
    }
    Ok((Life::Live, rest))
}

/// The number of a process, above those before it.
#[tactic(auto, unfolding(image_format::specs::Reading::read, image_format::specs::Reading::read_if))]
fn pid_at<'a>(
    next_id: u32,
    front: &[ProcessEntry],
    tids: &NumberMap<()>,
    text: &'a [u8],
) -> Result<(u32, &'a [u8]), Fault>
    requires { KnowsThreads tids.now front.now }
    ensures { Gives (λ x. (x.0, x.1.now)) result
        (read (unsigned n32 (field.is_process_number next_id front.now)) text.now) }
{
    let (pid, rest) = u32_at(text)?;
    if !is_process_number(next_id, front, tids, pid) {
        return Err(Fault::Left(text.len()));
    }
    Ok((pid, rest))
}

#[tactic(auto, unfolding(image_format::specs::Reading::read, image_format::specs::Reading::read_if))]
fn parent_at<'a>(front: &[ProcessEntry], text: &'a [u8]) -> Result<(u32, &'a [u8]), Fault>
    requires { ProcessesRise front.now }
    ensures { Gives (λ x. (x.0, x.1.now)) result (read (unsigned n32 (field.is_parent front.now)) text.now) }
{
    let (parent, rest) = u32_at(text)?;
    if !is_parent(front, parent) {
        return Err(Fault::Left(text.len()));
    }
    Ok((parent, rest))
}

#[tactic(auto, unfolding(image_format::specs::Reading::read, image_format::specs::Reading::read_if))]
fn host_at(text: &[u8]) -> Result<(u32, &[u8]), Fault>
    ensures { Gives (λ x. (x.0, x.1.now)) result (read (unsigned n32 field.is_host) text.now) }
{
    let (host, rest) = u32_at(text)?;
    if host >= 16 {
        return Err(Fault::Left(text.len()));
    }
    Ok((host, rest))
}

/// The signals that wait at a process.
#[tactic(auto, unfolding(image_format::specs::Reading::read, image_format::specs::Reading::read_if))]
fn pending_at(life: Life, text: &[u8]) -> Result<(u32, &[u8]), Fault>
    ensures { Gives (λ x. (x.0, x.1.now)) result (read (unsigned n32 (field.is_pending_set life)) text.now) }
{
    let (pending, rest) = u32_at(text)?;
    if !is_pending_set(life, pending) {
        return Err(Fault::Left(text.len()));
    }
    Ok((pending, rest))
}

/// What a process is before its lists.
#[derive(Clone, Copy)]
struct Head {
    pid: VPid,
    parent: u32,
    host: u32,
    made: u32,
    life: Life,
}

/// The process with this head, behind which stand its signals, its threads and its descriptors.
#[tactic(auto, unfolding(image_format::specs::Reading::read, image_format::specs::Reading::read_next))]
fn process_of<'a>(
    alloc: Global,
    next_id: u32,
    descriptions: &[DescriptionImage],
    front: &[ProcessEntry],
    tids: &NumberMap<()>,
    head: Head,
    text: &'a [u8],
) -> Result<(ProcessEntry, &'a [u8]), Fault>
    requires descriptions { DescriptionsRise descriptions.now }
    requires processes { ProcessesRise front.now }
    requires threads { KnowsThreads tids.now front.now }
    ensures { Gives (λ x. (x.0, x.1.now)) result
        (read (next (unsigned n32 (field.is_pending_set head.life)) (λ pending.
        next (counted (field.is_thread_count head.life) (format.thread next_id front.now)) (λ threads.
        next (counted (field.is_descriptor_count head.life) (format.descriptor descriptions.now)) (λ fds.
        give (record {
          pid = head.pid;
          parent = head.parent;
          host = head.host;
          made = head.made;
          life = head.life;
          pending = pending;
          threads = threads;
          descriptors = fds;
        }))))) text.now) }
{
    let (pending, rest) = pending_at(head.life, text)?;
    let (threads, rest) = threads_at(alloc, next_id, front, tids, head.life, rest)?;
    let (descriptors, rest) = descriptors_at(alloc, descriptions, head.life, rest)?;
    let process = ProcessEntry {
        pid: head.pid,
        parent: head.parent,
        host: head.host,
        made: head.made,
        life: head.life,
        pending,
        threads,
        descriptors,
    };
    Ok((process, rest))
}

#[tactic(auto, unfolding(shared_items::specs::SharedFormat::process, image_format::specs::Reading::read, image_format::specs::Reading::read_next))]
fn process_at<'a>(
    alloc: Global,
    next_id: u32,
    channels: &[ChannelImage],
    descriptions: &[DescriptionImage],
    front: &[ProcessEntry],
    tids: &NumberMap<()>,
    text: &'a [u8],
) -> Result<(ProcessEntry, &'a [u8]), Fault>
    requires channels { ChannelsRise channels.now }
    requires descriptions { DescriptionsRise descriptions.now }
    requires processes { ProcessesRise front.now }
    requires threads { KnowsThreads tids.now front.now }
    ensures { Gives (λ x. (x.0, x.1.now)) result
        (read (format.process next_id channels.now descriptions.now front.now) text.now) }
{
    let (pid, rest) = pid_at(next_id, front, tids, text)?;
    let (parent, rest) = parent_at(front, rest)?;
    let (host, rest) = host_at(rest)?;
    let (made, rest) = u32_at(rest)?;
    let (life, rest) = life_at(channels, descriptions, pid, parent, made, rest)?;
    let head = Head {
        pid: VPid(pid),
        parent,
        host,
        made,
        life,
    };
    process_of(alloc, next_id, descriptions, front, tids, head, rest)
}

#[tactic(auto, unfolding(image_format::specs::Format::counted, image_format::specs::Reading::read, image_format::specs::Reading::read_next, image_format::specs::Reading::read_if), using(image_format::proofs::Loop::goes_on, image_format::proofs::Loop::one_item, image_format::proofs::Loop::is_done))]
pub fn processes_at<'a>(
    alloc: Global,
    next_id: u32,
    channels: &[ChannelImage],
    descriptions: &[DescriptionImage],
    text: &'a [u8],
) -> Result<(ListOf<ProcessEntry>, &'a [u8]), Fault>
    requires channels { ChannelsRise channels.now }
    requires descriptions { DescriptionsRise descriptions.now }
    ensures { Gives (λ x. (x.0, x.1.now)) result
        (read (counted field.is_process_count (format.process next_id channels.now descriptions.now))
        text.now) }
{
    let (count, items) = u32_at(text)?;
    if !is_process_count(count) {
        return Err(Fault::Left(text.len()));
    }
    let mut tids = NumberMap::new(alloc);
    let mut processes = ListOf::new(alloc);
    let mut rest = items;
    for _item in 0..count {
        let front = processes.as_slice();
        let (process, more) = process_at(
            alloc,
            next_id,
            channels,
            descriptions,
            front,
            &tids,
            rest,
        )?;
        note_threads(&mut tids, process.threads.as_slice())?;
        processes.push(process)?;
        rest = more;
    }
    Ok((processes, rest))
}
