// What is tested at the end of the file, over the whole value.
ghost use Rattle.std.specs.Prelude.{◌≡◌, IfOk};
ghost use Rattle.std.specs.List.{list_all, list_any};
ghost use Rattle.shared_items.specs.RisingLists.{ChannelsRise, ProcessesRise};
ghost use Rattle.shared_items.specs.WholeShared as whole;
ghost use Rattle.shared_reader.specs.HoldersOf.{KnowsHolders, verdict};

use crate::holders::{Holders, holders_of};
use id_maps::ByDesc;
use shared_items::found::{channel_of, process_of};
use shared_items::{ChannelImage, DescriptionImage, ObjectImage, ProcessEntry, Shared, SideImage};
use shared_objects::{are_kept, are_rightly_named, opened_of, sides_of};
use std::alloc::{AllocError, Global};
use sys_abi::{ConnId, VirtAddr};

/// Whether a process of the host that lives has this number.
fn is_owner_of_some(processes: &[ProcessEntry], host: u32, owner: u32) -> bool
    requires { ProcessesRise processes.now }
    ensures { result ≡ list_any (whole.is_owner_of owner host) processes.now }
{
    match process_of(processes, owner) {
        None => false,
        Some(process) => process.life.is_live() && process.host == host,
    }
}

fn is_owner(processes: &[ProcessEntry], host: u32, owner: u32) -> bool
    requires { ProcessesRise processes.now }
    ensures { result ≡ whole.is_owner processes.now host owner }
{
    owner == 0 || is_owner_of_some(processes, host, owner)
}

fn is_of_host(host: u32, address: Option<VirtAddr>) -> bool
    ensures { result ≡ whole.is_of_host host address }
{
    match address {
        None => true,
        Some(address) => address.host == host,
    }
}

fn side_of(channel: &ChannelImage, side: u8) -> &SideImage
    ensures { result.now ≡ whole.side_of channel.now side }
{
    if side == 0 {
        &channel.first
    } else {
        &channel.second
    }
}

/// Whether the side of the channel, where it has an address, is of the host.
fn is_side_of_host(channels: &[ChannelImage], host: u32, side: u8, conn: ConnId) -> bool
    requires { ChannelsRise channels.now }
    ensures { result ≡ whole.is_side_of_host channels.now host side conn }
{
    match channel_of(channels, conn) {
        None => true,
        Some(channel) => is_of_host(host, side_of(channel, side).address),
    }
}

fn is_queue_of_host(channels: &[ChannelImage], host: u32, pending: &[ConnId]) -> bool
    requires { ChannelsRise channels.now }
    ensures { result ≡ list_all (whole.is_side_of_host channels.now host 1) pending.now }
{
    pending
        .iter()
        .all(|conn| is_side_of_host(channels, host, 1, *conn))
}

/// Whether what the description stands for is of the host, where it is of one.
fn is_object_of_host(channels: &[ChannelImage], host: u32, object: &ObjectImage) -> bool
    requires { ChannelsRise channels.now }
    ensures { result ≡ whole.is_object_of_host channels.now host object.now }
{
    match object {
        ObjectImage::Stream { conn, side } => is_side_of_host(channels, host, *side, *conn),
        ObjectImage::Socket { address } => address.host == host,
        ObjectImage::Listener {
            address,
            pending,
            ..
        } => address.host == host && is_queue_of_host(channels, host, pending.as_slice()),
        _ => true,
    }
}

fn is_near_parent(processes: &[ProcessEntry], child: &ProcessEntry) -> bool
    requires { ProcessesRise processes.now }
    ensures { result ≡ whole.is_near_parent processes.now child.now }
{
    match process_of(processes, child.parent) {
        None => true,
        Some(parent) => child.host == parent.host,
    }
}

fn are_near_parents(processes: &[ProcessEntry]) -> bool
    requires { ProcessesRise processes.now }
    ensures { result ≡ list_all (whole.is_near_parent processes.now) processes.now }
{
    processes
        .iter()
        .all(|process| is_near_parent(processes, process))
}

/// Whether a description with these holders is rightly held: all are of one host, and so are its owner and
/// what it stands for.
fn is_held_by(
    channels: &[ChannelImage],
    processes: &[ProcessEntry],
    description: &DescriptionImage,
    found: Option<Holders>,
) -> bool
    requires channels { ChannelsRise channels.now }
    requires processes { ProcessesRise processes.now }
    ensures { result ≡ verdict channels.now processes.now description.now found }
{
    match found {
        Some(Holders::OfHost(host)) => {
            is_owner(processes, host, description.owner)
                && is_object_of_host(channels, host, &description.object)
        }
        Some(Holders::Apart) | None => false,
    }
}

fn is_rightly_held(
    channels: &[ChannelImage],
    processes: &[ProcessEntry],
    holders: &ByDesc<Holders>,
    description: &DescriptionImage,
) -> bool
    requires channels { ChannelsRise channels.now }
    requires processes { ProcessesRise processes.now }
    requires holders { KnowsHolders holders.now processes.now }
    ensures { result ≡ whole.is_rightly_held channels.now processes.now description.now }
{
    let found = holders.get(description.id).copied();
    is_held_by(channels, processes, description, found)
}

fn are_rightly_held(
    channels: &[ChannelImage],
    processes: &[ProcessEntry],
    holders: &ByDesc<Holders>,
    descriptions: &[DescriptionImage],
) -> bool
    requires channels { ChannelsRise channels.now }
    requires processes { ProcessesRise processes.now }
    requires holders { KnowsHolders holders.now processes.now }
    ensures { result ≡ list_all (whole.is_rightly_held channels.now processes.now) descriptions.now }
{
    descriptions.iter().all(|description| is_rightly_held(
        channels,
        processes,
        holders,
        description,
    ))
}

/// What is tested at the end of the file, over the whole value.
#[tactic(auto, unfolding(shared_items::specs::WholeShared::is_whole_shared))]
pub fn is_whole_shared(alloc: Global, s: &Shared) -> Result<bool, AllocError>
    requires channels { ChannelsRise s.now.channels }
    requires processes { ProcessesRise s.now.processes }
    ensures { IfOk result (λ b. b ≡ whole.is_whole_shared s.now) }
{
    let channels = s.channels.as_slice();
    let descriptions = s.descriptions.as_slice();
    let processes = s.processes.as_slice();
    let opened = opened_of(alloc, descriptions)?;
    let sides = sides_of(alloc, descriptions)?;
    let holders = holders_of(alloc, processes)?;
    Ok(
        are_kept(descriptions, &opened, s.files.as_slice())
            && are_rightly_named(descriptions, &sides, channels)
            && are_rightly_held(channels, processes, &holders, descriptions)
            && are_near_parents(processes),
    )
}
