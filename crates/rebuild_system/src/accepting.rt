//! The host of the end of a channel that accepts.
ghost use Rattle.std.specs.Prelude.{◌≡◌, ◌<◌, Some};
ghost use Rattle.std.specs.Option.{option_map_or};
ghost use Rattle.std.specs.FinMap as map;
ghost use Rattle.plain_tables.specs.Objects as objects;
ghost use Rattle.plain_machine.specs.Kernels.{IsKernel};
ghost use Rattle.rebuild_tables.specs.Hosts.{IsHosts};
ghost use Rattle.rebuild_system.specs.Nets.{IsAtAccepting};
ghost use Rattle.rebuild_system.specs.Holders as words;

use host_tables::Hosts;
use plain_machine::PlainKernel;
use plain_tables::{Channel, ChannelKind, Object};
use rebuild_tables::hosts::node_at;
use sys_abi::{ConnId, DescId, VPid};

/// Whether the object is side 0 of the channel.
fn is_first(id: ConnId, object: &Object) -> bool
    ensures { result ≡ objects.is_end id 0 object.now }
{
    match *object {
        Object::Stream { conn, side } => id.cmp(&conn).is_eq() && side == 0,
        _ => false,
    }
}

/// Whether the description is that of side 0 of the channel.
fn is_first_in(kernel: &PlainKernel, id: ConnId, desc: DescId) -> bool
    ensures { result ≡ words.is_first_in kernel.now.descriptions id desc }
{
    match kernel.descriptions.get(desc) {
        None => false,
        Some(description) => is_first(id, &description.object),
    }
}

/// A process with a descriptor of side 0 of the channel, if one has it.
fn holder(kernel: &PlainKernel, id: ConnId) -> Option<VPid>
    ensures { words.FindsHolder kernel.now id result }
{
    for (slot, descriptor) in kernel.descriptors.iter() {
        if is_first_in(kernel, id, descriptor.desc) {
            return Some(slot.pid);
        }
    }
    None
}

/// The host of a process.
fn host_of(kernel: &PlainKernel, p: VPid) -> u32
    ensures { result ≡ words.host_in kernel.now.makers p }
{
    match kernel.makers.get(p) {
        None => 0,
        Some(maker) => maker.host,
    }
}

/// The host of those that hold side 0 of the channel. Where nobody does it is any.
fn holders_host(kernel: &PlainKernel, id: ConnId) -> u32
    requires whole { IsKernel kernel.now }
    ensures host { words.IsHoldersHost kernel.now id result }
    ensures small { result < 16 }
{
    match holder(kernel, id) {
        None => 0,
        Some(p) => host_of(kernel, p),
    }
}

/// The host of the address of side 1. Where it has none it is any.
fn address_host(kernel: &PlainKernel, id: ConnId, channel: &Channel) -> u32
    requires whole { IsKernel kernel.now }
    requires channel { map.get kernel.now.channels id ≡ Some channel.now }
    ensures host { result ≡ option_map_or (λ a. a.host) channel.now.second.address 0 }
    ensures small { result < 16 }
{
    match channel.second.address {
        None => 0,
        Some(address) => address.host,
    }
}

/// The node of the end that accepts.
pub(crate) fn accepting_node(
    kernel: &PlainKernel,
    hosts: &Hosts,
    id: ConnId,
    channel: &Channel,
) -> u32
    requires whole { IsKernel kernel.now }
    requires hosts { IsHosts hosts.now }
    requires channel { map.get kernel.now.channels id ≡ Some channel.now }
    ensures { IsAtAccepting hosts.now kernel.now id channel.now.kind result }
{
    match channel.kind {
        ChannelKind::Internet => node_at(hosts, address_host(kernel, id, channel)),
        ChannelKind::Pair | ChannelKind::Pipe => node_at(hosts, holders_host(kernel, id)),
    }
}
