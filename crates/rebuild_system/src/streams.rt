//! Channels of which no end waits to be accepted.
ghost use Rattle.std.specs.Prelude.{◌≡◌, ◌≢◌, Some, OnOk, IsNone, true, []};
ghost use Rattle.std.specs.FinMap as map;
ghost use Rattle.sys_abi.specs.declared.identity.ConnId as names;
ghost use Rattle.wire_channels.specs.Channels.{new_channel};
ghost use Rattle.plain_machine.specs.Kernels.{IsKernel};
ghost use Rattle.rebuild_tables.specs.Hosts.{IsHosts};
ghost use Rattle.rebuild_system.specs.Nets.{IsReached};
ghost use Rattle.rebuild_system.specs.Making.{AreFilled, AreReached, is_done_waiting, is_done};
ghost use Rattle.rebuild_system.specs.Steps as steps;

use crate::accepting::accepting_node;
use crate::joining::join;
use discovery::Directory;
use host_tables::Hosts;
use plain_machine::PlainKernel;
use plain_tables::Channel;
use rebuild_tables::fill;
use std::alloc::AllocError;
use sys_abi::ConnId;
use wire_net::Net;

/// Makes a channel, as yet without bytes: its ends find each other where both are open.
fn make_channel(
    net: &mut Net,
    directory: &mut Directory,
    kernel: &PlainKernel,
    hosts: &Hosts,
    id: ConnId,
    channel: &Channel,
) -> Result<(), AllocError>
    requires whole { IsKernel kernel.now }
    requires hosts { IsHosts hosts.now }
    requires base { net.old.port_base ≡ hosts.now.port_base }
    requires channel { map.get kernel.now.channels id ≡ Some channel.now }
    requires new { IsNone (map.get net.old.channels id) }
    ensures net { OnOk result (net.new
        ≡ record net.old { channels = map.insert net.old.channels id new_channel }) }
    ensures reached { OnOk result (channel.now.first.is_open ≡ true → channel.now.second.is_open ≡ true
        → IsReached hosts.now kernel.now id channel.now directory.new) }
    ensures others { OnOk result ((q : names.ConnId) → q ≢ id
        → map.get directory.new q ≡ map.get directory.old q) }
{
    if channel.first.is_open {
        if channel.second.is_open {
            let node = accepting_node(kernel, hosts, id, channel);
            join(net, directory, node, id)?;
            return Ok(());
        }
    }
    let Ok(()) = net.pair(id) else {
        return Err(AllocError);
    };
    Ok(())
}

/// A channel with its bytes.
fn add_channel(
    net: &mut Net,
    directory: &mut Directory,
    kernel: &PlainKernel,
    hosts: &Hosts,
    id: ConnId,
    channel: &Channel,
) -> Result<(), AllocError>
    requires whole { IsKernel kernel.now }
    requires hosts { IsHosts hosts.now }
    requires base { net.old.port_base ≡ hosts.now.port_base }
    requires channel { map.get kernel.now.channels id ≡ Some channel.now }
    requires new { IsNone (map.get net.old.channels id) }
    ensures kept { OnOk result (net.new ≡ record net.old { channels = net.new.channels }) }
    ensures channels { OnOk result (steps.HasFilled kernel.now id net.old.channels net.new.channels) }
    ensures reached { OnOk result (channel.now.first.is_open ≡ true → channel.now.second.is_open ≡ true
        → IsReached hosts.now kernel.now id channel.now directory.new) }
    ensures others { OnOk result ((q : names.ConnId) → q ≢ id
        → map.get directory.new q ≡ map.get directory.old q) }
{
    make_channel(net, directory, kernel, hosts, id, channel)?;
    fill(net, kernel, id, channel);
    Ok(())
}

/// All channels that are not there yet.
pub(crate) fn add_channels(
    net: &mut Net,
    directory: &mut Directory,
    kernel: &PlainKernel,
    hosts: &Hosts,
) -> Result<(), AllocError>
    requires whole { IsKernel kernel.now }
    requires hosts { IsHosts hosts.now }
    requires base { net.old.port_base ≡ hosts.now.port_base }
    requires waiting { AreFilled kernel.now (is_done_waiting kernel.now []) net.old.channels }
    requires reached { AreReached hosts.now kernel.now (is_done_waiting kernel.now []) directory.old }
    ensures kept { OnOk result (net.new ≡ record net.old { channels = net.new.channels }) }
    ensures made { OnOk result (AreFilled kernel.now (is_done kernel.now []) net.new.channels) }
    ensures reached { OnOk result (AreReached hosts.now kernel.now (is_done kernel.now []) directory.new) }
{
    for (id, channel) in kernel.channels.iter() {
        if net.has(*id) {
            continue;
        }
        add_channel(net, directory, kernel, hosts, *id, channel)?;
    }
    Ok(())
}
