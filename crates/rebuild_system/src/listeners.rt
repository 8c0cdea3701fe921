//! Listeners, and the connections that wait at them (`man 2 listen`).
ghost use Rattle.std.specs.Prelude.{◌≡◌, ◌≢◌, ◌<◌, Some, None, IfOk, OnOk, IsNone, All, AllPairs, []};
ghost use Rattle.std.specs.FinMap as map;
ghost use Rattle.virt_ids.specs.Changes.{at_key};
ghost use Rattle.wire_channels.specs.Listeners.{with_last};
ghost use Rattle.plain_machine.specs.Kernels.{IsKernel};
ghost use Rattle.rebuild_tables.specs.Hosts.{IsHosts};
ghost use Rattle.rebuild_system.specs.Making.{IsListened, AreReached, is_done_waiting};
ghost use Rattle.rebuild_system.specs.Steps as steps;

use crate::joining::connect;
use discovery::Directory;
use host_tables::Hosts;
use plain_machine::PlainKernel;
use plain_tables::Listening;
use rebuild_tables::fill;
use rebuild_tables::hosts::node_at;
use std::alloc::AllocError;
use sys_abi::{ConnId, RealAddr, VirtAddr};
use virt_ids::Ids;
use wire_net::Net;

/// One more connection waits at the port, with its bytes.
fn add_waiting(
    net: &mut Net,
    directory: &mut Directory,
    kernel: &PlainKernel,
    at: RealAddr,
    id: ConnId,
) -> Result<(), AllocError>
    requires whole { IsKernel kernel.now }
    requires new { IsNone (map.get net.old.channels id) }
    ensures base { OnOk result (net.new.port_base ≡ net.old.port_base) }
    ensures listeners { OnOk result (net.new.listeners ≡ at_key net.old.listeners at (with_last id)) }
    ensures channels { OnOk result (steps.HasFilled kernel.now id net.old.channels net.new.channels) }
    ensures found { OnOk result (directory.new ≡ map.insert directory.old id (steps.reached_at at)) }
{
    let Some(channel) = kernel.channels.get(id) else {
        return Err(AllocError);
    };
    connect(net, directory, id, at)?;
    fill(net, kernel, id, channel);
    Ok(())
}

/// The connections of a queue wait at the port, in order.
fn fill_queue(
    net: &mut Net,
    directory: &mut Directory,
    kernel: &PlainKernel,
    at: RealAddr,
    queue: &[ConnId],
) -> Result<(), AllocError>
    requires whole { IsKernel kernel.now }
    requires new { All (λ id. map.get net.old.channels id ≡ None) queue.now }
    requires once { AllPairs (λ id later. id ≢ later) queue.now }
    ensures base { OnOk result (net.new.port_base ≡ net.old.port_base) }
    ensures listeners { OnOk result (net.new.listeners
        ≡ at_key net.old.listeners at (steps.with_queue queue.now)) }
    ensures channels { OnOk result (steps.AreJoined kernel.now (steps.is_among queue.now)
        net.old.channels net.new.channels) }
    ensures found { OnOk result (steps.AreFound at (steps.is_among queue.now) directory.old directory.new) }
{
    for id in queue {
        add_waiting(net, directory, kernel, at, *id)?;
    }
    Ok(())
}

/// A listener at the next port of its host's node, with the connections that wait there.
fn add_listener(
    net: &mut Net,
    ids: &mut Ids,
    directory: &mut Directory,
    kernel: &PlainKernel,
    hosts: &Hosts,
    a: VirtAddr,
    listening: &Listening,
) -> Result<(), AllocError>
    requires whole { IsKernel kernel.now }
    requires hosts { IsHosts hosts.now }
    requires listener { map.get kernel.now.listeners a ≡ Some listening.now }
    requires new { All (λ id. map.get net.old.channels id ≡ None) listening.now.queue }
    ensures made { OnOk result (steps.HasListener hosts.now kernel.now a listening.now ids.old ids.new
        net.old net.new directory.old directory.new) }
    ensures numbers { (ids.new.pids ≡ ids.old.pids) × (ids.new.virts ≡ ids.old.virts) }
{
    let Ok(at) = net.listen(node_at(hosts, a.host), listening.backlog) else {
        return Err(AllocError);
    };
    let Ok(()) = ids.add_addr(a, at) else {
        return Err(AllocError);
    };
    fill_queue(net, directory, kernel, at, listening.queue.as_slice())?;
    Ok(())
}

/// All listeners, with the connections that wait there.
pub(crate) fn add_listeners(
    net: &mut Net,
    ids: &mut Ids,
    directory: &mut Directory,
    kernel: &PlainKernel,
    hosts: &Hosts,
) -> Result<(), AllocError>
    requires whole { IsKernel kernel.now }
    requires hosts { IsHosts hosts.now }
    requires before { IsListened hosts.now kernel.now (map.entries kernel.now.listeners) ids.old net.old }
    ensures made { OnOk result (IsListened hosts.now kernel.now [] ids.new net.new) }
    ensures reached { OnOk result (AreReached hosts.now kernel.now (is_done_waiting kernel.now [])
        directory.new) }
    ensures numbers { (ids.new.pids ≡ ids.old.pids) × (ids.new.virts ≡ ids.old.virts) }
{
    for (a, listening) in kernel.listeners.iter() {
        add_listener(net, ids, directory, kernel, hosts, *a, listening)?;
    }
    Ok(())
}
