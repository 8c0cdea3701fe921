//! Two ends that find each other by a channel's name.
ghost use Rattle.std.specs.Prelude.{◌≡◌, ◌≤◌, IsNone, OnOk};
ghost use Rattle.std.specs.FinMap as map;
ghost use Rattle.sys_abi.specs.declared.identity.RealAddr as address;
ghost use Rattle.virt_ids.specs.Changes.{at_key};
ghost use Rattle.wire_channels.specs.Channels.{new_channel};
ghost use Rattle.wire_channels.specs.Listeners.{with_last};
ghost use Rattle.rebuild_system.specs.Steps.{reached_at};

use discovery::Directory;
use std::alloc::AllocError;
use sys_abi::{ConnId, RealAddr};
use wire_net::Net;

/// The end that accepts is published at the port where its side listens; the other one looks it up, and
/// connects to what it finds.
pub(crate) fn connect(
    net: &mut Net,
    directory: &mut Directory,
    id: ConnId,
    at: RealAddr,
) -> Result<(), AllocError>
    requires new { IsNone (map.get net.old.channels id) }
    ensures net { OnOk result (net.new ≡ record net.old {
      listeners = at_key net.old.listeners at (with_last id);
      channels = map.insert net.old.channels id new_channel;
    }) }
    ensures found { OnOk result (directory.new ≡ map.insert directory.old id (reached_at at)) }
{
    directory.publish(id, at)?;
    let Some(found) = directory.find(id) else {
        unreachable!()
    };
    let Ok(()) = net.connect(id, found) else {
        return Err(AllocError);
    };
    Ok(())
}

/// Joins two ends by a listener of the node that is there for them alone.
pub(crate) fn join(
    net: &mut Net,
    directory: &mut Directory,
    node: u32,
    id: ConnId,
) -> Result<(), AllocError>
    requires new { IsNone (map.get net.old.channels id) }
    ensures net { OnOk result (net.new
        ≡ record net.old { channels = map.insert net.old.channels id new_channel }) }
    ensures found { OnOk result ((at : address.RealAddr) × ((at.node ≡ node) × ((net.old.port_base ≤ at.port)
        × (directory.new ≡ map.insert directory.old id (reached_at at))))) }
{
    let Ok(at) = net.listen(node, 1) else {
        return Err(AllocError);
    };
    connect(net, directory, id, at)?;
    let Ok(_) = net.accept(at) else {
        unreachable!()
    };
    net.close_listener(at);
    Ok(())
}
