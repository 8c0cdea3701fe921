//! The whole network of a kernel part.
ghost use Rattle.std.specs.Prelude.{◌≡◌, IfOk, OnOk};
ghost use Rattle.std.specs.FinMap as map;
ghost use Rattle.plain_machine.specs.Kernels.{IsKernel};
ghost use Rattle.rebuild_tables.specs.Hosts.{IsHosts};
ghost use Rattle.rebuild_system.specs.Nets.{IsNet, ArePublished};

use crate::listeners::add_listeners;
use crate::streams::add_channels;
use discovery::Directory;
use host_tables::Hosts;
use plain_machine::PlainKernel;
use std::alloc::{AllocError, Global};
use virt_ids::Ids;
use wire_net::Net;

/// Makes the listeners and channels of a kernel part again, and pairs the addresses at which it listens with
/// ports of the nodes. Each channel with two open sides is published in the directory and looked up there.
///
/// # Errors
/// Memory was wanted, or a node has no port left.
pub fn rebuild_channels(
    alloc: Global,
    kernel: &PlainKernel,
    hosts: &Hosts,
    ids: &mut Ids,
    directory: &mut Directory,
) -> Result<Net, AllocError>
    requires whole { IsKernel kernel.now }
    requires hosts { IsHosts hosts.now }
    requires unpaired { (ids.old.addresses ≡ map.empty) × (ids.old.ports ≡ map.empty) }
    requires none { directory.old ≡ map.empty }
    ensures net { IfOk result (λ net. IsNet hosts.now kernel.now ids.new net) }
    ensures numbers { (ids.new.pids ≡ ids.old.pids) × (ids.new.virts ≡ ids.old.virts) }
    ensures published { OnOk result (ArePublished hosts.now kernel.now directory.new) }
{
    let mut net = Net::new(alloc, hosts.nodes, hosts.port_base)?;
    add_listeners(&mut net, ids, directory, kernel, hosts)?;
    add_channels(&mut net, directory, kernel, hosts)?;
    ids.whole();
    Ok(net)
}
