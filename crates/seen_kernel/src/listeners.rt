//! The listeners with the connections that wait at them.
ghost use Rattle.std.specs.Prelude.{◌≡◌, ℕ, List, take, IfOk, OnOk};
ghost use Rattle.std.specs.FinMap as map;
ghost use Rattle.plain_tables.specs.Tables as plain;
ghost use Rattle.plain_tables.specs.Valid.Sockets.{AreListeners};
ghost use Rattle.wire_net.specs.Networks as networks;
ghost use Rattle.host_tables.specs.Network.{SameListeners};
ghost use Rattle.seen_kernel.specs.Listeners as words;

use id_maps::{ByAddress, ByDesc};
use plain_tables::{Description, Listening, Object};
use std::alloc::{AllocError, Global};
use sys_abi::{ConnId, RealAddr, VirtAddr};
use views::list_of::ListOf;
use virt_ids::Ids;
use wire_net::Net;

/// What listens at the virtual address of each description that listens.
pub fn seen_listeners(
    alloc: Global,
    net: &Net,
    ids: &Ids,
    descriptions: &ByDesc<Description>,
) -> Result<ByAddress<Listening>, AllocError>
    ensures { (nodes : List ℕ) (channels : plain.Channels) (listeners : plain.Listeners)
        → SameListeners nodes ids.now.addresses ids.now.ports listeners net.now.listeners
        → AreListeners descriptions.now listeners channels
        → IfOk result (λ seen. seen ≡ listeners) }
{
    let mut seen = ByAddress::new(alloc);
    for description in descriptions.values() {
        add_object(&mut seen, alloc, net, ids, description.object)?;
    }
    Ok(seen)
}

/// Adds what listens at the address of the object, if it is one that listens.
fn add_object(
    seen: &mut ByAddress<Listening>,
    alloc: Global,
    net: &Net,
    ids: &Ids,
    object: Object,
) -> Result<(), AllocError>
    ensures ok { OnOk result
        (seen.new ≡ words.with_object net.now.listeners ids.now.addresses seen.old object) }
{
    match object {
        Object::Listener { address } => add_listener(seen, alloc, net, ids, address),
        _ => Ok(()),
    }
}

/// Adds what listens at the address, if something does.
fn add_listener(
    seen: &mut ByAddress<Listening>,
    alloc: Global,
    net: &Net,
    ids: &Ids,
    address: VirtAddr,
) -> Result<(), AllocError>
    ensures ok { OnOk result
        (seen.new ≡ words.with_listener net.now.listeners ids.now.addresses seen.old address) }
{
    let Ok(at) = ids.real_addr(address) else {
        return Ok(());
    };
    let Some(listening) = listening_at(alloc, net, at)? else {
        return Ok(());
    };
    seen.insert(address, listening)?;
    Ok(())
}

/// What listens at the port, if something does.
fn listening_at(alloc: Global, net: &Net, at: RealAddr) -> Result<Option<Listening>, AllocError>
    ensures { IfOk result (λ found. found ≡ words.found_at net.now.listeners at) }
{
    let Some(backlog) = net.backlog(at) else {
        return Ok(None);
    };
    let queue = waiting_at(alloc, net, at, backlog)?;
    Ok(Some(Listening { backlog, queue }))
}

/// The first connections of those that wait at the port, at most so many.
fn waiting_at(
    alloc: Global,
    net: &Net,
    at: RealAddr,
    most: u32,
) -> Result<ListOf<ConnId>, AllocError>
    ensures { IfOk result
        (λ queue. queue ≡ take most (networks.waiting_at (map.get net.now.listeners at))) }
{
    let mut queue = ListOf::new(alloc);
    for place in 0..most {
        let Some(conn) = net.queued(at, place) else {
            return Ok(queue);
        };
        queue.push(conn)?;
    }
    Ok(queue)
}
