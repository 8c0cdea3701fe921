//! Listeners, and the connections that wait at them.
ghost use Rattle.std.specs.Prelude.{◌≡◌, ◌≤◌, not, nat_le, length, OnOk, OnErr, MatchOption, option_map};
ghost use Rattle.std.specs.FinMap as map;
ghost use Rattle.wire_channels.specs.declared.limits.TheConstants.{PORT_BASE_LIMIT};
ghost use Rattle.wire_channels.specs.OfVirtIds.Changes.{at_key};
ghost use Rattle.wire_channels.specs.Listeners as words;
ghost use Rattle.wire_net.specs.Networks.{accept_answer};

use std::alloc::{AllocError, Global};
use sys_abi::{ConnId, RealAddr};
use wire_channels::limits::PORT_COUNT;
use wire_channels::virt_ids::ByRealAddress;
use wire_channels::{ConnQueue, Listener, NetFault};

/// A listener at which nobody waits yet.
pub(crate) fn new_listener(alloc: Global, backlog: u32) -> Listener
    ensures { result ≡ words.new_listener backlog }
{
    Listener {
        backlog,
        queue: ConnQueue::new(alloc),
    }
}

/// The first port of the node at which nobody listens.
pub(crate) fn next_port(
    listeners: &ByRealAddress<Listener>,
    node: u32,
    base: u32,
) -> Option<RealAddr>
    requires { base ≤ PORT_BASE_LIMIT }
    ensures { MatchOption result (words.AllPortsUsed listeners.now node base) (words.IsNextPort listeners.now node base) }
{
    for port in base..base + PORT_COUNT {
        let at = RealAddr { node, port };
        if !listeners.contains_key(at) {
            return Some(at);
        }
    }
    None
}

/// Whether one more connection may wait at the port, if somebody listens there.
pub(crate) fn has_room(listeners: &ByRealAddress<Listener>, at: RealAddr) -> Option<bool>
    ensures { result ≡ option_map (λ listener. not (nat_le listener.backlog (length listener.queue))) (map.get listeners.now at) }
{
    let listener = listeners.get(at)?;
    Some(listener.queue.len() < listener.backlog as usize)
}

/// One more connection waits at the port, if somebody listens there.
pub(crate) fn wait_at(
    listeners: &mut ByRealAddress<Listener>,
    at: RealAddr,
    id: ConnId,
) -> Result<(), AllocError>
    ensures ok { OnOk result (listeners.new ≡ at_key listeners.old at (words.with_last id)) }
    ensures err { OnErr result (listeners.new ≡ listeners.old) }
{
    let Some(listener) = listeners.get_mut(at) else {
        return Ok(());
    };
    listener.queue.push_last(id)
}

/// The oldest connection that waits at the port waits no more.
pub(crate) fn accept_at(
    listeners: &mut ByRealAddress<Listener>,
    at: RealAddr,
) -> Result<ConnId, NetFault>
    ensures answer { result ≡ accept_answer (map.get listeners.old at) }
    ensures ok { OnOk result (listeners.new ≡ at_key listeners.old at words.without_first) }
    ensures err { OnErr result (listeners.new ≡ listeners.old) }
{
    let Some(listener) = listeners.get_mut(at) else {
        return Err(NetFault::NotReady);
    };
    match listener.queue.pop_first() {
        None => Err(NetFault::NotReady),
        Some(id) => Ok(id),
    }
}
