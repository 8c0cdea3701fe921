//! A socket listens (`man 2 listen`).
ghost use Rattle.std.specs.Prelude.{◌≡◌, ◌↔◌, List, min, max, Err, IfOk, OnErr};
ghost use Rattle.views.specs.Numbers.{Byte};
ghost use Rattle.fd_tables.specs.Slots as slots;
ghost use Rattle.plain_machine.specs.Kernel.{held};
ghost use Rattle.plain_machine.specs.Rows.Sockets as rows;
ghost use Rattle.wire_channels.specs.Listeners as listeners;
ghost use Rattle.wire_channels.specs.declared.net_fault.NetFault.TheVariants as fault;
ghost use Rattle.host_descriptors.specs.OfHostTables.Requests.{has_port, leads_to_pipe, IfHeld, AreListened};
ghost use Rattle.host_descriptors.specs.OfHostTables.Serves.{Through, Serves, ByPort, listened_at, with_listening};
ghost use Rattle.host_sockets.specs.Tests as words;
ghost use Rattle.host_sockets.specs.Changes.{with_listener};

use crate::look_ups::socket_at;
use fd_book::Object;
use host_descriptors::{Attempt, Held, Kernel, RowResult};
use std::alloc::AllocError;
use sys_abi::errors::{EADDRINUSE, EINVAL, EOPNOTSUPP};
use sys_abi::{Errno, RealAddr, RealPid};
use wire_net::NetFault;

/// listen (`man 2 listen`). Answers the real port. `port_free` tells whether the socket has a port, or its
/// host a free one; `of_pipe` whether the descriptor leads to an end of a pipe.
pub fn listen(
    kernel: &mut Kernel,
    who: RealPid,
    fd: u32,
    backlog: u32,
    port_free: bool,
    of_pipe: bool,
) -> RowResult
    ensures ok { IfOk result (λ a. Through kernel.old who (λ g k p. (x : List Byte)
        → (of_pipe ≡ leads_to_pipe k p fd)
        × (IfHeld (held k p fd) (λ own. port_free ≡ has_port k own) × AreListened g k)
        → Serves ByPort
        (λ n m g. with_listening g (record { node = who.node; port = n }) (listened_at k p fd)) g
        kernel.old kernel.new x x a (rows.listen_row k p fd backlog))) }
    ensures err { OnErr result (kernel.new ≡ kernel.old) }
{
    kernel.book.whole();
    let held = match find_unbound(kernel, who, fd, port_free, of_pipe) {
        Err(error) => return Ok(Attempt::Fails(error)),
        Ok(held) => held,
    };
    match listen_at(kernel, who.node, held, backlog) {
        Ok(at) => Ok(Attempt::Gives(at.port)),
        Err(NetFault::PortUsed) => Ok(Attempt::Fails(Errno(EADDRINUSE))),
        Err(_) => Err(AllocError),
    }
}

/// The tests of listen.
#[tactic(auto, unfolding(crate::specs::Tests::listening_in, plain_process::specs::Attempts::and_then, plain_process::specs::Attempts::need))]
fn find_unbound(
    kernel: &Kernel,
    who: RealPid,
    fd: u32,
    port_free: bool,
    of_pipe: bool,
) -> Result<Held, Errno>
    ensures { words.listening_in kernel.now.book (slots.slot who fd) port_free of_pipe ≡ words.tried result }
{
    let held = socket_at(&kernel.book, who, fd, of_pipe)?;
    may_listen(held.description.object)?;
    if !port_free {
        return Err(Errno(EADDRINUSE));
    }
    Ok(held)
}

/// A socket that is not connected may listen; EOPNOTSUPP, EINVAL.
fn may_listen(object: Object) -> Result<(), Errno>
    ensures { words.may_listen object ≡ words.tried result }
{
    match object {
        Object::Socket => Ok(()),
        Object::Datagram { .. } => Err(Errno(EOPNOTSUPP)),
        _ => Err(Errno(EINVAL)),
    }
}

/// At least one connection may wait, and at most 128.
fn waiting_room(backlog: u32) -> u32
    ensures { result ≡ max 1 (min backlog 128) }
{
    backlog.min(128).max(1)
}

/// The socket listens at the next port of the node.
fn listen_at(kernel: &mut Kernel, node: u32, held: Held, backlog: u32) -> Result<RealAddr, NetFault>
    ensures used { (result ≡ Err fault.PortUsed)
        ↔ listeners.AllPortsUsed kernel.old.net.listeners node kernel.old.net.port_base }
    ensures port { IfOk result (listeners.IsNextPort kernel.old.net.listeners node kernel.old.net.port_base) }
    ensures ok { IfOk result (λ at. kernel.new ≡ with_listener kernel.old held at (max 1 (min backlog 128))) }
    ensures err { OnErr result (kernel.new ≡ kernel.old) }
{
    let at = kernel.net.listen(node, waiting_room(backlog))?;
    kernel.book.set_object(held.desc, Object::Listener { at });
    Ok(at)
}
