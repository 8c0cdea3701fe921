//! A socket connects to a listener (`man 2 connect`).
ghost use Rattle.std.specs.Prelude.{◌≡◌, ℕ, List, Some, IsNone, IfOk, IfSome, OnOk, OnErr};
ghost use Rattle.std.specs.FinMap as map;
ghost use Rattle.views.specs.Numbers.{Byte};
ghost use Rattle.plain_machine.specs.Addresses.{endpoint_of};
ghost use Rattle.plain_machine.specs.Kernel.{held};
ghost use Rattle.plain_machine.specs.Rows.Connections as rows;
ghost use Rattle.wire_net.specs.Networks.{connect_refusal};
ghost use Rattle.host_descriptors.specs.OfHostTables.Conditions.{IsNewConn};
ghost use Rattle.host_descriptors.specs.OfHostTables.Requests.{next_conn, leads_to_pipe, IfHeld, ConnectNames};
ghost use Rattle.host_descriptors.specs.OfHostTables.Serves.{Through, Serves, ByNumber, with_connection};
ghost use Rattle.host_sockets.specs.Tests as words;
ghost use Rattle.host_sockets.specs.Changes.{with_connected};

use crate::look_ups::{is_nonblocking, socket_at};
use fd_book::Object;
use host_descriptors::{Attempt, Held, Kernel, RowResult};
use std::alloc::AllocError;
use sys_abi::errors::{EADDRNOTAVAIL, EAGAIN, ECONNREFUSED, EISCONN, ENFILE, EOPNOTSUPP};
use sys_abi::{ConnId, Errno, RealAddr, RealPid};

/// What a connect finds before it changes anything: the socket, the listener's port, and the name of the new
/// channel.
#[derive(Clone, Copy)]
pub struct Connecting {
    pub held: Held,
    pub at: RealAddr,
    pub conn: ConnId,
}

/// connect (`man 2 connect`). `to` is the port at which the address that the guest names is listened, None
/// where nobody listens there, or why the bytes are no address; `channel` is the name of the new channel,
/// None where its process has none left to give out; `port_free` tells whether the socket has a port, or its
/// host a free one; `of_pipe` whether the descriptor leads to an end of a pipe.
pub fn connect(
    kernel: &mut Kernel,
    who: RealPid,
    fd: u32,
    to: Result<Option<RealAddr>, Errno>,
    channel: Option<ConnId>,
    port_free: bool,
    of_pipe: bool,
) -> RowResult
    requires new { IsNewConn kernel.old.net channel }
    ensures ok { IfOk result (λ a. Through kernel.old who (λ g k p. (length : ℕ) (x : List Byte)
        → (of_pipe ≡ leads_to_pipe k p fd)
        × ((channel ≡ next_conn k p) × IfHeld (held k p fd) (ConnectNames g k length x to port_free))
        → Serves ByNumber
        (λ n m g. with_connection g channel (rows.connecting_of k p fd length (endpoint_of x))) g
        kernel.old kernel.new x x a (rows.connect_row k p fd length x))) }
    ensures err { OnErr result (kernel.new ≡ kernel.old) }
{
    kernel.book.whole();
    match find_listener(kernel, who, fd, to, channel, port_free, of_pipe) {
        Err(error) => Ok(Attempt::Fails(error)),
        Ok(None) => Ok(Attempt::NotReady),
        Ok(Some(found)) => {
            connect_to(kernel, found)?;
            Ok(Attempt::Gives(0))
        }
    }
}

/// Whether a connect doesn't wait. The arguments are as those of [`connect`].
pub fn is_connect_ready(
    kernel: &Kernel,
    who: RealPid,
    fd: u32,
    to: Result<Option<RealAddr>, Errno>,
    channel: Option<ConnId>,
    port_free: bool,
    of_pipe: bool,
) -> bool
    ensures { Through kernel.now who (λ g k p. (length : ℕ) (x : List Byte)
        → (of_pipe ≡ leads_to_pipe k p fd)
        × ((channel ≡ next_conn k p) × IfHeld (held k p fd) (ConnectNames g k length x to port_free))
        → result ≡ rows.is_connect_ready k p fd length x) }
{
    kernel.book.whole();
    match find_listener(kernel, who, fd, to, channel, port_free, of_pipe) {
        Err(_) => true,
        Ok(None) => false,
        Ok(Some(_)) => true,
    }
}

/// The tests of connect.
#[tactic(auto, unfolding(crate::specs::Tests::connecting_in, plain_process::specs::Attempts::and_then, plain_process::specs::Attempts::need, plain_process::specs::Attempts::found))]
fn find_listener(
    kernel: &Kernel,
    who: RealPid,
    fd: u32,
    to: Result<Option<RealAddr>, Errno>,
    channel: Option<ConnId>,
    port_free: bool,
    of_pipe: bool,
) -> Result<Option<Connecting>, Errno>
    ensures found { words.connecting_in kernel.now who fd to channel port_free of_pipe
        ≡ words.tried_or_waits result }
    ensures named { IfOk result (λ found. IfSome found (λ found. channel ≡ Some found.conn)) }
{
    let held = socket_at(&kernel.book, who, fd, of_pipe)?;
    may_connect(held.description.object)?;
    let Some(at) = to? else {
        return Err(Errno(ECONNREFUSED));
    };
    let Some(_) = kernel.net.backlog(at) else {
        return Err(Errno(ECONNREFUSED));
    };
    let Some(conn) = channel else {
        return Err(Errno(ENFILE));
    };
    if kernel.net.is_full() {
        return Err(Errno(ENFILE));
    }
    if !port_free {
        return Err(Errno(EADDRNOTAVAIL));
    }
    if_room(kernel, Connecting { held, at, conn })
}

/// A socket that is not connected may connect; EOPNOTSUPP, EISCONN.
fn may_connect(object: Object) -> Result<(), Errno>
    ensures { words.may_connect object ≡ words.tried result }
{
    match object {
        Object::Socket => Ok(()),
        Object::Datagram { .. } => Err(Errno(EOPNOTSUPP)),
        _ => Err(Errno(EISCONN)),
    }
}

/// One more connection may wait at the listener, or the call isn't ready.
fn if_room(kernel: &Kernel, found: Connecting) -> Result<Option<Connecting>, Errno>
    ensures { words.if_room (connect_refusal kernel.now.net found.at) found ≡ words.tried_or_waits result }
{
    if kernel.net.connect_refusal(found.at).is_none() {
        return Ok(Some(found));
    }
    if is_nonblocking(found.held.description.flags) {
        return Err(Errno(EAGAIN));
    }
    Ok(None)
}

/// The socket is side 0 of a new channel, whose side 1 waits at the listener behind the others.
fn connect_to(kernel: &mut Kernel, found: Connecting) -> Result<(), AllocError>
    requires { IsNone (map.get kernel.old.net.channels found.conn) }
    ensures ok { OnOk result (kernel.new ≡ with_connected kernel.old found) }
    ensures err { OnErr result (kernel.new ≡ kernel.old) }
{
    let Ok(()) = kernel.net.connect(found.conn, found.at) else {
        return Err(AllocError);
    };
    let stream = Object::Stream {
        conn: found.conn,
        side: 0,
    };
    kernel.book.set_object(found.held.desc, stream);
    Ok(())
}
