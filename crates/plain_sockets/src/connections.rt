ghost use Rattle.std.specs.Prelude.{◌≡◌, ◌<◌, ◌-◌, ◌^◌, IfOk, OnOk, IfSome};
ghost use Rattle.sys_abi.specs.Flags.{has_flag};
ghost use Rattle.sys_abi.specs.declared.flags.TheConstants.{O_NONBLOCK as NONBLOCK};
ghost use Rattle.plain_machine.specs.Kernel as kernels;
ghost use Rattle.plain_machine.specs.Addresses.{endpoint_of};
ghost use Rattle.plain_machine.specs.SocketWords as words;
ghost use Rattle.plain_machine.specs.Rows.Connections as rows;
ghost use Rattle.plain_machine.specs.Answers.{attempt_told, KeepsUnlessGives};
ghost use Rattle.plain_ports.specs.Told.{told, told_or_waits, same_address};
ghost use Rattle.plain_sockets.specs.Told.{accepting_told, connecting_told};

use crate::changes::{Made, add_channel, add_last, count, make, set_object, take_first};
use call_table::Given;
use plain_machine::PlainKernel;
use plain_ports::addresses::{
    ADDRESS_SIZE, AF_INET, cut_to, end_name, family_of, named_host, port_of,
};
use plain_ports::look_ups::{Held, next_channel, socket_at};
use plain_ports::ports::bound_or;
use plain_tables::answer::{Answer, Attempt, RowResult};
use plain_tables::{Channel, ChannelEnd, ChannelKind, Listening, Object};
use std::alloc::{AllocError, Global};
use sys_abi::errors::{
    EADDRNOTAVAIL, EAFNOSUPPORT, EAGAIN, ECONNREFUSED, EINVAL, EISCONN, EMFILE, ENFILE, EOPNOTSUPP,
};
use sys_abi::flags::{O_NONBLOCK, O_RDWR};
use sys_abi::{ConnId, Errno, Reply, VPid, VirtAddr};
use views::list_of::ListOf;

/// How many channels there are at most.
const CHANNEL_LIMIT: usize = 256;

/// What an accept finds before it changes anything: the free descriptor, the listener's address, and the
/// first connection that waits there.
#[derive(Clone, Copy)]
pub struct Accepting {
    pub fd: u32,
    pub address: VirtAddr,
    pub conn: ConnId,
}

/// What a connect finds before it changes anything: the socket's description, its address, and the
/// listener's.
#[derive(Clone, Copy)]
pub struct Connecting {
    pub held: Held,
    pub own: VirtAddr,
    pub to: VirtAddr,
}

fn is_nonblocking(flags: u32) -> bool
    ensures { result ≡ has_flag flags NONBLOCK }
{
    flags / O_NONBLOCK % 2 == 1
}

fn listens_at(object: Object) -> Option<VirtAddr>
    ensures { result ≡ words.listens_at object }
{
    match object {
        Object::Listener { address } => Some(address),
        _ => None,
    }
}

fn first_waiting(
    flags: u32,
    address: VirtAddr,
    fd: u32,
    queue: &[ConnId],
) -> Result<Option<Accepting>, Errno>
    ensures { rows.first_waiting flags address fd queue.now ≡ told_or_waits accepting_told result }
{
    match queue.first().copied() {
        Some(conn) => Ok(Some(Accepting { fd, address, conn })),
        None => {
            if is_nonblocking(flags) {
                return Err(Errno(EAGAIN));
            }
            Ok(None)
        }
    }
}

/// The tests of accept.
#[tactic(auto, unfolding(plain_machine::specs::Rows::Connections::accepting_of, plain_process::specs::Attempts::and_then, plain_process::specs::Attempts::need, plain_process::specs::Attempts::found))]
fn find_waiting(kernel: &PlainKernel, p: VPid, fd: u32) -> Result<Option<Accepting>, Errno>
    ensures found { rows.accepting_of kernel.now p fd ≡ told_or_waits accepting_told result }
    ensures room { IfOk result (λ found. IfSome found (λ found. kernels.made_of kernel.now p < 2 ^ 32 - 4)) }
{
    let held = socket_at(kernel, p, fd)?;
    let Some(address) = listens_at(held.description.object) else {
        return Err(Errno(EINVAL));
    };
    let Some(listening) = kernel.listeners.get(address) else {
        return Err(Errno(EINVAL));
    };
    if !kernel.has_numbers(p) {
        return Err(Errno(ENFILE));
    }
    let Some(new) = kernel.free_from(p, 0) else {
        return Err(Errno(EMFILE));
    };
    first_waiting(
        held.description.flags,
        address,
        new,
        listening.queue.as_slice(),
    )
}

/// The name of the client, where it is asked for.
fn client_name(
    alloc: Global,
    kernel: &PlainKernel,
    address: u32,
    given: &[u8],
    conn: ConnId,
) -> Result<ListOf<u8>, AllocError>
    ensures { IfOk result (λ name. name ≡ rows.client_name kernel.now address given.now conn) }
{
    if address == 0 {
        return Ok(ListOf::new(alloc));
    }
    let name = end_name(alloc, kernel, conn, 0)?;
    cut_to(alloc, given, name.as_slice())
}

/// accept (`man 2 accept`), with this much room for the address.
#[tactic(auto, unfolding(plain_machine::specs::Rows::Connections::accept_row, plain_process::specs::Attempts::and_then))]
pub fn accept(
    kernel: &mut PlainKernel,
    alloc: Global,
    p: VPid,
    fd: u32,
    address: u32,
    given: &[u8],
) -> RowResult
    ensures row { IfOk result (λ attempt.
        rows.accept_row kernel.old p fd address given.now ≡ attempt_told kernel.new given.now attempt) }
    ensures kept { IfOk result (λ attempt. KeepsUnlessGives attempt kernel.old kernel.new) }
{
    match find_waiting(kernel, p, fd) {
        Err(error) => Ok(Attempt::Fails(error)),
        Ok(None) => Ok(Attempt::NotReady),
        Ok(Some(found)) => {
            let bytes = client_name(alloc, kernel, address, given, found.conn)?;
            take_first(&mut kernel.listeners, alloc, found.address);
            let stream = Object::Stream {
                conn: found.conn,
                side: 1,
            };
            let made = Made {
                cloexec: false,
                object: stream,
                flags: O_RDWR,
            };
            make(kernel, p, found.fd, made)?;
            Ok(Attempt::Gives(Answer {
                reply: Reply::Value(found.fd),
                bytes,
                is_shown: false,
            }))
        }
    }
}

/// Whether an accept doesn't wait.
#[tactic(auto, unfolding(plain_machine::specs::Rows::Connections::is_accept_ready))]
pub fn is_accept_ready(kernel: &PlainKernel, p: VPid, fd: u32) -> bool
    ensures { result ≡ rows.is_accept_ready kernel.now p fd }
{
    match find_waiting(kernel, p, fd) {
        Ok(None) => false,
        _ => true,
    }
}

/// The address of a socket that may connect; EOPNOTSUPP, EISCONN.
fn may_connect(object: Object) -> Result<VirtAddr, Errno>
    ensures { rows.may_connect object ≡ told same_address result }
{
    match object {
        Object::Socket { address } => Ok(address),
        Object::Datagram { .. } => Err(Errno(EOPNOTSUPP)),
        _ => Err(Errno(EISCONN)),
    }
}

fn if_room(
    flags: u32,
    listening: &Listening,
    found: Connecting,
) -> Result<Option<Connecting>, Errno>
    ensures { rows.if_room flags listening.now (connecting_told found)
        ≡ told_or_waits connecting_told result }
{
    if listening.queue.len() < listening.backlog as usize {
        return Ok(Some(found));
    }
    if is_nonblocking(flags) {
        return Err(Errno(EAGAIN));
    }
    Ok(None)
}

/// The tests of connect, to the address that the bytes name.
#[tactic(auto, unfolding(plain_machine::specs::Rows::Connections::connecting_of, plain_process::specs::Attempts::and_then, plain_process::specs::Attempts::need, plain_process::specs::Attempts::found))]
fn find_listener(
    kernel: &PlainKernel,
    p: VPid,
    fd: u32,
    length: u32,
    bytes: &[u8],
) -> Result<Option<Connecting>, Errno>
    ensures found { rows.connecting_of kernel.now p fd length (endpoint_of bytes.now)
        ≡ told_or_waits connecting_told result }
    ensures room { IfOk result (λ found. IfSome found (λ found. kernels.made_of kernel.now p < 2 ^ 32 - 4)) }
{
    let held = socket_at(kernel, p, fd)?;
    let socket = may_connect(held.description.object)?;
    if length < ADDRESS_SIZE {
        return Err(Errno(EINVAL));
    }
    if family_of(bytes) != AF_INET {
        return Err(Errno(EAFNOSUPPORT));
    }
    let Some(host) = named_host(socket.host, bytes) else {
        return Err(Errno(ECONNREFUSED));
    };
    let to = VirtAddr {
        host,
        port: port_of(bytes),
    };
    let Some(listening) = kernel.listeners.get(to) else {
        return Err(Errno(ECONNREFUSED));
    };
    if !kernel.has_numbers(p) || kernel.channels.len() >= CHANNEL_LIMIT {
        return Err(Errno(ENFILE));
    }
    let own = bound_or(kernel, socket, EADDRNOTAVAIL)?;
    if_room(
        held.description.flags,
        listening,
        Connecting { held, own, to },
    )
}

/// A connection from the socket to the listener, at which it waits behind the others.
fn connect_to(
    kernel: &mut PlainKernel,
    alloc: Global,
    p: VPid,
    found: Connecting,
) -> Result<(), AllocError>
    requires { kernels.made_of kernel.old p < 2 ^ 32 - 4 }
    ensures ok { OnOk result (kernel.new ≡ rows.connected kernel.old p (connecting_told found)) }
{
    let conn = next_channel(kernel, p);
    count(&mut kernel.makers, p);
    let channel = Channel {
        kind: ChannelKind::Internet,
        first: ChannelEnd {
            address: Some(found.own),
            is_open: true,
        },
        second: ChannelEnd {
            address: Some(found.to),
            is_open: true,
        },
    };
    add_channel(kernel, alloc, conn, channel)?;
    add_last(&mut kernel.listeners, found.to, conn)?;
    set_object(
        &mut kernel.descriptions,
        found.held,
        Object::Stream { conn, side: 0 },
    )
}

/// connect (`man 2 connect`), to this address.
#[tactic(auto, unfolding(plain_machine::specs::Rows::Connections::connect_row, plain_process::specs::Attempts::and_then))]
pub fn connect(
    kernel: &mut PlainKernel,
    alloc: Global,
    p: VPid,
    fd: u32,
    length: u32,
    given: &[u8],
) -> RowResult
    ensures row { IfOk result (λ attempt.
        rows.connect_row kernel.old p fd length given.now ≡ attempt_told kernel.new given.now attempt) }
    ensures kept { IfOk result (λ attempt. KeepsUnlessGives attempt kernel.old kernel.new) }
{
    match find_listener(kernel, p, fd, length, given) {
        Err(error) => Ok(Attempt::Fails(error)),
        Ok(None) => Ok(Attempt::NotReady),
        Ok(Some(found)) => {
            connect_to(kernel, alloc, p, found)?;
            Ok(Attempt::value(alloc, 0))
        }
    }
}

/// Whether a connect doesn't wait.
#[tactic(auto, unfolding(plain_machine::specs::Rows::Connections::is_connect_ready))]
pub fn is_connect_ready(kernel: &PlainKernel, p: VPid, fd: u32, length: u32, front: &Given) -> bool
    ensures { result ≡ rows.is_connect_ready kernel.now p fd length front.now }
{
    match find_listener(kernel, p, fd, length, front) {
        Ok(None) => false,
        _ => true,
    }
}
