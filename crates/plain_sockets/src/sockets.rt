ghost use Rattle.std.specs.Prelude.{◌≡◌, IfOk};
ghost use Rattle.plain_machine.specs.SocketWords as words;
ghost use Rattle.plain_machine.specs.Rows.Sockets as rows;
ghost use Rattle.plain_machine.specs.Answers.{attempt_told, RowTold, KeepsUnlessGives};
ghost use Rattle.plain_sockets.specs.Told as found;
ghost use Rattle.plain_ports.specs.Told.{told, same_address};
ghost use Rattle.plain_sockets.specs.Told.{NamedTold, bound_told, listening_told};

use crate::changes::{Made, make, set_object};
use id_maps::ByDir;
use plain_machine::PlainKernel;
use plain_ports::addresses::{
    ADDRESS_SIZE, AF_INET, PAIR_BYTES, cut_to, end_name, family_of, named_host, own_name, port_of,
};
use plain_ports::look_ups::{Held, across, host_of, socket_at};
use plain_ports::ports::{bound_or, port_for};
use plain_tables::answer::{Answer, Attempt, RowResult};
use plain_tables::closing::{end_at, quiet, stop_reading_at};
use plain_tables::{Direction, Listening, Object};
use std::alloc::Global;
use sys_abi::errors::{
    EADDRINUSE, EADDRNOTAVAIL, EAFNOSUPPORT, EINVAL, EMFILE, ENFILE, ENOTCONN, EOPNOTSUPP,
};
use sys_abi::flags::{O_CLOEXEC, O_NONBLOCK, O_RDWR};
use sys_abi::{ConnId, Dir, Errno, Reply, VPid, VirtAddr};
use views::list_of::ListOf;

/// Streams, and no other bits than those of a new description.
fn is_stream_type(socket_type: u32) -> bool
    ensures { result ≡ words.is_stream_type socket_type }
{
    socket_type % 16 == 1 && socket_type & (1 + O_NONBLOCK + O_CLOEXEC) == socket_type
}

fn status_flags(nonblocking: bool) -> u32
    ensures { result ≡ words.socket_flags nonblocking }
{
    if nonblocking {
        O_RDWR + O_NONBLOCK
    } else {
        O_RDWR
    }
}

/// socket (`man 2 socket`).
#[tactic(auto, unfolding(plain_machine::specs::Rows::Sockets::socket_row, plain_process::specs::Attempts::and_then, plain_process::specs::Attempts::need, plain_process::specs::Attempts::found))]
pub fn socket(
    kernel: &mut PlainKernel,
    alloc: Global,
    p: VPid,
    domain: u32,
    socket_type: u32,
    protocol: u32,
) -> RowResult
    ensures row { IfOk result (RowTold (rows.socket_row kernel.old p domain socket_type protocol) kernel.new) }
    ensures kept { IfOk result (λ attempt. KeepsUnlessGives attempt kernel.old kernel.new) }
{
    if domain != AF_INET {
        return Ok(Attempt::fails(EAFNOSUPPORT));
    }
    if !is_stream_type(socket_type) || !(protocol == 0 || protocol == 6) {
        return Ok(Attempt::fails(EINVAL));
    }
    if !kernel.has_numbers(p) {
        return Ok(Attempt::fails(ENFILE));
    }
    let Some(fd) = kernel.free_from(p, 0) else {
        return Ok(Attempt::fails(EMFILE));
    };
    let address = VirtAddr {
        host: host_of(kernel, p),
        port: 0,
    };
    let made = Made {
        cloexec: socket_type / O_CLOEXEC % 2 == 1,
        object: Object::Socket { address },
        flags: status_flags(socket_type / O_NONBLOCK % 2 == 1),
    };
    make(kernel, p, fd, made)?;
    Ok(Attempt::value(alloc, fd))
}

/// A socket, and the address that it gets.
#[derive(Clone, Copy)]
pub struct Bound {
    pub held: Held,
    pub address: VirtAddr,
}

/// The host of a socket that isn't bound.
fn unbound_host(object: Object) -> Option<u32>
    ensures { result ≡ words.unbound_host object }
{
    match object {
        Object::Socket { address } => {
            if address.port != 0 {
                return None;
            }
            Some(address.host)
        }
        _ => None,
    }
}

fn is_own_host(own: u32, host: Option<u32>) -> bool
    ensures { result ≡ rows.is_own_host own host }
{
    match host {
        Some(host) => host == own,
        None => false,
    }
}

/// What a bind finds before it changes anything.
#[tactic(auto, unfolding(plain_machine::specs::Rows::Sockets::bind_row, plain_process::specs::Attempts::and_then, plain_process::specs::Attempts::need, plain_process::specs::Attempts::found))]
fn binding(
    kernel: &PlainKernel,
    p: VPid,
    fd: u32,
    length: u32,
    given: &[u8],
) -> Result<Bound, Errno>
    ensures { rows.bind_row kernel.now p fd length given.now ≡ bound_told kernel.now result }
{
    let held = socket_at(kernel, p, fd)?;
    if length < ADDRESS_SIZE {
        return Err(Errno(EINVAL));
    }
    let Some(host) = unbound_host(held.description.object) else {
        return Err(Errno(EINVAL));
    };
    if family_of(given) != AF_INET {
        return Err(Errno(EAFNOSUPPORT));
    }
    if !is_own_host(host, named_host(host, given)) {
        return Err(Errno(EADDRNOTAVAIL));
    }
    let port = port_for(kernel, host, port_of(given))?;
    let address = VirtAddr { host, port };
    Ok(Bound { held, address })
}

/// bind (`man 2 bind`), to this address.
pub fn bind(
    kernel: &mut PlainKernel,
    alloc: Global,
    p: VPid,
    fd: u32,
    length: u32,
    given: &[u8],
) -> RowResult
    ensures row { IfOk result (λ attempt.
        rows.bind_row kernel.old p fd length given.now ≡ attempt_told kernel.new given.now attempt) }
    ensures kept { IfOk result (λ attempt. KeepsUnlessGives attempt kernel.old kernel.new) }
{
    match binding(kernel, p, fd, length, given) {
        Err(error) => Ok(Attempt::Fails(error)),
        Ok(bound) => {
            let socket = Object::Socket {
                address: bound.address,
            };
            set_object(&mut kernel.descriptions, bound.held, socket)?;
            Ok(Attempt::value(alloc, 0))
        }
    }
}

/// The address of a socket that may listen; EOPNOTSUPP, EINVAL.
fn may_listen(object: Object) -> Result<VirtAddr, Errno>
    ensures { rows.may_listen object ≡ told same_address result }
{
    match object {
        Object::Socket { address } => Ok(address),
        Object::Datagram { .. } => Err(Errno(EOPNOTSUPP)),
        _ => Err(Errno(EINVAL)),
    }
}

/// What a listen finds before it changes anything.
#[tactic(auto, unfolding(plain_machine::specs::Rows::Sockets::listen_row, plain_process::specs::Attempts::and_then))]
fn listening(kernel: &PlainKernel, p: VPid, fd: u32, backlog: u32) -> Result<Bound, Errno>
    ensures { rows.listen_row kernel.now p fd backlog ≡ listening_told kernel.now backlog result }
{
    let held = socket_at(kernel, p, fd)?;
    let socket = may_listen(held.description.object)?;
    let address = bound_or(kernel, socket, EADDRINUSE)?;
    Ok(Bound { held, address })
}

/// listen (`man 2 listen`).
pub fn listen(kernel: &mut PlainKernel, alloc: Global, p: VPid, fd: u32, backlog: u32) -> RowResult
    ensures row { IfOk result (RowTold (rows.listen_row kernel.old p fd backlog) kernel.new) }
    ensures kept { IfOk result (λ attempt. KeepsUnlessGives attempt kernel.old kernel.new) }
{
    match listening(kernel, p, fd, backlog) {
        Err(error) => Ok(Attempt::Fails(error)),
        Ok(bound) => {
            let listener = Object::Listener {
                address: bound.address,
            };
            set_object(&mut kernel.descriptions, bound.held, listener)?;
            let nobody = Listening {
                backlog: backlog.min(128).max(1),
                queue: ListOf::new(alloc),
            };
            kernel.listeners.insert(bound.address, nobody)?;
            Ok(Attempt::value(alloc, 0))
        }
    }
}

/// The answer of a call that writes a name.
fn named(alloc: Global, given: &[u8], name: &[u8]) -> RowResult
    ensures { IfOk result (NamedTold given.now name.now) }
{
    Ok(Attempt::Gives(Answer {
        reply: Reply::Value(0),
        bytes: cut_to(alloc, given, name)?,
        is_shown: false,
    }))
}

/// getsockname (`man 2 getsockname`), into this much room.
#[tactic(auto, unfolding(plain_machine::specs::Rows::Sockets::getsockname_row, plain_process::specs::Attempts::and_then))]
pub fn getsockname(
    kernel: &mut PlainKernel,
    alloc: Global,
    p: VPid,
    fd: u32,
    given: &[u8],
) -> RowResult
    ensures row { IfOk result (λ attempt.
        rows.getsockname_row kernel.old p fd given.now ≡ attempt_told kernel.new given.now attempt) }
    ensures kept { IfOk result (λ attempt. KeepsUnlessGives attempt kernel.old kernel.new) }
{
    match socket_at(kernel, p, fd) {
        Err(error) => Ok(Attempt::Fails(error)),
        Ok(held) => {
            let name = own_name(alloc, kernel, held.description.object)?;
            named(alloc, given, name.as_slice())
        }
    }
}

#[tactic(auto, unfolding(plain_process::specs::Attempts::and_then))]
fn peer_named(alloc: Global, kernel: &PlainKernel, object: Object, given: &[u8]) -> RowResult
    ensures row { IfOk result (λ attempt.
        found.peer_named kernel.now object given.now ≡ attempt_told kernel.now given.now attempt) }
    ensures kept { IfOk result (λ attempt. KeepsUnlessGives attempt kernel.now kernel.now) }
{
    match object {
        Object::Stream { conn, side } => {
            let name = end_name(alloc, kernel, conn, across(side))?;
            named(alloc, given, name.as_slice())
        }
        Object::Datagram { .. } => named(alloc, given, &PAIR_BYTES),
        _ => Ok(Attempt::fails(ENOTCONN)),
    }
}

/// getpeername (`man 2 getpeername`), into this much room.
#[tactic(auto, unfolding(plain_machine::specs::Rows::Sockets::getpeername_row, plain_process::specs::Attempts::and_then))]
pub fn getpeername(
    kernel: &mut PlainKernel,
    alloc: Global,
    p: VPid,
    fd: u32,
    given: &[u8],
) -> RowResult
    ensures row { IfOk result (λ attempt.
        rows.getpeername_row kernel.old p fd given.now ≡ attempt_told kernel.new given.now attempt) }
    ensures kept { IfOk result (λ attempt. KeepsUnlessGives attempt kernel.old kernel.new) }
{
    match socket_at(kernel, p, fd) {
        Err(error) => Ok(Attempt::Fails(error)),
        Ok(held) => peer_named(alloc, kernel, held.description.object, given),
    }
}

/// setsockopt (`man 2 setsockopt`), which has no effect.
#[tactic(auto, unfolding(plain_machine::specs::Rows::Sockets::setsockopt_row, plain_process::specs::Attempts::and_then))]
pub fn setsockopt(kernel: &mut PlainKernel, alloc: Global, p: VPid, fd: u32) -> RowResult
    ensures row { IfOk result (RowTold (rows.setsockopt_row kernel.old p fd) kernel.new) }
    ensures kept { IfOk result (λ attempt. KeepsUnlessGives attempt kernel.old kernel.new) }
{
    match socket_at(kernel, p, fd) {
        Err(error) => Ok(Attempt::Fails(error)),
        Ok(_) => Ok(Attempt::value(alloc, 0)),
    }
}

/// A side of a channel reads no more (0), sends no more (1), or neither. Takes no memory.
#[tactic(auto, unfolding(plain_machine::specs::Rows::Sockets::shut))]
fn shut(directions: &mut ByDir<Direction>, alloc: Global, conn: ConnId, side: u8, how: u32)
    ensures { directions.new ≡ rows.shut directions.old conn side how }
{
    if how == 0 {
        stop_reading_at(
            directions,
            alloc,
            Dir {
                conn,
                side: across(side),
            },
        );
    } else if how == 1 {
        end_at(directions, Dir { conn, side });
    } else {
        quiet(directions, alloc, conn, side);
    }
}

#[tactic(auto, unfolding(plain_process::specs::Attempts::and_then, plain_process::specs::Attempts::need))]
fn shut_object(kernel: &mut PlainKernel, alloc: Global, object: Object, how: u32) -> Attempt
    ensures row { RowTold (rows.shut_object kernel.old how object) kernel.new result }
    ensures kept { KeepsUnlessGives result kernel.old kernel.new }
{
    match object {
        Object::Stream { conn, side } => {
            if how > 2 {
                return Attempt::fails(EINVAL);
            }
            shut(&mut kernel.directions, alloc, conn, side, how);
            Attempt::value(alloc, 0)
        }
        Object::Datagram { .. } => Attempt::fails(EOPNOTSUPP),
        _ => {
            if how > 2 {
                return Attempt::fails(EINVAL);
            }
            Attempt::fails(ENOTCONN)
        }
    }
}

/// shutdown (`man 2 shutdown`). Takes no memory.
#[tactic(auto, unfolding(plain_machine::specs::Rows::Sockets::shutdown_row, plain_process::specs::Attempts::and_then))]
pub fn shutdown(kernel: &mut PlainKernel, alloc: Global, p: VPid, fd: u32, how: u32) -> RowResult
    ensures row { IfOk result (RowTold (rows.shutdown_row kernel.old p fd how) kernel.new) }
    ensures kept { IfOk result (λ attempt. KeepsUnlessGives attempt kernel.old kernel.new) }
{
    match socket_at(kernel, p, fd) {
        Err(error) => Ok(Attempt::Fails(error)),
        Ok(held) => Ok(shut_object(kernel, alloc, held.description.object, how)),
    }
}
