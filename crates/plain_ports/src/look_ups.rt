ghost use Rattle.std.specs.Prelude.{◌≡◌, ◌-◌};
ghost use Rattle.std.specs.FinMap as map;
ghost use Rattle.plain_machine.specs.Kernel as kernels;
ghost use Rattle.plain_machine.specs.SocketWords as words;
ghost use Rattle.plain_tables.specs.Objects as objects;
ghost use Rattle.plain_ports.specs.Told.{told, held_told};

use plain_machine::PlainKernel;
use plain_tables::{Channel, ChannelKind, Description, Object};
use sys_abi::errors::{EBADF, ENOTSOCK};
use sys_abi::{ConnId, DescId, Errno, VPid, VirtAddr};

/// A descriptor, and the description to which it refers.
#[derive(Clone, Copy)]
pub struct Held {
    pub desc: DescId,
    pub cloexec: bool,
    pub description: Description,
}

/// What a descriptor of a process refers to; EBADF.
fn look_up(kernel: &PlainKernel, p: VPid, fd: u32) -> Result<Held, Errno>
    ensures { kernels.held kernel.now p fd ≡ told held_told result }
{
    let Some((descriptor, description)) = kernel.held_at(p, fd) else {
        return Err(Errno(EBADF));
    };
    Ok(Held {
        desc: descriptor.desc,
        cloexec: descriptor.cloexec,
        description,
    })
}

fn is_pipe(kind: ChannelKind) -> bool
    ensures { result ≡ words.is_pipe kind }
{
    match kind {
        ChannelKind::Pipe => true,
        _ => false,
    }
}

fn is_pipe_channel(kernel: &PlainKernel, conn: ConnId) -> bool
    ensures { result ≡ words.is_pipe_channel (map.get kernel.now.channels conn) }
{
    match kernel.channels.get(conn) {
        Some(channel) => is_pipe(channel.kind),
        None => false,
    }
}

fn is_socket(kernel: &PlainKernel, object: Object) -> bool
    ensures { result ≡ words.is_socket kernel.now object }
{
    match object {
        Object::Stream { conn, .. } => !is_pipe_channel(kernel, conn),
        Object::Socket { .. } => true,
        Object::Listener { .. } => true,
        Object::Datagram { .. } => true,
        _ => false,
    }
}

/// The socket of a descriptor; EBADF, ENOTSOCK.
#[tactic(auto, unfolding(plain_machine::specs::SocketWords::socket_at, plain_process::specs::Attempts::and_then, plain_process::specs::Attempts::need))]
pub fn socket_at(kernel: &PlainKernel, p: VPid, fd: u32) -> Result<Held, Errno>
    ensures { words.socket_at kernel.now p fd ≡ told held_told result }
{
    let held = look_up(kernel, p, fd)?;
    if !is_socket(kernel, held.description.object) {
        return Err(Errno(ENOTSOCK));
    }
    Ok(held)
}

/// The host of a process.
pub fn host_of(kernel: &PlainKernel, p: VPid) -> u32
    ensures { result ≡ kernels.host_of kernel.now p }
{
    match kernel.makers.get(p) {
        Some(maker) => maker.host,
        None => 0,
    }
}

/// The name of the next description that a process makes.
pub fn next_description(kernel: &PlainKernel, p: VPid) -> DescId
    ensures { result ≡ words.next_description kernel.now p }
{
    DescId {
        pid: p,
        num: kernel.made_of(p),
    }
}

/// The name of the next channel that a process makes.
pub fn next_channel(kernel: &PlainKernel, p: VPid) -> ConnId
    ensures { result ≡ words.next_channel kernel.now p }
{
    ConnId {
        pid: p,
        num: kernel.made_of(p),
    }
}

/// The address of an end of a channel.
pub fn end_address(channel: &Channel, side: u8) -> Option<VirtAddr>
    ensures { result ≡ (objects.end_of channel.now side).address }
{
    if side == 0 {
        return channel.first.address;
    }
    channel.second.address
}

/// The address to which a socket is bound, or at which somebody listens.
pub fn bound_at(object: Object) -> Option<VirtAddr>
    ensures { result ≡ objects.bound_at object }
{
    match object {
        Object::Socket { address } => {
            if address.port == 0 {
                return None;
            }
            Some(address)
        }
        Object::Listener { address } => Some(address),
        _ => None,
    }
}

/// The side across: 1 for side 0.
pub fn across(side: u8) -> u8
    ensures { result ≡ 1 - side }
{
    if side == 0 { 1 } else { 0 }
}
