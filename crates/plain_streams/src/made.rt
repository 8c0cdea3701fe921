//! What the calls that make descriptions have in common: their flags, and the ends of what they make.
ghost use Rattle.std.specs.Prelude.{◌≡◌, ◌<◌, ◌++◌, true, None, IfOk, OnOk};
ghost use Rattle.sys_abi.specs.declared.flags.TheConstants.{O_CLOEXEC};
ghost use Rattle.sys_abi.specs.Flags.{has_flag};
ghost use Rattle.plain_process.specs.Memory.{low_bytes};
ghost use Rattle.plain_machine.specs.Channels.{open_channel, with_channel, empty_direction as an_empty_direction};
ghost use Rattle.plain_machine.specs.Kernel.{has_numbers as numbers_left};
ghost use Rattle.plain_machine.specs.Making as words;

use plain_machine::PlainKernel;
use plain_machine::new_end::NewEnd;
use plain_tables::{Channel, ChannelEnd, ChannelKind, Direction, Object};
use std::alloc::{AllocError, Global};
use sys_abi::flags::{O_CLOEXEC, O_NONBLOCK};
use sys_abi::{ConnId, DescId, Descriptor, Dir, VPid};
use views::list_of::ListOf;

/// The flags that a call which makes descriptors takes.
const MAKING_FLAGS: u32 = O_NONBLOCK + O_CLOEXEC;

/// There are at most so many channels.
const CHANNEL_LIMIT: usize = 256;

pub(crate) fn are_making_flags(flags: u32) -> bool
    ensures { result ≡ words.are_making_flags flags }
{
    flags & MAKING_FLAGS == flags
}

pub(crate) fn has_cloexec(flags: u32) -> bool
    ensures { result ≡ has_flag flags O_CLOEXEC }
{
    flags / O_CLOEXEC % 2 == 1
}

/// An access mode, with O_NONBLOCK where it is among the flags.
pub(crate) fn status_flags(mode: u32, flags: u32) -> u32
    requires { mode < 3 }
    ensures { result ≡ words.end_flags mode flags }
{
    if flags / O_NONBLOCK % 2 == 1 {
        mode + O_NONBLOCK
    } else {
        mode
    }
}

/// Whether the process may make a channel more; ENFILE where it may not.
pub(crate) fn has_channel_room(kernel: &PlainKernel, p: VPid) -> bool
    ensures { result ≡ words.has_channel_room kernel.now p }
{
    kernel.has_numbers(p) && kernel.channels.len() < CHANNEL_LIMIT
}

/// A channel more, with both its ends. After want of memory the kernel part may be any.
pub(crate) fn add_ends(
    kernel: &mut PlainKernel,
    alloc: Global,
    p: VPid,
    kind: ChannelKind,
    cloexec: bool,
    first: NewEnd,
    second: NewEnd,
) -> Result<(), AllocError>
    requires { numbers_left kernel.old p ≡ true }
    ensures { OnOk result (kernel.new ≡ words.with_ends kernel.old p kind cloexec first second) }
{
    let made = kernel.made_of(p);
    let conn = ConnId { pid: p, num: made };
    kernel.count_made(p, 3)?;
    add_channel(kernel, alloc, conn, kind)?;
    place_end(kernel, p, conn, made + 1, cloexec, first)?;
    place_end(kernel, p, conn, made + 2, cloexec, second)
}

fn add_channel(
    kernel: &mut PlainKernel,
    alloc: Global,
    conn: ConnId,
    kind: ChannelKind,
) -> Result<(), AllocError>
    ensures { OnOk result (kernel.new ≡ with_channel kernel.old conn (open_channel kind None None)) }
{
    let end = ChannelEnd {
        address: None,
        is_open: true,
    };
    let channel = Channel {
        kind,
        first: end,
        second: end,
    };
    kernel.channels.insert(conn, channel)?;
    kernel
        .directions
        .insert(Dir { conn, side: 0 }, empty_direction(alloc))?;
    kernel
        .directions
        .insert(Dir { conn, side: 1 }, empty_direction(alloc))?;
    Ok(())
}

fn empty_direction(alloc: Global) -> Direction
    ensures { result ≡ an_empty_direction }
{
    Direction {
        left: ListOf::new(alloc),
        arrived: 0,
        ended: false,
        unread: false,
    }
}

fn place_end(
    kernel: &mut PlainKernel,
    p: VPid,
    conn: ConnId,
    num: u32,
    cloexec: bool,
    end: NewEnd,
) -> Result<(), AllocError>
    ensures { OnOk result (kernel.new ≡ words.with_stream kernel.old p conn num cloexec end) }
{
    let descriptor = Descriptor {
        desc: DescId { pid: p, num },
        cloexec,
    };
    let object = Object::Stream {
        conn,
        side: end.side,
    };
    kernel.place(p, end.fd, descriptor, object, end.flags)
}

/// Two datagram ends, which know each other. After want of memory the kernel part may be any.
pub(crate) fn add_datagrams(
    kernel: &mut PlainKernel,
    alloc: Global,
    p: VPid,
    cloexec: bool,
    flags: u32,
    first: u32,
    second: u32,
) -> Result<(), AllocError>
    requires { numbers_left kernel.old p ≡ true }
    ensures { OnOk result (kernel.new ≡ words.with_datagrams kernel.old p cloexec flags first second) }
{
    let made = kernel.made_of(p);
    let end = DescId { pid: p, num: made };
    let other = DescId {
        pid: p,
        num: made + 1,
    };
    kernel.count_made(p, 2)?;
    place_datagram(kernel, alloc, first, end, other, cloexec, flags)?;
    place_datagram(kernel, alloc, second, other, end, cloexec, flags)
}

fn place_datagram(
    kernel: &mut PlainKernel,
    alloc: Global,
    fd: u32,
    end: DescId,
    peer: DescId,
    cloexec: bool,
    flags: u32,
) -> Result<(), AllocError>
    requires { peer.pid ≡ end.pid }
    ensures { OnOk result (kernel.new ≡ words.with_datagram kernel.old end.pid fd end.num peer.num cloexec flags) }
{
    let descriptor = Descriptor { desc: end, cloexec };
    kernel.place(end.pid, fd, descriptor, Object::Datagram { peer }, flags)?;
    kernel.inboxes.insert(end, ListOf::new(alloc))?;
    Ok(())
}

/// The numbers of two descriptors, 4 bytes each.
pub(crate) fn number_bytes(alloc: Global, first: u32, second: u32) -> Result<ListOf<u8>, AllocError>
    ensures { IfOk result (λ bytes. bytes ≡ low_bytes 4 first ++ low_bytes 4 second) }
{
    let mut bytes = Vec::new(alloc);
    bytes.extend_from_slice(&first.to_le_bytes())?;
    bytes.extend_from_slice(&second.to_le_bytes())?;
    Ok(ListOf::from_vec(bytes))
}
