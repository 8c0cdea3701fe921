// What the tests do in turn with the kernel part, and what they see of it then.
use crate::asking::{FIRST, SECOND, Step, ask, holds, two_processes};
use plain_machine::PlainKernel;
use plain_sockets::connections::{is_accept_ready, is_connect_ready};
use plain_tables::{Channel, ChannelEnd, ChannelKind, Description, Direction, Object};
use std::alloc::{AllocError, Global};
use std::process::Abort;
use std::test::Fail;
use sys_abi::{ConnId, DescId, Descriptor, Dir, Maker, Slot, VPid, VirtAddr};
use views::list_of::ListOf;

/// The connection of the tests, which is the fourth thing that the first process makes.
const CONNECTION: ConnId = ConnId { pid: FIRST, num: 4 };

/// A channel that a test puts behind a descriptor.
const CHANNEL: ConnId = ConnId { pid: FIRST, num: 7 };

/// Port 80 of 10.0.0.4.
static FRONT: [u8; 16] = [2, 0, 0, 80, 10, 0, 0, 4, 0, 0, 0, 0, 0, 0, 0, 0];

/// What a test does next.
#[derive(Clone, Copy)]
pub enum Turn {
    /// Calls of the first process answer what they should, one after the other.
    First(&'static [Step]),
    /// And calls of the second one.
    Second(&'static [Step]),
    Change(Change),
    /// The connection is there, and 255 channels are made like it.
    CopyConnection,
    See(Sight),
}

/// A change of the kernel part that no call makes.
#[derive(Clone, Copy)]
pub enum Change {
    /// A description of that object is behind a descriptor of the first process.
    Put(u32, Object),
    /// An end of a channel of that kind is behind it.
    PutEnd(u32, ChannelKind),
    /// The console is behind this descriptor of the first process and each later one.
    FillFrom(u32),
    Close(u32),
    /// The first process has made so many things.
    SetMade(u32),
    /// Five bytes have come in both directions of the connection.
    Send,
}

/// What is seen of the kernel part.
#[derive(Clone, Copy)]
pub enum Sight {
    /// The flags of what is behind a descriptor of the first process.
    Flags(u32, u32),
    /// Whether such a descriptor is closed on exec.
    Cloexec(u32, bool),
    /// The backlog of the listener at a port of the first process's host.
    Backlog(u32, u32),
    /// Whether accept on a descriptor answers now.
    AcceptReady(u32, bool),
    /// Whether connect to port 80 does.
    ConnectReady(u32, bool),
    /// Of the direction from a side of the connection, whether it is ended, whether it is unread, and its
    /// bytes.
    Left(u8, bool, bool, &'static [u8]),
}

/// The turns are taken, the first of them with nothing but the two processes.
pub fn follow(rt: &(impl Abort + AllocGlobal), turns: &[Turn]) -> Result<(), Fail> {
    let mut kernel = two_processes(rt.alloc())?;
    take_turns(rt, &mut kernel, turns)?;
    Ok(())
}

fn take_turns(
    rt: &(impl Abort + AllocGlobal),
    kernel: &mut PlainKernel,
    turns: &[Turn],
) -> Result<(), AllocError> {
    for turn in turns {
        take(rt, kernel, *turn)?;
    }
    Ok(())
}

fn take(
    rt: &(impl Abort + AllocGlobal),
    kernel: &mut PlainKernel,
    turn: Turn,
) -> Result<(), AllocError> {
    match turn {
        Turn::First(steps) => ask(rt, kernel, FIRST, steps),
        Turn::Second(steps) => ask(rt, kernel, SECOND, steps),
        Turn::Change(change) => make(kernel, rt.alloc(), change),
        Turn::CopyConnection => {
            holds(rt, copy_connection(kernel)?);
            Ok(())
        }
        Turn::See(sight) => {
            holds(rt, is_seen(kernel, sight));
            Ok(())
        }
    }
}

fn make(kernel: &mut PlainKernel, alloc: Global, change: Change) -> Result<(), AllocError> {
    match change {
        Change::Put(fd, object) => put(kernel, fd, object),
        Change::PutEnd(fd, kind) => put_end(kernel, fd, kind),
        Change::FillFrom(fd) => fill_from(kernel, fd),
        Change::Close(fd) => {
            kernel.close_descriptor(alloc, FIRST, fd);
            Ok(())
        }
        Change::SetMade(made) => set_made(kernel, made),
        Change::Send => {
            put_sent(kernel, alloc, 0)?;
            put_sent(kernel, alloc, 1)
        }
    }
}

/// Puts a description of that object behind a descriptor of the first process.
fn put(kernel: &mut PlainKernel, fd: u32, object: Object) -> Result<(), AllocError> {
    let desc = DescId {
        pid: VPid(1),
        num: fd,
    };
    let descriptor = Descriptor {
        desc,
        cloexec: false,
    };
    kernel
        .descriptors
        .insert(Slot { pid: FIRST, fd }, descriptor)?;
    let description = Description {
        object,
        flags: 2,
        owner: 0,
    };
    kernel.descriptions.insert(desc, description)?;
    Ok(())
}

fn put_end(kernel: &mut PlainKernel, fd: u32, kind: ChannelKind) -> Result<(), AllocError> {
    let end = ChannelEnd {
        address: None,
        is_open: true,
    };
    let channel = Channel {
        kind,
        first: end,
        second: end,
    };
    kernel.channels.insert(CHANNEL, channel)?;
    let stream = Object::Stream {
        conn: CHANNEL,
        side: 0,
    };
    put(kernel, fd, stream)
}

fn fill_from(kernel: &mut PlainKernel, first: u32) -> Result<(), AllocError> {
    for fd in first..256 {
        put(kernel, fd, Object::Console)?;
    }
    Ok(())
}

fn set_made(kernel: &mut PlainKernel, made: u32) -> Result<(), AllocError> {
    kernel.makers.insert(FIRST, Maker { host: 3, made })?;
    Ok(())
}

/// Five bytes have come in the direction from this side.
fn put_sent(kernel: &mut PlainKernel, alloc: Global, side: u8) -> Result<(), AllocError> {
    let sent = Direction {
        left: ListOf::from_vec(b"hello".to_vec(alloc)?),
        arrived: 5,
        ended: false,
        unread: false,
    };
    kernel.directions.insert(of_connection(side), sent)?;
    Ok(())
}

fn of_connection(side: u8) -> Dir {
    Dir {
        conn: CONNECTION,
        side,
    }
}

/// Whether the connection is there; then there are 255 channels more.
fn copy_connection(kernel: &mut PlainKernel) -> Result<bool, AllocError> {
    let Some(channel) = kernel.channels.get(CONNECTION).copied() else {
        return Ok(false);
    };
    for num in 100..355 {
        let copy = ConnId { pid: FIRST, num };
        kernel.channels.insert(copy, channel)?;
    }
    Ok(true)
}

fn is_seen(kernel: &PlainKernel, sight: Sight) -> bool {
    match sight {
        Sight::Flags(fd, flags) => match kernel.description_at(FIRST, fd) {
            Some(description) => description.flags == flags,
            None => false,
        },
        Sight::Cloexec(fd, cloexec) => match kernel.descriptors.get(Slot { pid: FIRST, fd }) {
            Some(descriptor) => descriptor.cloexec == cloexec,
            None => false,
        },
        Sight::Backlog(port, backlog) => {
            match kernel.listeners.get(VirtAddr { host: 3, port }) {
                Some(listening) => listening.backlog == backlog,
                None => false,
            }
        }
        Sight::AcceptReady(fd, ready) => is_accept_ready(kernel, FIRST, fd) == ready,
        Sight::ConnectReady(fd, ready) => {
            is_connect_ready(kernel, FIRST, fd, 16, &FRONT) == ready
        }
        Sight::Left(side, ended, unread, bytes) => {
            let direction = kernel.directions.get(of_connection(side));
            is_left(direction, ended, unread, bytes)
        }
    }
}

/// Whether the direction is ended, is unread, and has these bytes, all arrived.
fn is_left(direction: Option<&Direction>, ended: bool, unread: bool, bytes: &[u8]) -> bool {
    let Some(direction) = direction else {
        return false;
    };
    direction.ended == ended
        && direction.unread == unread
        && direction.left.as_slice() == bytes
        && direction.arrived == bytes.len() as u64
}
