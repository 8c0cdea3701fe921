ghost use Rattle.std.specs.Prelude.{◌≡◌, ◌<◌, ◌-◌, ◌^◌, OnOk};
ghost use Rattle.std.specs.Option.{option_map_or};
ghost use Rattle.std.specs.FinMap as map;
ghost use Rattle.sys_abi.specs.declared.maker.Maker.{Maker as AMaker};
ghost use Rattle.plain_tables.specs.Tables.{changed_at, made_more, slot};
ghost use Rattle.plain_machine.specs.Kernel as kernels;
ghost use Rattle.plain_machine.specs.Channels as channels;
ghost use Rattle.plain_machine.specs.SocketWords as words;

use id_maps::{ByAddress, ByDesc, ByPid};
use plain_machine::PlainKernel;
use plain_ports::look_ups::{Held, next_description};
use plain_tables::{Channel, Description, Direction, Listening, Object};
use std::alloc::{AllocError, Global};
use std::mem;
use sys_abi::{ConnId, DescId, Descriptor, Dir, Maker, Slot, VPid, VirtAddr};
use views::list_of::ListOf;

/// What a descriptor that is made refers to.
#[derive(Clone, Copy)]
pub(crate) struct Made {
    pub cloexec: bool,
    pub object: Object,
    pub flags: u32,
}

fn count_one(maker: &mut Maker)
    requires { maker.old.made < 2 ^ 32 - 4 }
    ensures { maker.new ≡ made_more 1 maker.old }
{
    maker.made += 1;
}

/// A process has made one thing more. Takes no memory.
pub(crate) fn count(makers: &mut ByPid<Maker>, p: VPid)
    requires { option_map_or (λ (m : AMaker). m.made) (map.get makers.old p) 0 < 2 ^ 32 - 4 }
    ensures { makers.new ≡ changed_at makers.old p (made_more 1) }
{
    if let Some(maker) = makers.get_mut(p) {
        count_one(maker);
    }
}

/// A new description of that name, with no owner, behind a new descriptor.
fn place(
    kernel: &mut PlainKernel,
    p: VPid,
    fd: u32,
    desc: DescId,
    made: Made,
) -> Result<(), AllocError>
    ensures ok { OnOk result (kernel.new
        ≡ kernels.placed kernel.old p fd desc made.cloexec made.object made.flags) }
{
    let descriptor = Descriptor {
        desc,
        cloexec: made.cloexec,
    };
    kernel.descriptors.insert(Slot { pid: p, fd }, descriptor)?;
    let description = Description {
        object: made.object,
        flags: made.flags,
        owner: 0,
    };
    kernel.descriptions.insert(desc, description)?;
    Ok(())
}

/// The next description that a process makes, behind a new descriptor.
pub(crate) fn make(kernel: &mut PlainKernel, p: VPid, fd: u32, made: Made) -> Result<(), AllocError>
    requires { kernels.made_of kernel.old p < 2 ^ 32 - 4 }
    ensures ok { OnOk result (kernel.new ≡ kernels.placed (kernels.numbered kernel.old p 1) p fd
        (words.next_description kernel.old p) made.cloexec made.object made.flags) }
{
    let desc = next_description(kernel, p);
    count(&mut kernel.makers, p);
    place(kernel, p, fd, desc, made)
}

/// Another object in the place of a description's.
pub(crate) fn set_object(
    descriptions: &mut ByDesc<Description>,
    held: Held,
    object: Object,
) -> Result<(), AllocError>
    ensures ok { OnOk result (descriptions.new ≡ map.insert descriptions.old held.desc
        (record { object = object; flags = held.description.flags; owner = held.description.owner })) }
{
    let description = Description {
        object,
        flags: held.description.flags,
        owner: held.description.owner,
    };
    descriptions.insert(held.desc, description)?;
    Ok(())
}

fn empty_direction(alloc: Global) -> Direction
    ensures { result ≡ channels.empty_direction }
{
    Direction {
        left: ListOf::new(alloc),
        arrived: 0,
        ended: false,
        unread: false,
    }
}

/// A new channel, open at both sides, with nothing sent.
pub(crate) fn add_channel(
    kernel: &mut PlainKernel,
    alloc: Global,
    conn: ConnId,
    channel: Channel,
) -> Result<(), AllocError>
    ensures ok { OnOk result (kernel.new ≡ channels.with_channel kernel.old conn channel) }
{
    kernel.channels.insert(conn, channel)?;
    let first = Dir { conn, side: 0 };
    kernel.directions.insert(first, empty_direction(alloc))?;
    let second = Dir { conn, side: 1 };
    kernel.directions.insert(second, empty_direction(alloc))?;
    Ok(())
}

fn drop_first(listening: &mut Listening, alloc: Global)
    ensures { listening.new ≡ words.without_first listening.old }
{
    let mut queue = mem::replace(&mut listening.queue, ListOf::new(alloc)).into_vec();
    if !queue.is_empty() {
        queue.remove(0);
    }
    listening.queue = ListOf::from_vec(queue);
}

/// The first connection that waits at a listener waits no more. Takes no memory.
pub(crate) fn take_first(listeners: &mut ByAddress<Listening>, alloc: Global, address: VirtAddr)
    ensures { listeners.new ≡ changed_at listeners.old address words.without_first }
{
    if let Some(listening) = listeners.get_mut(address) {
        drop_first(listening, alloc);
    }
}

fn push(listening: &mut Listening, conn: ConnId) -> Result<(), AllocError>
    ensures ok { OnOk result (listening.new ≡ words.with_last conn listening.old) }
{
    listening.queue.push(conn)?;
    Ok(())
}

/// A connection waits at a listener, behind the others.
pub(crate) fn add_last(
    listeners: &mut ByAddress<Listening>,
    address: VirtAddr,
    conn: ConnId,
) -> Result<(), AllocError>
    ensures ok { OnOk result (listeners.new ≡ changed_at listeners.old address (words.with_last conn)) }
{
    match listeners.get_mut(address) {
        None => Ok(()),
        Some(listening) => push(listening, conn),
    }
}
