//! The table of the channels, the addresses and the makers of a kernel part.
ghost use Rattle.std.specs.Prelude.{◌≡◌, None, IfOk, OnOk};
ghost use Rattle.std.specs.FinMap as map;
ghost use Rattle.plain_machine.specs.Kernels.{IsKernel};
ghost use Rattle.rebuild_tables.specs.ConnTables as words;

use conn_table::{Conn, ConnFault, ConnTable};
use id_maps::{ByConn, ByDesc, ByPid};
use plain_machine::PlainKernel;
use plain_tables::channel::{Channel, ChannelKind};
use plain_tables::description::{Description, Object};
use std::alloc::{AllocError, Global};
use sys_abi::{ConnId, Maker, VirtAddr};

fn kind_number(kind: ChannelKind) -> u8
    ensures { result ≡ words.kind_number kind }
{
    match kind {
        ChannelKind::Pair => 0,
        ChannelKind::Internet => 1,
        ChannelKind::Pipe => 2,
    }
}

/// The channel as the table has it.
fn conn_of(id: ConnId, channel: &Channel) -> Conn
    ensures { result ≡ words.conn_of id channel.now }
{
    Conn {
        id,
        kind: kind_number(channel.kind),
        addr: [channel.first.address, channel.second.address],
        open_ends: [channel.first.is_open, channel.second.is_open],
    }
}

/// The address of a socket or listener.
fn own_address(object: Object) -> Option<VirtAddr>
    ensures { result ≡ words.own_address object }
{
    match object {
        Object::Socket { address } => Some(address),
        Object::Listener { address } => Some(address),
        _ => None,
    }
}

fn add_conn(t: &mut ConnTable, conn: Conn) -> Result<(), AllocError>
    requires { map.get t.old.conns conn.id ≡ None }
    ensures { OnOk result (t.new ≡ record t.old { conns = map.insert t.old.conns conn.id conn }) }
{
    match t.add(conn) {
        Ok(()) => Ok(()),
        Err(ConnFault::Memory) => Err(AllocError),
        Err(ConnFault::Taken) => unreachable!(),
    }
}

/// Adds all channels to a table that has none.
fn add_conns(t: &mut ConnTable, channels: &ByConn<Channel>) -> Result<(), AllocError>
    requires { t.old.conns ≡ map.empty }
    ensures conns { OnOk result (words.AreConns channels.now t.new.conns) }
    ensures names { OnOk result (t.new.names ≡ t.old.names) }
    ensures makers { OnOk result (t.new.makers ≡ t.old.makers) }
{
    for (id, channel) in channels.iter() {
        add_conn(t, conn_of(*id, channel))?;
    }
    Ok(())
}

/// Gives sockets and listeners their addresses, in a table that has none.
fn set_names(t: &mut ConnTable, descriptions: &ByDesc<Description>) -> Result<(), AllocError>
    requires { t.old.names ≡ map.empty }
    ensures names { OnOk result (words.AreNames descriptions.now t.new.names) }
    ensures conns { OnOk result (t.new.conns ≡ t.old.conns) }
    ensures makers { OnOk result (t.new.makers ≡ t.old.makers) }
{
    for (id, description) in descriptions.iter() {
        match own_address(description.object) {
            None => {}
            Some(address) => t.set_name(*id, address)?,
        }
    }
    Ok(())
}

/// Sets the makers of all processes, in a table that has none.
fn set_makers(t: &mut ConnTable, makers: &ByPid<Maker>) -> Result<(), AllocError>
    requires { t.old.makers ≡ map.empty }
    ensures makers { OnOk result (t.new.makers ≡ makers.now) }
    ensures conns { OnOk result (t.new.conns ≡ t.old.conns) }
    ensures names { OnOk result (t.new.names ≡ t.old.names) }
{
    for (p, maker) in makers.iter() {
        t.set_maker(*p, *maker)?;
    }
    Ok(())
}

/// The table of a kernel part's channels, of the addresses of its sockets and listeners, and of its makers.
///
/// # Errors
/// Memory was wanted.
pub fn rebuild_conns(alloc: Global, kernel: &PlainKernel) -> Result<ConnTable, AllocError>
    ensures { IfOk result (words.IsTableOf kernel.now) }
{
    let mut t = ConnTable::new(alloc);
    add_conns(&mut t, &kernel.channels)?;
    set_names(&mut t, &kernel.descriptions)?;
    set_makers(&mut t, &kernel.makers)?;
    Ok(t)
}
