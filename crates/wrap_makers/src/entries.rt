//! What stands in the table of channels for what a call makes.
ghost use Rattle.std.specs.Prelude.{◌≡◌, ◌+◌, ◌<◌, ◌^◌, true, Some, None, OnOk, OnErr};
ghost use Rattle.std.specs.FinMap as map;
ghost use Rattle.sys_abi.specs.declared.maker.Maker.{Maker};
ghost use Rattle.host_tables.specs.Stands as stands;
ghost use Rattle.wrap_names.specs.Wrapping as words;
ghost use Rattle.wrap_makers.specs.Entries as entries;

use conn_table::{Conn, ConnTable};
use host_tables::KernelReply;
use std::alloc::AllocError;
use sys_abi::{ConnId, DescId, VPid, VirtAddr};
use wrap_names::counting::{count_made, is_done};

/// An entry for what a call makes.
#[derive(Clone, Copy)]
pub enum Entry {
    /// What is made has neither a name nor a channel.
    Nothing,
    /// The address of a socket.
    Name(DescId, VirtAddr),
    /// A channel of this kind, with both its ends open.
    Channel(ConnId, u8),
}

/// Puts the entry in. After want of memory the table is as before.
pub(crate) fn put_entry(conns: &mut ConnTable, entry: Entry) -> Result<(), AllocError>
    ensures ok { OnOk result (conns.new ≡ entries.with_entry conns.old entry) }
    ensures err { OnErr result (conns.new ≡ conns.old) }
{
    match entry {
        Entry::Nothing => Ok(()),
        Entry::Name(id, address) => conns.set_name(id, address),
        Entry::Channel(id, kind) => put_channel(conns, id, kind),
    }
}

fn put_channel(conns: &mut ConnTable, id: ConnId, kind: u8) -> Result<(), AllocError>
    ensures ok { OnOk result (conns.new ≡ entries.with_channel conns.old id kind) }
    ensures err { OnErr result (conns.new ≡ conns.old) }
{
    let conn = open_conn(id, kind);
    match conns.add(conn) {
        Ok(()) => Ok(()),
        Err(_) => Err(AllocError),
    }
}

fn open_conn(id: ConnId, kind: u8) -> Conn
    ensures { result ≡ stands.open_conn id kind None None }
{
    Conn {
        id,
        kind,
        addr: [None, None],
        open_ends: [true, true],
    }
}

/// Takes the entry out again, without memory.
fn drop_entry(conns: &mut ConnTable, entry: Entry)
    ensures { conns.new ≡ entries.without_entry conns.old entry }
{
    match entry {
        Entry::Nothing => {}
        Entry::Name(id, _) => conns.drop_name(id),
        Entry::Channel(id, _) => drop_channel(conns, id),
    }
}

fn drop_channel(conns: &mut ConnTable, id: ConnId)
    ensures { conns.new ≡ entries.without_channel conns.old id }
{
    conns.drop_end(id, 0);
    conns.drop_end(id, 1);
}

/// After the call: the process has made so many things more, or else the entry goes.
pub(crate) fn settle(conns: &mut ConnTable, p: VPid, entry: Entry, count: u32, reply: KernelReply)
    requires { words.is_done reply ≡ true → (maker : Maker) → map.get conns.old.makers p ≡ Some maker
        → maker.made + count < 2 ^ 32 }
    ensures { conns.new ≡ entries.settled conns.old p entry count reply }
{
    if is_done(reply) {
        count_made(conns, p, count);
    } else {
        drop_entry(conns, entry);
    }
}
