//! What is listed for a connect in the table of channels.
ghost use Rattle.std.specs.Prelude.{◌≡◌, ◌+◌, ◌<◌, ◌^◌, Some, OnOk, OnErr};
ghost use Rattle.std.specs.FinMap as map;
ghost use Rattle.sys_abi.specs.declared.maker.Maker.{Maker};
ghost use Rattle.conn_table.specs.declared.table.ConnTable.{ConnTable as Table};
ghost use Rattle.wrap_sockets.specs.Listing as words;

use crate::targets::Listed;
use conn_table::{ConnFault, ConnTable};
use sys_abi::VPid;
use wrap_names::counting::count_made;

/// The new channel is listed.
pub(crate) fn list(conns: &mut ConnTable, listed: Option<Listed>) -> Result<(), ConnFault>
    ensures ok { OnOk result (conns.new ≡ words.with_listed conns.old listed) }
    ensures err { OnErr result (conns.new ≡ conns.old) }
{
    let Some(listed) = listed else {
        return Ok(());
    };
    conns.add(listed.conn)
}

/// The new channel is listed no more. Takes no memory.
pub(crate) fn unlist(conns: &mut ConnTable, listed: Option<Listed>)
    ensures { (before : Table) → words.IsUnlisted before listed → conns.old ≡ words.with_listed before listed
        → conns.new ≡ before }
{
    let Some(listed) = listed else {
        return;
    };
    conns.drop_end(listed.conn.id, 0);
    conns.drop_end(listed.conn.id, 1);
}

/// The process has made the channel, and its socket is connected. Takes no memory.
pub(crate) fn settle(conns: &mut ConnTable, p: VPid, listed: Option<Listed>)
    requires { (maker : Maker) → map.get conns.old.makers p ≡ Some maker → maker.made + 1 < 2 ^ 32 }
    ensures { conns.new ≡ words.settled conns.old p listed }
{
    count_made(conns, p, 1);
    let Some(listed) = listed else {
        return;
    };
    conns.drop_name(listed.desc);
}
