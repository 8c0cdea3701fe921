//! The channels with their ends.
ghost use Rattle.std.specs.Prelude.{◌≡◌, IfOk, OnOk};
ghost use Rattle.host_tables.specs.Network as network;
ghost use Rattle.seen_kernel.specs.Channels as words;

use conn_table::{Conn, ConnTable};
use id_maps::ByConn;
use plain_tables::{Channel, ChannelEnd, ChannelKind};
use std::alloc::{AllocError, Global};
use sys_abi::ConnId;

/// Each channel of the table. The ends that are open there are those of the network's channels.
pub fn seen_channels(alloc: Global, conns: &ConnTable) -> Result<ByConn<Channel>, AllocError>
    ensures { IfOk result (words.AreChannels conns.now.conns) }
{
    let mut seen = ByConn::new(alloc);
    let mut above = None;
    while let Some(id) = conns.next_conn(above) {
        add_channel(&mut seen, conns, id)?;
        above = Some(id);
    }
    Ok(seen)
}

/// Adds the channel, if it is there.
fn add_channel(seen: &mut ByConn<Channel>, conns: &ConnTable, id: ConnId) -> Result<(), AllocError>
    ensures ok { OnOk result (seen.new ≡ words.with_channel conns.now.conns seen.old id) }
{
    let Some(conn) = conns.get(id) else {
        return Ok(());
    };
    seen.insert(id, channel_of(*conn))?;
    Ok(())
}

fn channel_of(conn: Conn) -> Channel
    ensures { result ≡ words.channel_of conn }
{
    Channel {
        kind: kind_of(conn.kind),
        first: ChannelEnd {
            address: conn.addr[0],
            is_open: conn.open_ends[0],
        },
        second: ChannelEnd {
            address: conn.addr[1],
            is_open: conn.open_ends[1],
        },
    }
}

fn kind_of(kind: u8) -> ChannelKind
    ensures { result ≡ network.kind_of kind }
{
    match kind {
        0 => ChannelKind::Pair,
        1 => ChannelKind::Internet,
        _ => ChannelKind::Pipe,
    }
}
