//! All directions of channels, and how many bytes stand in them.
ghost use Rattle.std.specs.Prelude.{◌≡◌, ◌<◌, map as each, All, IfOk, OnOk};
ghost use Rattle.leader_vote.specs.Directions as words;

use conn_table::ConnTable;
use std::alloc::{AllocError, Global};
use sys_abi::{ConnId, Dir};
use wire_net::Net;

/// Both directions of each channel.
pub fn list_dirs(alloc: Global, conns: &ConnTable) -> Result<Vec<Dir>, AllocError>
    ensures { IfOk result (λ dirs. words.AreDirs conns.now.conns dirs.items) }
{
    let mut dirs = Vec::new(alloc);
    let mut above = None;
    while let Some(conn) = conns.next_conn(above) {
        push_both(&mut dirs, conn)?;
        above = Some(conn);
    }
    Ok(dirs)
}

/// Puts both directions of the channel at the end.
fn push_both(dirs: &mut Vec<Dir>, conn: ConnId) -> Result<(), AllocError>
    ensures ok { OnOk result (dirs.new.items ≡ words.with_both dirs.old.items conn) }
{
    dirs.push(Dir { conn, side: 0 })?;
    dirs.push(Dir { conn, side: 1 })?;
    Ok(())
}

/// How many bytes stand in each direction.
pub fn list_standing(alloc: Global, net: &Net, dirs: &[Dir]) -> Result<Vec<(Dir, u32)>, AllocError>
    requires { All (λ d. d.side < 2) dirs.now }
    ensures { IfOk result (λ list. list.items ≡ each (words.standing_of net.now.channels) dirs.now) }
{
    let mut list = Vec::with_capacity(alloc, dirs.len())?;
    for d in dirs {
        list.push((*d, standing_in(net, *d)))?;
    }
    Ok(list)
}

/// How many bytes of each direction its receiver can't read yet.
pub fn list_missing(alloc: Global, net: &Net, dirs: &[Dir]) -> Result<Vec<(Dir, u32)>, AllocError>
    requires { All (λ d. d.side < 2) dirs.now }
    ensures { IfOk result (λ list. list.items ≡ each (words.missing_of net.now.channels) dirs.now) }
{
    let mut list = Vec::with_capacity(alloc, dirs.len())?;
    for d in dirs {
        list.push((*d, missing_in(net, *d)))?;
    }
    Ok(list)
}

fn standing_in(net: &Net, d: Dir) -> u32
    requires { d.side < 2 }
    ensures { result ≡ words.standing_in net.now.channels d }
{
    let [sent, wire, received] = net.counts(d);
    sent + wire + received
}

fn missing_in(net: &Net, d: Dir) -> u32
    requires { d.side < 2 }
    ensures { result ≡ words.missing_in net.now.channels d }
{
    let [sent, wire, _received] = net.counts(d);
    sent + wire
}
