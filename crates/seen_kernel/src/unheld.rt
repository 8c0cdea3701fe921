//! A system that no stage of a checkpoint holds, and all of whose bytes have arrived.
ghost use Rattle.std.specs.Prelude.{◌≡◌, ◌<◌, [], map as each, None, All, IfOk, OnOk};
ghost use Rattle.plain_machine.specs.declared.kernel.PlainKernel as plain;
ghost use Rattle.host_tables.specs.Systems.{StandsFor};
ghost use Rattle.seen_kernel.specs.Unheld as words;
ghost use Rattle.seen_kernel.specs.Descriptions.{HasNoDatagrams};

use crate::kernel::kernel_of;
use host_tables::System;
use leader_vote::directions::list_dirs;
use leader_vote::owners::keep_owners;
use plain_machine::PlainKernel;
use std::alloc::{AllocError, Global};
use sys_abi::{Dir, Transfer};
use views::list_of::ListOf;
use wire_net::{DirBytes, Net};

/// The kernel part for which the system stands. Its next number is given.
pub fn kernel_at(alloc: Global, system: &System, next_id: u32) -> Result<PlainKernel, AllocError>
    ensures { IfOk result (λ seen. (k : plain.PlainKernel) → StandsFor system.now None k
        → k.next_id ≡ next_id → words.AllArrived k.directions → HasNoDatagrams k.descriptions
        → seen ≡ k) }
{
    let owners = keep_owners(alloc, &system.kernel.book)?;
    let dirs = list_dirs(alloc, &system.conns)?;
    let lists = list_arrived(alloc, &system.kernel.net, dirs.as_slice())?;
    kernel_of(alloc, system, &owners, lists.as_slice(), next_id)
}

/// Lists the bytes of each direction that can be read.
fn list_arrived(alloc: Global, net: &Net, dirs: &[Dir]) -> Result<Vec<DirBytes>, AllocError>
    requires { All (λ d. d.side < 2) dirs.now }
    ensures { IfOk result (λ lists. lists.items ≡ each (words.arrived_in net.now.channels) dirs.now) }
{
    let mut transfer = Transfer::new(alloc)?;
    let mut lists = Vec::with_capacity(alloc, dirs.len())?;
    add_lists(&mut lists, alloc, net, dirs, &mut transfer)?;
    Ok(lists)
}

/// Adds the bytes of each direction to the lists, of which there are none yet.
fn add_lists(
    lists: &mut Vec<DirBytes>,
    alloc: Global,
    net: &Net,
    dirs: &[Dir],
    transfer: &mut Transfer,
) -> Result<(), AllocError>
    requires sides { All (λ d. d.side < 2) dirs.now }
    requires none { lists.old.items ≡ [] }
    ensures { OnOk result (lists.new.items ≡ each (words.arrived_in net.now.channels) dirs.now) }
{
    for d in dirs {
        lists.push(bytes_in(alloc, net, *d, transfer)?)?;
    }
    Ok(())
}

/// The bytes of the direction that can be read, and stay where they are.
fn bytes_in(
    alloc: Global,
    net: &Net,
    d: Dir,
    transfer: &mut Transfer,
) -> Result<DirBytes, AllocError>
    requires { d.side < 2 }
    ensures { IfOk result (λ list. list ≡ words.arrived_in net.now.channels d) }
{
    look(net, d, transfer);
    Ok(DirBytes {
        dir: d,
        bytes: ListOf::from_vec(Vec::from_slice(alloc, transfer.as_slice())?),
        in_place: true,
    })
}

/// Puts what can be read of the direction into the transfer: nothing, if its channel is not there.
fn look(net: &Net, d: Dir, transfer: &mut Transfer)
    requires { d.side < 2 }
    ensures { transfer.new ≡ words.received_in net.now.channels d }
{
    if !net.has(d.conn) {
        transfer.clear();
        return;
    }
    net.peek(d, transfer);
}
