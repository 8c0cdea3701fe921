//! The whole system of a kernel part.
ghost use Rattle.std.specs.Prelude.{◌≡◌, IfOk, OnOk};
ghost use Rattle.std.specs.FinMap as map;
ghost use Rattle.plain_machine.specs.Kernels.{IsKernel};
ghost use Rattle.host_tables.specs.Stands.{SameFiles};
ghost use Rattle.wrap_names.specs.Wrapping.{IsWrapped};
ghost use Rattle.rebuild_tables.specs.Hosts.{IsHosts};
ghost use Rattle.rebuild_tables.specs.ConnTables.{IsTableOf};
ghost use Rattle.rebuild_system.specs.Nets.{IsNet, ArePublished};
ghost use Rattle.rebuild_tables.specs.Rebuilt.{HasNoDatagrams, IsBook};
ghost use Rattle.rebuild_system.specs.Restarts.{AllArrived, HandedOut, ArePairedFor};

use crate::channels::rebuild_channels;
use conn_table::{ConnTable, DatagramPairs};
use discovery::Directory;
use fd_book::Book;
use host_tables::{Hosts, Kernel, System};
use plain_machine::PlainKernel;
use rebuild_processes::rebuilding::rebuild_processes;
use rebuild_tables::conns::rebuild_conns;
use rebuild_tables::files::rebuild_files;
use rebuild_tables::hosts::nodes_of;
use rebuild_tables::rebuild_book;
use std::alloc::{AllocError, Global};
use vfs_files::Files;
use virt_ids::Ids;
use wire_net::Net;

/// The network, and the descriptors over it, by the pairs of all processes' numbers.
fn connect(
    alloc: Global,
    kernel: &PlainKernel,
    hosts: &Hosts,
    ids: &mut Ids,
    directory: &mut Directory,
) -> Result<(Net, Book), AllocError>
    requires whole { IsKernel kernel.now }
    requires plain { HasNoDatagrams kernel.now.descriptions }
    requires hosts { IsHosts hosts.now }
    requires numbered { ArePairedFor kernel.now.processes ids.old }
    requires none { directory.old ≡ map.empty }
    ensures net { IfOk result (λ made. IsNet hosts.now kernel.now ids.new made.0) }
    ensures book { IfOk result (λ made. IsBook kernel.now ids.new made.1) }
    ensures numbers { (ids.new.pids ≡ ids.old.pids) × (ids.new.virts ≡ ids.old.virts) }
    ensures published { OnOk result (ArePublished hosts.now kernel.now directory.new) }
{
    let net = rebuild_channels(alloc, kernel, hosts, ids, directory)?;
    let book = rebuild_book(alloc, kernel, ids)?;
    Ok((net, book))
}

/// The files, and the table of channels and sockets.
fn list(alloc: Global, kernel: &PlainKernel) -> Result<(Files, ConnTable), AllocError>
    requires { IsKernel kernel.now }
    ensures files { IfOk result (λ made.
        SameFiles made.0 kernel.now.names kernel.now.files kernel.now.next_file) }
    ensures conns { IfOk result (λ made. IsTableOf kernel.now made.1) }
{
    let files = rebuild_files(alloc, kernel)?;
    let conns = rebuild_conns(alloc, kernel)?;
    Ok((files, conns))
}

/// All tables but those of the processes and of their numbers' pairs, by these pairs.
fn make_tables(
    alloc: Global,
    kernel: &PlainKernel,
    hosts: &Hosts,
    ids: &mut Ids,
    directory: &mut Directory,
) -> Result<((Net, Book), (Files, ConnTable)), AllocError>
    requires whole { IsKernel kernel.now }
    requires plain { HasNoDatagrams kernel.now.descriptions }
    requires hosts { IsHosts hosts.now }
    requires numbered { ArePairedFor kernel.now.processes ids.old }
    requires none { directory.old ≡ map.empty }
    ensures net { IfOk result (λ made. IsNet hosts.now kernel.now ids.new made.0.0) }
    ensures book { IfOk result (λ made. IsBook kernel.now ids.new made.0.1) }
    ensures files { IfOk result (λ made.
        SameFiles made.1.0 kernel.now.names kernel.now.files kernel.now.next_file) }
    ensures conns { IfOk result (λ made. IsTableOf kernel.now made.1.1) }
    ensures numbers { (ids.new.pids ≡ ids.old.pids) × (ids.new.virts ≡ ids.old.virts) }
    ensures published { OnOk result (ArePublished hosts.now kernel.now directory.new) }
{
    let connected = connect(alloc, kernel, hosts, ids, directory)?;
    let listed = list(alloc, kernel)?;
    Ok((connected, listed))
}

/// Makes a system on these hosts that stands for the kernel part: files are opened again, sockets connected,
/// processes forked, their descriptors rearranged, and the channels' bytes put back.
///
/// # Errors
/// Memory was wanted, or the nodes have no port left.
pub fn rebuild(
    alloc: Global,
    kernel: &PlainKernel,
    hosts: &Hosts,
    directory: &mut Directory,
) -> Result<System, AllocError>
    requires whole { IsKernel kernel.now }
    requires arrived { AllArrived kernel.now.directions }
    requires plain { HasNoDatagrams kernel.now.descriptions }
    requires hosts { IsHosts hosts.now }
    requires none { directory.old ≡ map.empty }
    ensures stands { IfOk result (λ s. IsWrapped s kernel.now.next_id kernel.now) }
    ensures handed_out { IfOk result (λ s. HandedOut hosts.now kernel.now s) }
    ensures published { OnOk result (ArePublished hosts.now kernel.now directory.new) }
{
    let mut numbered = rebuild_processes(alloc, kernel, hosts)?;
    let ((net, book), (files, conns)) = make_tables(
        alloc,
        kernel,
        hosts,
        &mut numbered.ids,
        directory,
    )?;
    Ok(System {
        kernel: Kernel {
            files,
            book,
            net,
            procs: numbered.procs,
            datagrams: DatagramPairs::new(alloc),
            nodes: nodes_of(hosts),
        },
        ids: numbered.ids,
        conns,
    })
}
