//! All processes of a kernel part.
ghost use Rattle.std.specs.Prelude.{◌≡◌, ◌+◌, Some, IfOk};
ghost use Rattle.std.specs.FinMap as map;
ghost use Rattle.plain_machine.specs.Kernel as kernels;
ghost use Rattle.plain_machine.specs.Kernels.{IsKernel};
ghost use Rattle.plain_tables.specs.Ends.{child_process};
ghost use Rattle.rebuild_tables.specs.Hosts.{IsHosts};
ghost use Rattle.rebuild_processes.specs.Making.{IsMade, IsUpTo, IsAt, GaveOut, HasLeft};

use crate::beginning::begin;
use crate::filling::fill;
use crate::numbered::Numbered;
use host_tables::Hosts;
use plain_machine::PlainKernel;
use plain_tables::process::Process;
use proc_book::Procs;
use rebuild_tables::hosts::node_at;
use std::alloc::{AllocError, Global};
use sys_abi::{RealPid, VPid};
use virt_ids::Ids;

/// The host of a process.
#[tactic(auto, unfolding(plain_machine::specs::Kernel::host_of))]
fn host_of(kernel: &PlainKernel, p: VPid) -> u32
    ensures { result ≡ kernels.host_of kernel.now p }
{
    match kernel.makers.get(p) {
        None => 0,
        Some(maker) => maker.host,
    }
}

/// Starts a process under the next number of its host's node.
fn start(
    m: &mut Numbered,
    kernel: &PlainKernel,
    hosts: &Hosts,
    p: VPid,
    process: &Process,
) -> Result<RealPid, AllocError>
    requires whole { IsKernel kernel.now }
    requires hosts { IsHosts hosts.now }
    requires process { map.get kernel.now.processes p ≡ Some process.now }
    requires before { IsUpTo hosts.now kernel.now p.0 m.old }
    requires left { HasLeft 1 m.old.procs.next }
    ensures begun { IfOk result (λ r. IsAt hosts.now kernel.now p r
        (child_process process.now.parent p.0) m.new) }
    ensures numbers { IfOk result (λ _. GaveOut 1 m.old.procs.next m.new.procs.next) }
{
    let node = node_at(hosts, host_of(kernel, p));
    begin(m, node, p, process.parent)
}

/// One process more: those below its number are there.
fn add_process(
    m: &mut Numbered,
    kernel: &PlainKernel,
    hosts: &Hosts,
    p: VPid,
    process: &Process,
) -> Result<(), AllocError>
    requires whole { IsKernel kernel.now }
    requires hosts { IsHosts hosts.now }
    requires process { map.get kernel.now.processes p ≡ Some process.now }
    requires before { IsUpTo hosts.now kernel.now p.0 m.old }
    requires left { HasLeft 65 m.old.procs.next }
    ensures made { IfOk result (λ _. IsUpTo hosts.now kernel.now (p.0 + 1) m.new) }
    ensures numbers { IfOk result (λ _. GaveOut 65 m.old.procs.next m.new.procs.next) }
{
    let r = start(m, kernel, hosts, p, process)?;
    fill(m, kernel, hosts, p, r, process)
}

/// Makes the processes of a kernel part again, each on the node of its host under the next number of it, and
/// pairs their numbers and those of their threads.
///
/// # Errors
/// Memory was wanted. A table that is full, or a number that is paired already, would be told so too.
pub fn rebuild_processes(
    alloc: Global,
    kernel: &PlainKernel,
    hosts: &Hosts,
) -> Result<Numbered, AllocError>
    requires whole { IsKernel kernel.now }
    requires hosts { IsHosts hosts.now }
    ensures { IfOk result (λ m. IsMade hosts.now kernel.now m) }
{
    let mut m = Numbered {
        procs: Procs::new(alloc, hosts.nodes, hosts.pid_base)?,
        ids: Ids::new(alloc),
    };
    for (p, process) in kernel.processes.iter() {
        add_process(&mut m, kernel, hosts, *p, process)?;
    }
    Ok(m)
}
