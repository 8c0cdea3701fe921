//! The threads of a process made again, with their pending signals.
ghost use Rattle.std.specs.Prelude.{◌≡◌, ◌+◌, Some, IfOk};
ghost use Rattle.std.specs.FinMap as map;
ghost use Rattle.sys_abi.specs.declared.life.Life.TheVariants.{Live};
ghost use Rattle.plain_tables.specs.Ends.{child_process};
ghost use Rattle.plain_machine.specs.Kernels.{IsKernel};
ghost use Rattle.rebuild_processes.specs.Making.{IsAt, IsThreaded, GaveOut, HasLeft};

use crate::beginning::begin_thread;
use crate::numbered::Numbered;
use crate::signals::raise_set;
use host_tables::Hosts;
use plain_machine::PlainKernel;
use plain_tables::process::Process;
use std::alloc::AllocError;
use sys_abi::{RealPid, VPid};

/// The thread of the process's own number gets its signals, or ends where the process has none of it.
fn own_thread(
    m: &mut Numbered,
    kernel: &PlainKernel,
    hosts: &Hosts,
    p: VPid,
    r: RealPid,
    process: &Process,
)
    requires whole { IsKernel kernel.now }
    requires process { map.get kernel.now.processes p ≡ Some process.now }
    requires live { process.now.life ≡ Live }
    requires begun { IsAt hosts.now kernel.now p r (child_process process.now.parent p.0) m.old }
    ensures made { IsThreaded hosts.now kernel.now p r process.now 0 m.new }
    ensures numbers { m.new.procs.next ≡ m.old.procs.next }
{
    match process.threads.get(p.0) {
        None => m.procs.end_thread(r, r.pid),
        Some(set) => raise_set(&mut m.procs, r, Some(r.pid), *set),
    }
}

/// A thread of another number, with its signals.
fn add_thread(
    m: &mut Numbered,
    kernel: &PlainKernel,
    hosts: &Hosts,
    p: VPid,
    r: RealPid,
    process: &Process,
    t: u32,
    set: u32,
) -> Result<(), AllocError>
    requires whole { IsKernel kernel.now }
    requires process { map.get kernel.now.processes p ≡ Some process.now }
    requires thread { map.get process.now.threads t ≡ Some set }
    requires made { IsThreaded hosts.now kernel.now p r process.now t m.old }
    requires left { HasLeft 1 m.old.procs.next }
    ensures made { IfOk result (λ _. IsThreaded hosts.now kernel.now p r process.now (t + 1) m.new) }
    ensures numbers { IfOk result (λ _. GaveOut 1 m.old.procs.next m.new.procs.next) }
{
    if t == p.0 {
        return Ok(());
    }
    let number = begin_thread(m, r, t)?;
    raise_set(&mut m.procs, r, Some(number), set);
    Ok(())
}

/// The threads of a process that lives.
pub(crate) fn add_threads(
    m: &mut Numbered,
    kernel: &PlainKernel,
    hosts: &Hosts,
    p: VPid,
    r: RealPid,
    process: &Process,
) -> Result<(), AllocError>
    requires whole { IsKernel kernel.now }
    requires process { map.get kernel.now.processes p ≡ Some process.now }
    requires live { process.now.life ≡ Live }
    requires begun { IsAt hosts.now kernel.now p r (child_process process.now.parent p.0) m.old }
    requires left { HasLeft 64 m.old.procs.next }
    ensures made { IfOk result (λ _. IsAt hosts.now kernel.now p r
        (record process.now { pending = 0 }) m.new) }
    ensures numbers { IfOk result (λ _. GaveOut 64 m.old.procs.next m.new.procs.next) }
{
    own_thread(m, kernel, hosts, p, r, process);
    for (t, set) in process.threads.iter() {
        add_thread(m, kernel, hosts, p, r, process, *t, *set)?;
    }
    Ok(())
}
