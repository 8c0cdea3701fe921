//! A process that was started becomes that of the kernel part.
ghost use Rattle.std.specs.Prelude.{◌≡◌, Some, IfOk};
ghost use Rattle.std.specs.FinMap as map;
ghost use Rattle.sys_abi.specs.declared.life.Life.TheVariants.{Live, Zombie};
ghost use Rattle.plain_machine.specs.Kernels.{IsKernel};
ghost use Rattle.plain_tables.specs.Ends.{child_process};
ghost use Rattle.rebuild_processes.specs.Making.{IsAt, GaveOut, HasLeft};

use crate::beginning::parent_of;
use crate::ending::leave_zombie;
use crate::numbered::Numbered;
use crate::signals::raise_set;
use crate::threads::add_threads;
use host_tables::Hosts;
use plain_machine::PlainKernel;
use plain_tables::process::Process;
use std::alloc::AllocError;
use sys_abi::{Life, RealPid, VPid};

/// A process that was started gets its threads and signals, or ends.
pub(crate) fn fill(
    m: &mut Numbered,
    kernel: &PlainKernel,
    hosts: &Hosts,
    p: VPid,
    r: RealPid,
    process: &Process,
) -> Result<(), AllocError>
    requires whole { IsKernel kernel.now }
    requires process { map.get kernel.now.processes p ≡ Some process.now }
    requires begun { IsAt hosts.now kernel.now p r (child_process process.now.parent p.0) m.old }
    requires left { HasLeft 64 m.old.procs.next }
    ensures made { IfOk result (λ _. IsAt hosts.now kernel.now p r process.now m.new) }
    ensures numbers { IfOk result (λ _. GaveOut 64 m.old.procs.next m.new.procs.next) }
{
    match process.life {
        Life::Live => fill_live(m, kernel, hosts, p, r, process),
        Life::Zombie(status) => {
            fill_zombie(m, kernel, hosts, p, r, process, status);
            Ok(())
        }
    }
}

/// The threads of a process that lives, and the signals of itself.
fn fill_live(
    m: &mut Numbered,
    kernel: &PlainKernel,
    hosts: &Hosts,
    p: VPid,
    r: RealPid,
    process: &Process,
) -> Result<(), AllocError>
    requires whole { IsKernel kernel.now }
    requires process { map.get kernel.now.processes p ≡ Some process.now }
    requires live { process.now.life ≡ Live }
    requires begun { IsAt hosts.now kernel.now p r (child_process process.now.parent p.0) m.old }
    requires left { HasLeft 64 m.old.procs.next }
    ensures made { IfOk result (λ _. IsAt hosts.now kernel.now p r process.now m.new) }
    ensures numbers { IfOk result (λ _. GaveOut 64 m.old.procs.next m.new.procs.next) }
{
    add_threads(m, kernel, hosts, p, r, process)?;
    raise_set(&mut m.procs, r, None, process.pending);
    Ok(())
}

/// The end of a process that was not waited for. Its parent is there.
fn fill_zombie(
    m: &mut Numbered,
    kernel: &PlainKernel,
    hosts: &Hosts,
    p: VPid,
    r: RealPid,
    process: &Process,
    status: u32,
)
    requires whole { IsKernel kernel.now }
    requires process { map.get kernel.now.processes p ≡ Some process.now }
    requires dead { process.now.life ≡ Zombie status }
    requires begun { IsAt hosts.now kernel.now p r (child_process process.now.parent p.0) m.old }
    ensures made { IsAt hosts.now kernel.now p r process.now m.new }
    ensures numbers { m.new.procs.next ≡ m.old.procs.next }
{
    let Some(parent) = parent_of(&m.ids, process.parent) else {
        unreachable!()
    };
    leave_zombie(&mut m.procs, r, parent, status);
}
