//! The zombies of a process that ends go with it, since nobody will wait for them.
ghost use Rattle.std.specs.Prelude.{◌≡◌, ℕ, true, Some};
ghost use Rattle.std.specs.FinMap as map;
ghost use Rattle.sys_abi.specs.declared.identity.VPid.{VPid};
ghost use Rattle.plain_machine.specs.declared.kernel.PlainKernel.{PlainKernel};
ghost use Rattle.plain_machine.specs.Kernel.{is_live};
ghost use Rattle.wrap_names.specs.Wrapping.{IsWrapped};
ghost use Rattle.wrap_ends.specs.Ending.{EndsAs, IsAlone, Reaps};

use host_tables::System;
use sys_abi::{RealPid, VPid};

/// How many processes stand at most.
const PROCESS_LIMIT: u32 = 128;

/// The zombies of the process go, with their pairs and their makers.
pub(crate) fn reap_all(system: &mut System, who: RealPid)
    ensures { (k : PlainKernel) (next_id : ℕ) (p : VPid) → IsWrapped system.old next_id k
        → map.get system.old.ids.pids p.0 ≡ Some who → is_live k p ≡ true
        → EndsAs system.new next_id k p who (λ kernel. IsAlone k kernel p) }
{
    for _ in 0..=PROCESS_LIMIT {
        if !reap_one(system, who) {
            return;
        }
    }
}

/// The least zombie of the process goes. Answers whether there is one.
fn reap_one(system: &mut System, who: RealPid) -> bool
    ensures { (k : PlainKernel) (next_id : ℕ) (p : VPid) → IsWrapped system.old next_id k
        → map.get system.old.ids.pids p.0 ≡ Some who → is_live k p ≡ true
        → Reaps system.new next_id k p who result }
{
    let Ok((zombie, _)) = system.kernel.procs.wait(who, None) else {
        return false;
    };
    let Ok(number) = system.ids.virt_pid(zombie) else {
        return true;
    };
    system.conns.drop_maker(VPid(number));
    system.ids.drop_pid(number);
    true
}
