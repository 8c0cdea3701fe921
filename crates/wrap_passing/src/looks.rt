//! What a system tells of the kernel part for which it stands.
ghost use Rattle.std.specs.Prelude.{◌≡◌};
ghost use Rattle.plain_machine.specs.declared.kernel.PlainKernel.{PlainKernel};
ghost use Rattle.plain_machine.specs.Kernel as plain;
ghost use Rattle.wrap_names.specs.Wrapping.{IsWrapped};

use host_tables::System;
use sys_abi::{Tid, VPid};
use wrap_names::numbers::real_thread;

/// Whether a process lives.
pub fn lives(system: &System, p: VPid) -> bool
    ensures { (k : PlainKernel) (next_id : _) → IsWrapped system.now next_id k → result ≡ plain.is_live k p }
{
    let Ok(who) = system.ids.real_pid(p.0) else {
        return false;
    };
    system.kernel.procs.is_live(who)
}

/// The signals that are pending for the thread or its process.
pub fn signals(system: &System, p: VPid, t: Tid) -> u32
    ensures { (k : PlainKernel) (next_id : _) → IsWrapped system.now next_id k
        → result ≡ plain.pending k p t.0 }
{
    let Ok(who) = system.ids.real_pid(p.0) else {
        return 0;
    };
    let Some(thread) = real_thread(&system.ids, who.node, t.0) else {
        return system.kernel.procs.pending_of(who, None);
    };
    system.kernel.procs.pending(who, thread)
}
