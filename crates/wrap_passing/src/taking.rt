//! A signal that is taken away from a thread or its process.
ghost use Rattle.std.specs.Prelude.{◌≡◌, true};
ghost use Rattle.plain_machine.specs.Kernel.{after_take, has_thread, is_live};
ghost use Rattle.wrap_names.specs.Wrapping.{IsWrapped};

use host_tables::System;
use sys_abi::{Signal, Tid, VPid};
use wrap_names::numbers::caller_of;
use wrap_names::stood::Stood;

/// Takes a pending signal away, of the thread if it has it and else of its process.
pub fn take_signal(
    system: &mut System,
    stood: &Stood,
    next_id: u32,
    p: VPid,
    t: Tid,
    signal: Signal,
)
    requires wrapped { IsWrapped system.old next_id stood.now.kernel }
    requires alive { is_live stood.now.kernel p ≡ true }
    requires thread { has_thread stood.now.kernel p t.0 ≡ true }
    ensures { IsWrapped system.new next_id (after_take stood.now.kernel p t.0 signal.0) }
{
    let _ = stood;
    let _ = next_id;
    let Some(caller) = caller_of(&system.ids, p, t) else {
        unreachable!();
    };
    system.kernel.procs.take(caller.who, caller.thread, signal);
}
