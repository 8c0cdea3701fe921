//! A child or a thread more, whose number is the next virtual one.
ghost use Rattle.std.specs.Prelude.{◌≡◌, ◌-◌, ◌^◌, ◌<◌, true, List, Some};
ghost use Rattle.std.specs.FinMap as map;
ghost use Rattle.views.specs.Numbers.{Byte};
ghost use Rattle.sys_abi.specs.Clones.{clone_form};
ghost use Rattle.plain_machine.specs.Kernel.{is_live};
ghost use Rattle.plain_machine.specs.Rows.Clone.{clone_row};
ghost use Rattle.host_tables.specs.Serves.{silent};
ghost use Rattle.wrap_names.specs.Wrapping.{IsWrapped, StandsAfter};
ghost use Rattle.wrap_makers.specs.Cloning as words;

use crate::pairing::{add_number, drop_number, maker_in};
use host_tables::{Attempt, KernelReply, RowResult, System};
use sys_abi::{CloneForm, RealPid, VPid};
use wrap_names::counting::is_done;
use wrap_names::stood::Stood;

/// Starts a child of the caller, or a thread of it, with this number. The bytes that the call gives aren't
/// told yet.
pub(crate) fn start(
    system: &mut System,
    stood: &Stood,
    number: u32,
    p: VPid,
    who: RealPid,
    form: CloneForm,
    flags: u32,
) -> KernelReply
    requires wrapped { IsWrapped system.old number stood.now.kernel }
    requires alive { is_live stood.now.kernel p ≡ true }
    requires paired { map.get system.old.ids.pids p.0 ≡ Some who }
    requires form { clone_form flags ≡ Some form }
    requires left { number < 2 ^ 31 - 1 }
    ensures { (bytes : List Byte) → StandsAfter system.new (words.next_after number result) stood.now.kernel
        bytes bytes result (silent (clone_row stood.now.kernel p flags)) }
{
    let _ = stood;
    let child = RealPid {
        node: who.node,
        pid: system.kernel.procs.next_real(who.node),
    };
    let maker = maker_in(&system.conns, p, form);
    let Ok(_) = add_number(&mut system.ids, &mut system.conns, number, child, maker) else {
        return KernelReply::Memory;
    };
    let reply = told_as(number, wrap_names::clone(&mut system.kernel, who, flags));
    if is_done(reply) {
        return reply;
    }
    drop_number(&mut system.ids, &mut system.conns, number);
    reply
}

/// The kernel's answer with the guest's number.
fn told_as(number: u32, answered: RowResult) -> KernelReply
    ensures { result ≡ words.told_as number answered }
{
    match answered {
        Ok(Attempt::Gives(_)) => KernelReply::Done(number),
        Ok(Attempt::Fails(error)) => KernelReply::Error(error),
        Ok(Attempt::NotReady) => KernelReply::NotReady,
        Err(_) => KernelReply::Memory,
    }
}
