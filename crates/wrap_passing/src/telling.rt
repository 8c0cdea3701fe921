//! What a guest is told of a real answer.
ghost use Rattle.std.specs.Prelude.{◌≡◌};
ghost use Rattle.plain_process.specs.Commands.{fcntl_command};
ghost use Rattle.wrap_passing.specs.Telling as words;

use host_tables::{KernelReply, RealRequest};
use plain_process::commands::FcntlCommand;
use sys_abi::RealPid;
use virt_ids::Ids;

/// The parent of a process that nobody waits for.
const NOBODY: u32 = 1;

/// The answer with the guest's numbers.
pub fn told_reply(ids: &Ids, who: RealPid, req: &RealRequest, reply: KernelReply) -> KernelReply
    ensures { result ≡ words.told_reply ids.now.virts who req.now reply }
{
    match reply {
        KernelReply::Done(value) => KernelReply::Done(told_value(ids, who, req, value)),
        other => other,
    }
}

/// A value with the guest's numbers.
#[tactic(auto, unfolding(crate::specs::Telling::told_value))]
fn told_value(ids: &Ids, who: RealPid, req: &RealRequest, value: u32) -> u32
    ensures { result ≡ words.told_value ids.now.virts who req.now value }
{
    match *req {
        RealRequest::Getpid => virt_number(ids, who.node, value),
        RealRequest::Getppid => number_unless(NOBODY, ids, who.node, value),
        RealRequest::Wait4 { .. } => number_unless(0, ids, who.node, value),
        RealRequest::Fcntl { command, .. } => told_owner(ids, who.node, command, value),
        _ => value,
    }
}

/// The virtual number of a real one, and this one where there is none.
fn number_unless(none: u32, ids: &Ids, node: u32, value: u32) -> u32
    ensures { result ≡ words.number_unless none ids.now.virts node value }
{
    if value == 0 {
        return none;
    }
    virt_number(ids, node, value)
}

/// The value of a command, which for F_GETOWN is a number.
fn told_owner(ids: &Ids, node: u32, command: u32, value: u32) -> u32
    ensures { result ≡ words.told_owner ids.now.virts node (fcntl_command command) value }
{
    match FcntlCommand::of(command) {
        Some(FcntlCommand::GetOwn) => number_unless(0, ids, node, value),
        _ => value,
    }
}

/// The virtual number of a real one of a node.
fn virt_number(ids: &Ids, node: u32, number: u32) -> u32
    ensures { result ≡ words.virt_number ids.now.virts node number }
{
    match ids.virt_pid(RealPid { node, pid: number }) {
        Ok(v) => v,
        Err(_) => 0,
    }
}
