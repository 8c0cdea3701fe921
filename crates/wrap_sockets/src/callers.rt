//! The process that calls.
ghost use Rattle.std.specs.Prelude.{◌≡◌, Some};
ghost use Rattle.std.specs.FinMap as map;
ghost use Rattle.plain_machine.specs.RowLaws.{IsAsked};
ghost use Rattle.wrap_names.specs.Wrapping.{IsWrapped};

use call_table::Request;
use host_tables::System;
use sys_abi::transfer::Transfer;
use sys_abi::{RealPid, Tid, VPid};
use wrap_names::numbers::caller_of;
use wrap_names::stood::Stood;

/// The real number of the process that calls.
pub(crate) fn real_caller(
    system: &System,
    stood: &Stood,
    next_id: u32,
    p: VPid,
    t: Tid,
    request: &Request,
    transfer: &Transfer,
) -> RealPid
    requires wrapped { IsWrapped system.now next_id stood.now.kernel }
    requires asked { IsAsked stood.now.kernel p t.0 request.now transfer.now }
    ensures { map.get system.now.ids.pids p.0 ≡ Some result }
{
    let _ = stood;
    let _ = next_id;
    let _ = request;
    let _ = transfer;
    let Some(caller) = caller_of(&system.ids, p, t) else {
        unreachable!();
    };
    caller.who
}
