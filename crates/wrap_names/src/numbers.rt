//! Look-ups in the pairs of virtual and real numbers.
ghost use Rattle.std.specs.Prelude.{◌≡◌};
ghost use Rattle.host_streams.specs.OfHostTables.Numbers.{to_real_thread};
ghost use Rattle.wrap_names.specs.Naming.{caller_in};

use sys_abi::{RealPid, Tid, VPid};
use virt_ids::Ids;

/// The real process and thread that call.
#[derive(Clone, Copy)]
pub struct Caller {
    pub who: RealPid,
    pub thread: u32,
}

/// The real process and thread that stand for a guest's. The first thread of a process has its number.
pub fn caller_of(ids: &Ids, p: VPid, t: Tid) -> Option<Caller>
    ensures { result ≡ caller_in ids.now.pids p t.0 }
{
    let Ok(who) = ids.real_pid(p.0) else {
        return None;
    };
    if t.0 == p.0 {
        return Some(Caller {
            who,
            thread: who.pid,
        });
    }
    let Some(thread) = real_thread(ids, who.node, t.0) else {
        return None;
    };
    Some(Caller { who, thread })
}

/// The real number of a thread on a node, if it has one there.
pub fn real_thread(ids: &Ids, node: u32, thread: u32) -> Option<u32>
    ensures { result ≡ to_real_thread ids.now.pids node thread }
{
    let Ok(real) = ids.real_pid(thread) else {
        return None;
    };
    if real.node != node {
        return None;
    }
    Some(real.pid)
}
