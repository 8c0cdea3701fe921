//! Bytes arrive at the end that receives them.
ghost use Rattle.std.specs.Prelude.{◌≡◌, ◌<◌, min};
ghost use Rattle.std.specs.FinMap as map;
ghost use Rattle.plain_machine.specs.declared.kernel.PlainKernel.{PlainKernel};
ghost use Rattle.wrap_passing.specs.OfWrapNames.Changes.{missing_in, after_arrival};
ghost use Rattle.wrap_passing.specs.OfWrapNames.Wrapping.{IsWrapped};

use host_tables::System;
use sys_abi::Dir;
use wire_net::Place;

/// Has so many bytes of the direction arrive, at most those that are on the way, and tells how many. Takes no
/// memory.
pub fn arrive(system: &mut System, dir: Dir, n: u32) -> u32
    requires { dir.side < 2 }
    ensures count { (k : PlainKernel) (next_id : _) → IsWrapped system.old next_id k
        → result ≡ min n (missing_in (map.get k.directions dir)) }
    ensures arrived { (k : PlainKernel) (next_id : _) → IsWrapped system.old next_id k
        → IsWrapped system.new next_id (after_arrival k dir n) }
{
    let _ = system.kernel.net.move_bytes(dir, Place::Send, n);
    system.kernel.net.move_bytes(dir, Place::Wire, n)
}
