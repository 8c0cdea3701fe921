//! Whether the machine has ended.
ghost use Rattle.std.specs.Prelude.{◌≡◌};
ghost use Rattle.plain_machine.specs.declared.kernel.PlainKernel.{PlainKernel};
ghost use Rattle.plain_machine.specs.Tests as plain;
ghost use Rattle.wrap_passing.specs.OfWrapNames.Wrapping.{IsWrapped};

use host_tables::System;

/// Whether some process lives. A zombie has a live parent, so that this is whether any process is there.
pub fn has_life(system: &System) -> bool
    ensures { (k : PlainKernel) (next_id : _) → IsWrapped system.now next_id k → result ≡ plain.has_life k }
{
    system.kernel.procs.next_process(None).is_some()
}
