ghost use Rattle.std.specs.Prelude.{◌≡◌, option_map};
ghost use Rattle.plain_machine.specs.Tests.{unsupported};
ghost use Rattle.staged_cut.specs.HandedOn.{plain_of};
ghost use Rattle.checkpointer.specs.Marks.{unsupported_at};

use staged_cut::{Computation, first_unsupported as supports};
use sys_abi::{Fd, Kind, VPid};

/// A descriptor of a process that refers to what no image holds.
#[derive(Clone, Copy)]
pub struct Unsupported {
    pub p: VPid,
    pub fd: Fd,
    pub kind: Kind,
}

/// The one of the lowest process and descriptor, if there is one. It looks at no bytes that are held.
pub fn first_unsupported(computation: &Computation) -> Option<Unsupported>
    ensures { option_map unsupported_at result ≡ unsupported (plain_of computation.now) }
{
    let (p, fd, kind) = supports::first_unsupported(computation.kernel.system())?;
    Some(Unsupported { p, fd, kind })
}
