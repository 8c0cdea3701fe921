ghost use Rattle.std.specs.Prelude.{◌≡◌};
ghost use Rattle.guest_proc.specs.Running.{ran_told};

use call_table::{Request, request_of};
use guest_start::Stop;
use plain_process::Regs;
use sys_abi::Signal;

/// Where a thread stands after it ran.
#[derive(Clone, Copy)]
pub enum Ran {
    /// It ran as many instructions as it was given.
    Whole,
    /// It stands at a call.
    Asks(Request),
    /// Its next instruction traps with this signal.
    Trapped(Signal),
    /// It waits on a word.
    Waits,
    /// Memory was wanted. Nothing wants memory while it runs yet.
    Memory,
}

/// What a stop of a thread with these registers tells.
pub(crate) fn ran_of(stop: Stop, regs: &Regs) -> Ran
    ensures { result ≡ ran_told stop regs.now }
{
    match stop {
        Stop::Quantum => Ran::Whole,
        Stop::Call => Ran::Asks(request_of(&regs.x)),
        Stop::Trap(signal) => Ran::Trapped(signal),
    }
}
