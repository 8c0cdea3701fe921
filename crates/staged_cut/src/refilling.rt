//! From drained channels back to a system that runs.
ghost use Rattle.std.specs.Prelude.{◌≡◌};
ghost use Rattle.seen_kernel.specs.Seen.{all_in};

use crate::standing::{stood_after, wrap};
use ckpt_stages::{DrainedSet, PutOutcome, Refilled};
use run_start::Wrapped;

/// Has the agents give the bytes back, and resumes all processes: the system stands for the kernel part with
/// all bytes of all directions arrived. Takes no memory.
pub fn refill(drained: DrainedSet, outcome: PutOutcome) -> (Wrapped, PutOutcome)
    ensures { (result.0 ≡ all_in drained.kernel) × (result.1 ≡ outcome) }
{
    let mut filling = drained.written(outcome);
    filling.refill_all();
    run_again(filling.refilled())
}

/// Resumes all processes.
fn run_again(refilled: Refilled) -> (Wrapped, PutOutcome)
    ensures { (result.0 ≡ all_in refilled.kernel) × (result.1 ≡ refilled.outcome) }
{
    let stood = stood_after(&refilled);
    let number = refilled.next_id();
    let (system, _barrier, outcome) = refilled.resume();
    (wrap(system, number, &stood), outcome)
}
