ghost use Rattle.std.specs.Prelude.{◌≡◌, ℕ, Some, Err, IfOk};
ghost use Rattle.plain_replay.specs.Replays.{FirstRefused};
ghost use Rattle.plain_machine.specs.Runs.{run};
ghost use Rattle.plain_replay.specs.declared.replaying.ReplayFault.TheVariants.{Refused};

use crate::records::step;
use plain_machine::plain::Plain;
use std::alloc::{AllocError, Global};
use sys_abi::Record;
use thiserror::Error;
use views::duplicate::Duplicate;

/// Why a trace gives no state.
#[derive(Clone, Copy, Debug, PartialEq, Eq, Error)]
pub enum ReplayFault {
    /// The record of this number is the first that is no step, counted from 0.
    #[error("the record of number {0} is no step")]
    Refused(u64),
    /// There was not enough memory.
    #[error("out of memory")]
    Memory,
}

impl From<AllocError> for ReplayFault {
    ghost use Rattle.std.specs.Prelude.{◌≡◌};
    ghost use Rattle.plain_replay.specs.declared.replaying.ReplayFault.TheVariants.{Memory};

    ghost from_gives = { λ _ fault. fault ≡ Memory };

    fn from(_error: AllocError) -> ReplayFault {
        ReplayFault::Memory
    }
}

/// The state after a trace.
pub fn replay(alloc: Global, start: &Plain, trace: &[Record]) -> Result<Plain, ReplayFault>
    ensures found { IfOk result (λ plain. run start.now trace.now ≡ Some plain) }
    ensures refused { (n : ℕ) → result ≡ Err (Refused n) → FirstRefused start.now trace.now n }
{
    let walked = walk(alloc, copied(alloc, start)?, trace)?;
    Ok(Box::into_inner(walked))
}

fn copied(alloc: Global, start: &Plain) -> Result<Box<Plain>, AllocError>
    ensures { IfOk result (λ copy. copy.value ≡ start.now) }
{
    Ok(Box::new(alloc, start.duplicate(alloc)?)?)
}

/// The state after a trace, in the place of the one before it.
fn walk(alloc: Global, start: Box<Plain>, trace: &[Record]) -> Result<Box<Plain>, ReplayFault>
    ensures found { IfOk result (λ after. run start.value trace.now ≡ Some after.value) }
    ensures refused { (n : ℕ) → result ≡ Err (Refused n) → FirstRefused start.value trace.now n }
{
    let mut g = start;
    for (i, record) in trace.iter().enumerate() {
        if !step(alloc, &mut g, record)? {
            return Err(ReplayFault::Refused(i as u64));
        }
    }
    Ok(g)
}
