ghost use Rattle.std.specs.Prelude.{◌≡◌, Some};
ghost use Rattle.edge_io.specs.Inputs.{SeenInputs};
ghost use Rattle.launch_start.specs.RingJobs.{ring_files};

use edge_io::{InputFault, Inputs};
use rv_asm::ring_program;
use std::alloc::Global;

/// The name of the ring's program.
pub(crate) const RING: &str = "ring";

/// Inputs that hold the ring's program under its name, and nothing else. They never fail.
#[derive(Clone, Copy, Drop)]
pub struct RingInputs;

impl Inputs for RingInputs {
    ghost seen = { λ _. record { files = Some ring_files; faults = 0 } };

    fn read(&mut self, alloc: Global, name: &str) -> Result<Option<Vec<u8>>, InputFault> {
        if name == RING {
            Ok(Some(ring_program(alloc)?))
        } else {
            Ok(None)
        }
    }
}
