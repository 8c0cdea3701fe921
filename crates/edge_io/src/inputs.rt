ghost use Rattle.std.specs.Prelude.{◌≡◌, ◌^◌, ◌<◌, ◌≤◌, option_map, vec_items, IfOk, IfSome, IsErrOf};
ghost use Rattle.std.specs.FinMap as map;
ghost use Rattle.views.specs.Faults.{IsFaultOf};
ghost use Rattle.edge_io.specs.Inputs.{SeenInputs};

use std::alloc::{AllocError, Global};
use thiserror::Error;

/// Why an input was not read.
#[derive(Clone, Copy, Debug, PartialEq, Eq, Error)]
pub enum InputFault {
    #[error("the input failed")]
    Failed,
    #[error("out of memory")]
    Memory,
}

impl From<AllocError> for InputFault {
    ghost use Rattle.std.specs.Prelude.{◌≡◌};
    ghost use Rattle.edge_io.specs.declared.inputs.InputFault.TheVariants.{Memory};

    ghost from_gives = { λ _ fault. fault ≡ Memory };

    fn from(_error: AllocError) -> InputFault {
        InputFault::Memory
    }
}

/// Files that a run reads by name.
///
/// No call changes them. Inputs that can't say what they hold, as files of the host that others may
/// change, tell none, and what they answer is then any bytes.
pub trait Inputs {
    /// What is seen of the inputs at a moment.
    ghost seen: { Self → SeenInputs };

    /// The bytes of the file of that name, or `None` where there is no such file.
    fn read(&mut self, alloc: Global, name: &str) -> Result<Option<Vec<u8>>, InputFault>
        ensures told { IfOk result (λ bytes. IfSome (seen self.old).files
            (λ files. option_map vec_items bytes ≡ map.get files name.now)) }
        ensures same { (seen self.new).files ≡ (seen self.old).files }

        // A fault raises the count, and want of memory is no fault.
        ensures cause { IsFaultOf result InputFault.Failed (seen self.old).faults (seen self.new).faults }
        ensures memory { IsErrOf result InputFault.Memory → (seen self.new).faults ≡ (seen self.old).faults }
        ensures later { (seen self.old).faults ≤ (seen self.new).faults }
        ensures small { (seen self.new).faults < 2 ^ 64 };
}
