ghost use Rattle.std.specs.Prelude.{◌≡◌, ◌^◌, ◌<◌, ◌≤◌, ◌↔◌, Option, Some, option_map, vec_items, IfOk, IfSome, OnOk, OnErr, IsErrOf, IsTrue};
ghost use Rattle.std.specs.FinMap as map;
ghost use Rattle.views.specs.Faults.{IsFaultOf};
ghost use Rattle.edge_io.specs.Calls.{new_script, is_due, after_success, after_fault};

use crate::fault_script::FaultScript;
use crate::inputs::{InputFault, Inputs};
use crate::named_bytes::NamedBytes;
use std::alloc::{AllocError, Global};

/// Inputs in memory. They tell their files, and fail at the calls that they were told to.
#[derive(Drop)]
pub struct MemInputs {
    pub files: NamedBytes,
    /// Which reads are to fail, and how many there have been.
    pub script: FaultScript,
}

impl MemInputs {
    /// No files. The calls of `read` whose numbers are among `fails`, counted from 1, are to fail.
    pub fn new(alloc: Global, fails: &[u64]) -> Result<Self, AllocError>
        ensures { IfOk result (λ inputs. inputs
            ≡ record { files = map.empty; script = new_script fails.now }) }
    {
        Ok(MemInputs {
            files: NamedBytes::new(alloc),
            script: FaultScript::new(alloc, fails)?,
        })
    }

    /// Adds a file, in place of one of that name. It counts as no call.
    pub fn add(&mut self, name: &str, bytes: &[u8]) -> Result<(), AllocError>
        ensures ok { OnOk result
            (self.new ≡ record self.old { files = map.insert self.old.files name.now bytes.now }) }
        ensures err { OnErr result (self.new ≡ self.old) }
    {
        self.files.insert(name, bytes)
    }
}

impl Inputs for MemInputs {
    ghost seen = { λ inputs. record { files = Some inputs.files; faults = inputs.script.faults } };

    /// After want of memory the call counts as none.
    fn read(&mut self, alloc: Global, name: &str) -> Result<Option<Vec<u8>>, InputFault>
        ensures told { IfOk result
            (λ bytes. option_map vec_items bytes ≡ map.get self.old.files name.now) }
        ensures due { IsErrOf result InputFault.Failed ↔ IsTrue (is_due self.old.script) }

        // What stays, and what is counted.
        ensures ok { OnOk result
            (self.new ≡ record self.old { script = after_success self.old.script }) }
        ensures failed { IsErrOf result InputFault.Failed →
            self.new ≡ record self.old { script = after_fault self.old.script } }
        ensures refused { IsErrOf result InputFault.Memory → self.new ≡ self.old }

        // As of all inputs.
        ensures same { Some self.new.files ≡ Some self.old.files }
        ensures cause { IsFaultOf result InputFault.Failed self.old.script.faults self.new.script.faults }
        ensures memory { IsErrOf result InputFault.Memory →
            self.new.script.faults ≡ self.old.script.faults }
        ensures later { self.old.script.faults ≤ self.new.script.faults }
        ensures small { self.new.script.faults < 2 ^ 64 }
    {
        let _in_range = self.script.faults;
        if self.script.is_due() {
            self.script.fail();
            return Err(InputFault::Failed);
        }
        let bytes = self.files.copy_of(alloc, name)?;
        self.script.succeed();
        Ok(bytes)
    }
}
