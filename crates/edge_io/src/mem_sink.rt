ghost use Rattle.std.specs.Prelude.{◌≡◌, ℕ, ◌^◌, ◌<◌, ◌≤◌, ◌++◌, [], List, Some, IfOk, OnOk, OnErr, IsErr, IsTrue, take};
ghost use Rattle.views.specs.Faults.{IsFaultOf};
ghost use Rattle.edge_io.specs.Calls.{new_script, is_due, after_success, after_fault, after_refusal};
ghost use Rattle.edge_io.specs.Sink.{appended};

use crate::fault_script::FaultScript;
use crate::sink::{Sink, SinkFault};
use std::alloc::{AllocError, Global};
use std::marker::Model;

/// A sink in memory. It tells the bytes that it took, and fails at the calls that it was told to.
#[derive(Drop)]
pub struct MemSink {
    bytes: Vec<u8>,
    script: FaultScript,
    refusals: u64,
}

impl Model for MemSink {
    ghost use Rattle.edge_io.specs.MemSink.{SinkState, sink_state_code};

    ghost Value = { SinkState };

    ghost coded = { sink_state_code };

    ghost view = { λ s. record { bytes = s.bytes.items; script = s.script; refusals = s.refusals } };
}

impl MemSink {
    /// No bytes. The calls of `put` whose numbers are among `fails`, counted from 1, are to fail.
    pub fn new(alloc: Global, fails: &[u64]) -> Result<Self, AllocError>
        ensures { IfOk result (λ sink. sink
            ≡ record { bytes = []; script = new_script fails.now; refusals = 0 }) }
    {
        Ok(MemSink {
            bytes: Vec::new(alloc),
            script: FaultScript::new(alloc, fails)?,
            refusals: 0,
        })
    }

    /// The bytes taken so far.
    pub fn bytes(&self) -> &[u8]
        ensures { result.now ≡ self.now.bytes }
    {
        self.bytes.as_slice()
    }

    /// How many pieces were refused for want of memory. The count stays at its greatest value.
    pub fn refusals(&self) -> u64
        ensures { result ≡ self.now.refusals }
    {
        self.refusals
    }
}

impl Sink for MemSink {
    ghost seen = { λ sink. record { taken = Some sink.bytes; faults = sink.script.faults } };

    /// A failed call takes nothing. It fails where its number is listed, and else only for want of
    /// memory, which is counted as well.
    fn put(&mut self, piece: &[u8]) -> Result<(), SinkFault>
        ensures due { IsTrue (is_due self.old.script) → IsErr result }
        ensures taken { OnOk result (self.new ≡ record self.old {
          bytes = self.old.bytes ++ piece.now;
          script = after_success self.old.script;
        }) }
        ensures failed { OnErr result (self.new ≡ record self.old {
          script = after_fault self.old.script;
          refusals = after_refusal self.old.script self.old.refusals;
        }) }

        // As of all sinks.
        ensures ok { OnOk result (Some self.new.bytes ≡ appended (Some self.old.bytes) piece.now) }
        ensures err { OnErr result ((n : ℕ) ×
            (Some self.new.bytes ≡ appended (Some self.old.bytes) (take n piece.now))) }
        ensures cause { IsFaultOf result SinkFault.Failed self.old.script.faults self.new.script.faults }
        ensures later { self.old.script.faults ≤ self.new.script.faults }
        ensures small { self.new.script.faults < 2 ^ 64 }
    {
        let _in_range = self.script.faults;
        if self.script.is_due() {
            self.script.fail();
            return Err(SinkFault::Failed);
        }
        if self.bytes.extend_from_slice(piece).is_err() {
            self.script.fail();
            self.refusals = self.refusals.saturating_add(1);
            return Err(SinkFault::Failed);
        }
        self.script.succeed();
        Ok(())
    }
}
