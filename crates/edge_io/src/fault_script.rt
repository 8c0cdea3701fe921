ghost use Rattle.std.specs.Prelude.{◌≡◌, [], IfOk};
ghost use Rattle.edge_io.specs.Calls.{new_script, is_due, after_success, after_fault};

use std::alloc::{AllocError, Global};
use views::list_of::ListOf;

/// Which calls of an object in memory are to fail, and how many there have been.
#[derive(Drop)]
pub struct FaultScript {
    /// The numbers of the calls that are to fail, counted from 1.
    pub fails: ListOf<u64>,
    /// How many calls were made. The count stays at its greatest value.
    pub calls: u64,
    /// How many of them failed. The count stays at its greatest value.
    pub faults: u64,
}

impl FaultScript {
    /// No call was made yet.
    pub fn new(alloc: Global, fails: &[u64]) -> Result<Self, AllocError>
        ensures { IfOk result (λ script. script ≡ new_script fails.now) }
    {
        Ok(FaultScript {
            fails: ListOf::from_vec(Vec::from_slice(alloc, fails)?),
            calls: 0,
            faults: 0,
        })
    }

    /// Whether the next call is to fail.
    pub fn is_due(&self) -> bool
        ensures { result ≡ is_due self.now }
    {
        self.fails
            .as_slice()
            .contains(&self.calls.saturating_add(1))
    }

    /// Counts a call that goes well.
    pub fn succeed(&mut self)
        ensures { self.new ≡ after_success self.old }
    {
        self.calls = self.calls.saturating_add(1);
    }

    /// Counts a call that fails.
    pub fn fail(&mut self)
        ensures { self.new ≡ after_fault self.old }
    {
        self.calls = self.calls.saturating_add(1);
        self.faults = self.faults.saturating_add(1);
    }
}
