//! A checkpoint that is over.
ghost use Rattle.std.specs.Prelude.{◌≡◌, true};
ghost use Rattle.refill_core.specs.Work.{is_done};
ghost use Rattle.wrap_names.specs.Wrapping.{IsWrapped};
ghost use Rattle.seen_kernel.specs.Seen.{all_in};
ghost use Rattle.cut_stages.specs.Resumptions as words;

use crate::base::{Base, put_back};
use crate::outcome::PutOutcome;
use barrier_core::Barrier;
use host_tables::System;
use refill_core::Refill;
use std::marker::Model;

/// A system whose channels are filled again. A contract sees the kernel part for which it stood when it was
/// suspended, and how the writing ended.
#[derive(Drop)]
pub struct Refilled {
    base: Base,
    outcome: PutOutcome,
}

impl Model for Refilled {
    ghost use Rattle.cut_stages.specs.Resumptions.{Filled, coded_filled, IsFilled};

    ghost Value = { Filled };

    ghost coded = { coded_filled };

    ghost view = { λ s. record {
      kernel = s.base.stood.kernel;
      next_id = s.base.next_id;
      barrier = s.base.barrier;
      outcome = s.outcome;
    } };

    ghost invariant = { λ s. IsFilled s.base.system s.base.next_id s.base.stood.kernel s.base.owners };
}

impl Refilled {
    pub(crate) fn begin(base: Base, outcome: PutOutcome, refill: Refill) -> Refilled
        requires filling { words.IsFilling base.system base.next_id base.stood.kernel base.owners refill }
        requires done { is_done base.system.kernel.net.channels refill ≡ true }
        ensures kernel { result.kernel ≡ base.stood.kernel }
        ensures next { result.next_id ≡ base.next_id }
        ensures barrier { result.barrier ≡ base.barrier }
        ensures outcome { result.outcome ≡ outcome }
    {
        refill.finish(&base.system.kernel.net);
        Refilled { base, outcome }
    }

    /// The number that the next new process or thread gets.
    pub fn next_id(&self) -> u32
        ensures { result ≡ self.now.next_id }
    {
        self.base.next_id
    }

    /// Resumes all processes: the owners are put back, and the system stands for the kernel part with all
    /// bytes of all directions arrived. Takes no memory.
    pub fn resume(self) -> (System, Barrier, PutOutcome)
        ensures system { IsWrapped result.0 self.next_id (all_in self.kernel) }
        ensures barrier { result.1 ≡ self.barrier }
        ensures outcome { result.2 ≡ self.outcome }
    {
        let base = self.base;
        let mut system = base.system;
        let owners = base.owners;
        put_back(&mut system, &owners);
        (system, base.barrier, self.outcome)
    }
}
