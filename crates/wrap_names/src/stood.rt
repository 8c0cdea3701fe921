//! The kernel part for which a system stands, as clauses see it.
ghost use Rattle.std.specs.Prelude.{◌≡◌};
ghost use Rattle.std.specs.Borrow.{ftrue};
ghost use Rattle.plain_machine.specs.declared.kernel.PlainKernel.{PlainKernel};
ghost use Rattle.wrap_names.specs.Codes.{kernel_code};

use call_table::Request;
use std::marker::Model;
use sys_abi::{Dir, Signal, Tid, VPid};

/// The kernel part for which a system stands. It takes no memory, and only clauses read it.
#[derive(Drop)]
pub struct Stood {
    pub ghost kernel: { PlainKernel } by { kernel_code },
}

impl Model for Stood {
    ghost also_owns = { λ _. ftrue };
}

/// What changes a kernel part.
#[derive(Clone, Copy, Drop)]
pub enum Change<'a> {
    /// A thread's call, with the bytes that it reads.
    Call(VPid, Tid, &'a Request, &'a [u8]),
    /// A signal is no longer pending for the thread or its process.
    Take(VPid, Tid, Signal),
    /// A process ends with this status.
    End(VPid, u32),
    /// So many bytes of a direction arrive, at most those that are on the way.
    Arrive(Dir, u32),
}

impl Stood {
    ghost use Rattle.wrap_names.specs.Changes.{changed};

    /// The kernel part that the caller's proof names.
    pub fn of() -> Stood
        ghost chosen: { PlainKernel }
        ensures { result.kernel ≡ chosen }
    {
        Stood {}
    }

    /// The kernel part after a change.
    pub fn then(&self, _change: &Change<'_>) -> Stood
        ensures { result.kernel ≡ changed self.now.kernel _change.now }
    {
        Stood {}
    }
}
