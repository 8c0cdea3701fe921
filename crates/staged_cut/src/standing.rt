//! The kernel part for which a system stands, handed on to a stage and back. It takes no memory.
ghost use Rattle.std.specs.Prelude.{◌≡◌};
ghost use Rattle.plain_machine.specs.declared.kernel.PlainKernel.{PlainKernel};
ghost use Rattle.ckpt_stages.specs.OfWrapNames.Wrapping.{IsWrapped};

use ckpt_stages::{Refilled, Stood};
use host_tables::System;
use run_start::Wrapped;

/// The kernel part that the caller's proof names for a system that runs.
pub(crate) fn stood_by(_wrapped: &Wrapped) -> Stood
    ghost part: { PlainKernel }
    ensures { result.kernel ≡ part }
{
    Stood::of()
}

/// The kernel part that the caller's proof names for a system whose channels are filled again.
pub(crate) fn stood_after(_refilled: &Refilled) -> Stood
    ghost part: { PlainKernel }
    ensures { result.kernel ≡ part }
{
    Stood::of()
}

/// The same kernel part once more.
pub(crate) fn same(_stood: &Stood) -> Stood
    ghost part: { PlainKernel }
    ensures { result.kernel ≡ part }
{
    Stood::of()
}

/// A system that runs and stands for the kernel part.
pub(crate) fn wrap(system: System, next_id: u32, _stood: &Stood) -> Wrapped
    ghost part: { PlainKernel }
    requires { IsWrapped system next_id part }
    ensures { result ≡ part }
{
    Wrapped::new(system, next_id)
}
