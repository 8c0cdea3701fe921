//! The kernel part for which a system stands, as the caller's proof names it. It takes no memory.
ghost use Rattle.std.specs.Prelude.{◌≡◌};
ghost use Rattle.plain_machine.specs.declared.kernel.PlainKernel.{PlainKernel};
ghost use Rattle.wrap_names.specs.Wrapping.{IsWrapped};

use host_tables::System;
use wrap_calls::Wrapped;
use wrap_names::stood::Stood;

/// The kernel part that is named for what is lent.
pub(crate) fn stood_by<T>(_lent: &T) -> Stood
    ghost part: { PlainKernel }
    ensures { result.kernel ≡ part }
{
    Stood::of()
}

/// A system that runs and stands for the kernel part.
pub(crate) fn wrap(system: System, number: u32, _stood: &Stood) -> Wrapped
    ghost part: { PlainKernel }
    requires { IsWrapped system number part }
    ensures { result ≡ part }
{
    Wrapped::new(system, number)
}
