ghost use Rattle.std.specs.Prelude.{◌≡◌, List, [], is_some, option_map, if◌then◌else◌};
ghost use Rattle.std.specs.FinMap as map;
ghost use Rattle.views.specs.Numbers.{Byte, ThreadNumber};
ghost use Rattle.guest_proc.specs.Guests.{HasThread, Tells, ran_at};
ghost use Rattle.plain_process.specs.Attempts.{Gives};
ghost use Rattle.plain_process.specs.Buffers.{lent};
ghost use Rattle.plain_process.specs.Steps.{user_step};
ghost use Rattle.plain_machine.specs.Attempts.{Served};
ghost use Rattle.plain_machine.specs.Records.{Users, is_unready, waits_at};
ghost use Rattle.plain_machine.specs.Serve.{row};
ghost use Rattle.wrap_calls.specs.HandedOn.{console_write};
ghost use Rattle.trace_log.specs.Turns.{signal_for};

use call_table::{Request, is_local};
use guest_proc::{Guest, Ran};
use sys_abi::signals::{lowest_signal, without_signals};
use sys_abi::{Signal, Tid, VPid};
use wrap_calls::Wrapped;

/// The least of the signals pending for the thread or its process that the thread's mask lets through.
pub(crate) fn signal_due(kernel: &Wrapped, p: VPid, guest: &Guest, t: Tid) -> Option<Signal>
    ensures { (users : Users) → option_map (λ s. s.0) result
        ≡ signal_for (record { kernel = kernel.now; users = users }) p t.0
        (map.get guest.now.user.threads t.0) }
{
    if !guest.has_thread(t) {
        return None;
    }
    lowest_signal(without_signals(kernel.pending(p, t), guest.mask(t)))
}

/// Whether the call at which a thread stands waits. Copies nothing.
pub(crate) fn call_waits(
    kernel: &Wrapped,
    p: VPid,
    guest: &Guest,
    t: Tid,
    request: &Request,
) -> bool
    ensures { (users : Users) → result ≡ waits_at (record { kernel = kernel.now; users = users }) p t.0
        request.now (lent guest.now.user.memory request.now) }
{
    let Some(front) = guest.front(request) else {
        return false;
    };
    !is_local(request) && !kernel.is_ready(p, t, request, &front)
}

/// Whether a thread that stands there waits on a word, or on its call. Copies nothing.
pub(crate) fn is_idle(kernel: &Wrapped, p: VPid, guest: &Guest, t: Tid, ran: &Ran) -> bool
    requires { ran.now ≡ ran_at (user_step guest.now.user t.0) }
    ensures { (users : Users) → result ≡ is_unready (record { kernel = kernel.now; users = users }) p t.0
        guest.now.user (user_step guest.now.user t.0) }
{
    match ran {
        Ran::Waits => true,
        Ran::Asks(request) => call_waits(kernel, p, guest, t, request),
        _ => false,
    }
}

/// Whether the call shows on the console what it reads.
pub(crate) fn shows(kernel: &Wrapped, p: VPid, request: &Request) -> bool
    ensures told { result ≡ is_some (console_write kernel.now p request.now) }
    ensures shown { (t : ThreadNumber) (given : List Byte) (served : Served)
        → row kernel.now p t request.now given ≡ Gives served
        → served.console ≡ (if result then given else []) }
{
    kernel.console_write(p, request).is_some()
}

/// Where a thread stands that ran. One that ran its whole quantum is looked at.
pub(crate) fn place_after(guest: &Guest, t: Tid, ran: Ran) -> Ran
    requires thread { HasThread guest.now.user t.0 }
    requires told { Tells ran (user_step guest.now.user t.0) }
    ensures { result ≡ ran_at (user_step guest.now.user t.0) }
{
    match ran {
        Ran::Whole => guest.look(t),
        _ => ran,
    }
}
