//! A signal for a process or for one of its threads (`man 2 kill`, `man 2 tgkill`).
ghost use Rattle.std.specs.Prelude.{◌≡◌, ◌&&◌, List};
ghost use Rattle.views.specs.Numbers.{Byte};
ghost use Rattle.sys_abi.specs.declared.identity.RealPid.{RealPid};
ghost use Rattle.plain_machine.specs.Rows.Send as rows;
ghost use Rattle.host_descriptors.specs.OfHostTables.Numbers.{to_real_thread};
ghost use Rattle.host_descriptors.specs.OfHostTables.Requests.{neighbour_of};
ghost use Rattle.host_descriptors.specs.OfHostTables.Serves.{Through, Serves, ByNumber, same};
ghost use Rattle.host_processes.specs.Raises.{raise_answer, with_raised};

use host_descriptors::{Attempt, Kernel};
use sys_abi::errors::{EINVAL, ESRCH};
use sys_abi::{Errno, RealPid, Signal};

/// kill (`man 2 kill`). `target` is the real number of the process of the caller's host that the number
/// names, None where it names none. Takes no memory.
pub fn kill(kernel: &mut Kernel, number: u32, signal: u32, target: Option<RealPid>) -> Attempt
    ensures { (who : RealPid) → Through kernel.old who (λ g k p. (x : List Byte)
        → target ≡ neighbour_of g.pids k p number
        → Serves ByNumber same g kernel.old kernel.new x x result (rows.kill_row k p number signal)) }
{
    if !may_send(number, signal) {
        return Attempt::Fails(Errno(EINVAL));
    }
    let Some(target) = target else {
        return Attempt::Fails(Errno(ESRCH));
    };
    raise(kernel, target, None, signal)
}

/// tgkill (`man 2 tgkill`). `target` is as that of [`kill`], and `thread` the real number of the thread
/// `tid`, None where it has none on the caller's node. Takes no memory.
pub fn tgkill(
    kernel: &mut Kernel,
    number: u32,
    tid: u32,
    signal: u32,
    target: Option<RealPid>,
    thread: Option<u32>,
) -> Attempt
    ensures { (who : RealPid) → Through kernel.old who (λ g k p. (x : List Byte)
        → target ≡ neighbour_of g.pids k p number → thread ≡ to_real_thread g.pids who.node tid
        → Serves ByNumber same g kernel.old kernel.new x x result (rows.tgkill_row k p number tid signal)) }
{
    if !may_send(number, signal) {
        return Attempt::Fails(Errno(EINVAL));
    }
    let _ = tid;
    let Some(target) = target else {
        return Attempt::Fails(Errno(ESRCH));
    };
    let Some(thread) = thread else {
        return Attempt::Fails(Errno(ESRCH));
    };
    raise(kernel, target, Some(thread), signal)
}

/// Whether the number can be that of a process, and the signal can be sent.
fn may_send(number: u32, signal: u32) -> bool
    ensures { result ≡ (rows.is_above_zero number && rows.may_be_sent signal) }
{
    1 <= number && number < 0x8000_0000 && signal <= 31 && !(18 <= signal && signal <= 22)
}

/// The signal is pending for the process, or for this thread of it alone, if it lives.
fn raise(kernel: &mut Kernel, target: RealPid, thread: Option<u32>, signal: u32) -> Attempt
    ensures answer { result ≡ raise_answer kernel.old target thread }
    ensures raised { kernel.new ≡ with_raised kernel.old target thread signal }
{
    match kernel.procs.raise(target, thread, Signal(signal)) {
        Ok(()) => Attempt::Gives(0),
        Err(_) => Attempt::Fails(Errno(ESRCH)),
    }
}
