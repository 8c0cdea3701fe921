//! What a call would show on the console.
ghost use Rattle.std.specs.Prelude.{◌≡◌, List, [], length, is_some, Some, IfSome, if◌then◌else◌};
ghost use Rattle.views.specs.Numbers.{Byte, ThreadNumber};
ghost use Rattle.fd_tables.specs.Slots as slots;
ghost use Rattle.plain_process.specs.Attempts.{Gives};
ghost use Rattle.plain_process.specs.Buffers.{lent};
ghost use Rattle.plain_process.specs.Memory.{Memory};
ghost use Rattle.plain_tables.specs.Tables as tables;
ghost use Rattle.plain_machine.specs.declared.kernel.PlainKernel.{PlainKernel};
ghost use Rattle.plain_machine.specs.Attempts.{Served};
ghost use Rattle.plain_machine.specs.Serve.{row};
ghost use Rattle.host_descriptors.specs.Held.{held_in};
ghost use Rattle.wrap_passing.specs.OfWrapNames.Wrapping.{IsWrapped};
ghost use Rattle.wrap_calls.specs.Console as words;

use call_table::Request;
use fd_book::{Book, Object};
use host_descriptors::held_at;
use host_tables::System;
use plain_transfers::moving::limited;
use sys_abi::{RealPid, VPid};

/// How many bytes the call gives to the console, which is all that it reads: None where it is no write to a
/// console that is open for writing.
pub fn console_write(system: &System, p: VPid, request: &Request) -> Option<u32>
    ensures exact { (k : PlainKernel) (next_id : _) → IsWrapped system.now next_id k
        → result ≡ words.console_write k p request.now }
    ensures shown { (k : PlainKernel) (next_id : _) → IsWrapped system.now next_id k → (t : ThreadNumber)
        (given : List Byte) (served : Served) → row k p t request.now given ≡ Gives served
        → served.console ≡ (if is_some result then given else []) }
    ensures count { (memory : Memory) (given : List Byte) → lent memory request.now ≡ Some given
        → IfSome result (λ n. n ≡ length given) }
{
    let Some((fd, count)) = written(request) else {
        return None;
    };
    if !writes_console(system, p, fd) {
        return None;
    }
    Some(limited(count))
}

/// The descriptor and the count of a write.
#[tactic(auto, unfolding(crate::specs::Console::written))]
fn written(request: &Request) -> Option<(u32, u32)>
    ensures { result ≡ words.written request.now }
{
    match *request {
        Request::Write { fd, count, .. } => Some((fd, count)),
        _ => None,
    }
}

/// Whether the descriptor leads to a console, and is open for writing.
fn writes_console(system: &System, p: VPid, fd: u32) -> bool
    ensures { (k : PlainKernel) (next_id : _) → IsWrapped system.now next_id k
        → result ≡ words.writes_console k p fd }
{
    let Ok(who) = system.ids.real_pid(p.0) else {
        return false;
    };
    system.kernel.book.whole();
    leads_to_console(&system.kernel.book, who, fd)
}

/// The same of a real process.
fn leads_to_console(book: &Book, who: RealPid, fd: u32) -> bool
    ensures { result ≡ words.leads_to_console (held_in book.now (slots.slot who fd)) }
{
    let Some(held) = held_at(book, who, fd) else {
        return false;
    };
    is_console(held.description.object) && may_write(held.description.flags)
}

fn is_console(object: Object) -> bool
    ensures { result ≡ words.is_real_console object }
{
    match object {
        Object::Console => true,
        _ => false,
    }
}

/// Whether the access mode is O_WRONLY or O_RDWR (`man 2 open`).
fn may_write(flags: u32) -> bool
    ensures { result ≡ tables.may_write flags }
{
    flags % 4 == 1 || flags % 4 == 2
}
