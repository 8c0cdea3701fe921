//! What the calls read that a process answers alone.
ghost use Rattle.std.specs.Prelude.{◌≡◌, ℕ, List, Some, IsSome, is_some, option_map};
ghost use Rattle.plain_process.specs.Buffers.{bytes_of, unless_zero, span, lent};
ghost use Rattle.plain_process.specs.Memory.{bytes_at, load};
ghost use Rattle.plain_process.specs.Rows.Handlers.{action_in};
ghost use Rattle.plain_process.specs.declared.buffers.Source.TheVariants.{Bytes};
ghost use Rattle.plain_process.specs.declared.memory.Right.TheVariants.{Read as ToRead};
ghost use Rattle.process_memory.specs.Local.{NamesAction, NamesSet};

use crate::buffers::{can_write_all, readable_span, written_spans};
use call_table::Request;
use guest_mem::Space;
use plain_process::{SignalAction, reads_of};
use sys_abi::signals::blockable;

/// Whether each buffer of the call is readable or writable as it needs.
pub fn is_lendable(space: &Space, request: &Request) -> bool
    ensures { result ≡ is_some (lent space.now request.now) }
{
    let Some(_at) = readable_span(space, reads_of(request)) else {
        return false;
    };
    can_write_all(space, written_spans(space, request))
}

/// The word at an address, where it can be read.
pub fn word_at(space: &Space, address: u32) -> Option<u32>
    ensures { result ≡ load space.now address 4 }
{
    space.load(address, 4).ok()
}

/// The word at an address that can be read.
fn readable_word(space: &Space, address: u32) -> u32
    requires { IsSome (bytes_at space.now ToRead address 4) }
    ensures { load space.now address 4 ≡ Some result }
{
    match space.load(address, 4) {
        Ok(word) => word,
        Err(_) => unreachable!(),
    }
}

/// The action at an address, where it can be read.
fn action_at(space: &Space, address: u32) -> Option<SignalAction>
    ensures { result ≡ option_map action_in (bytes_at space.now ToRead address 16) }
{
    if !space.is_readable(address, 16) {
        return None;
    }
    Some(SignalAction {
        handler: readable_word(space, address),
        flags: readable_word(space, address + 4),
        mask: blockable(readable_word(space, address + 8)),
    })
}

/// The action that a call names, none where it names no place.
pub fn new_action(space: &Space, address: u32) -> Option<SignalAction>
    ensures { (given : List ℕ) → bytes_of space.now (unless_zero address (Bytes (span address 16))) ≡ Some given → NamesAction result given address }
{
    if address == 0 {
        None
    } else {
        action_at(space, address)
    }
}

/// The set that a call names, none where it names no place.
pub fn new_set(space: &Space, address: u32) -> Option<u32>
    ensures { (given : List ℕ) → bytes_of space.now (unless_zero address (Bytes (span address 8))) ≡ Some given → NamesSet result given address }
{
    if address == 0 {
        None
    } else {
        word_at(space, address)
    }
}
