//! What the calls on signal handlers and masks read, write and change (`man 2 sigaction`,
//! `man 2 sigprocmask`).
ghost use Rattle.std.specs.Prelude.{◌≡◌, ◌<◌, ◌^◌, ◌++◌, slice_index};
ghost use Rattle.plain_process.specs.Memory.{low_bytes};
ghost use Rattle.plain_process.specs.Rows.Handlers as handlers;

use crate::user_part::SignalAction;
use call_table::sys_abi::signals::{SIGKILL, SIGSTOP, blockable, without_signals};

fn byte_or_zero(given: &[u8], place: usize) -> u8
    ensures { result ≡ slice_index given.now place }
{
    if place < given.len() { given[place] } else { 0 }
}

/// The word at a place of the bytes that a call reads; bytes past their end are 0.
#[tactic(auto, using(crate::proofs::HandlerWords::word_in_bytes))]
pub fn word_in(given: &[u8], place: usize) -> u32
    requires { place < 2 ^ 32 }
    ensures { result ≡ handlers.word_in given.now place }
{
    u32::from_le_bytes([
        byte_or_zero(given, place),
        byte_or_zero(given, place + 1),
        byte_or_zero(given, place + 2),
        byte_or_zero(given, place + 3),
    ])
}

/// The action that the bytes of a call name.
pub fn action_in(given: &[u8]) -> SignalAction
    ensures { result ≡ handlers.action_in given.now }
{
    SignalAction {
        handler: word_in(given, 0),
        flags: word_in(given, 4),
        mask: blockable(word_in(given, 8)),
    }
}

/// An action as it stands in memory.
pub fn action_bytes(action: SignalAction) -> [u8; 16]
    ensures { result ≡ handlers.action_bytes action }
{
    let [h0, h1, h2, h3] = action.handler.to_le_bytes();
    let [f0, f1, f2, f3] = action.flags.to_le_bytes();
    let [m0, m1, m2, m3] = action.mask.to_le_bytes();
    [h0, h1, h2, h3, f0, f1, f2, f3, m0, m1, m2, m3, 0, 0, 0, 0]
}

/// A mask as it stands in memory, a set of 8 bytes.
pub fn mask_bytes(mask: u32) -> [u8; 8]
    ensures { result ≡ low_bytes 4 mask ++ low_bytes 4 0 }
{
    let [m0, m1, m2, m3] = mask.to_le_bytes();
    [m0, m1, m2, m3, 0, 0, 0, 0]
}

/// Whether no handler takes the signal.
pub fn is_uncatchable(s: u32) -> bool
    ensures { result ≡ handlers.is_uncatchable s }
{
    s == SIGKILL || s == SIGSTOP
}

/// A thread's mask after the call: 0 blocks, 1 unblocks, 2 sets.
pub fn mask_by(how: u32, mask: u32, set: u32) -> u32
    ensures { result ≡ handlers.mask_by how mask set }
{
    match how {
        0 => mask | blockable(set),
        1 => without_signals(mask, blockable(set)),
        _ => blockable(set),
    }
}
