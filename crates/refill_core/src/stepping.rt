//! A step of an agent on all directions.
ghost use Rattle.std.specs.Prelude.{◌≡◌, ◌<◌, true, length, slice_get, option_and_then, IfSome};
ghost use Rattle.refill_core.specs.Refills as words;
ghost use Rattle.refill_core.specs.Work.{moved_by, moved_any};
ghost use Rattle.refill_core.specs.Stepping.{state, dir_at};

use crate::notes::{read_frame, reverse_of, send_part};
use sys_abi::{Dir, RealPid, Transfer};
use wire_net::{DirNotes, Net, is_agent};

/// Where the notes on a direction stand, if they are there.
fn place_of(all: &[DirNotes], d: Dir) -> Option<usize>
    ensures found { option_and_then (slice_get all.now) result ≡ words.notes_at d all.now }
    ensures within { IfSome result (λ place. place < length all.now) }
{
    for (place, notes) in all.iter().enumerate() {
        if notes.dir.cmp(&d).is_eq() {
            return Some(place);
        }
    }
    None
}

/// Whether the notes at a place, if any stand there, are those on the direction.
fn is_at(all: &[DirNotes], place: usize, d: Dir) -> bool
    requires { words.Apart (words.dirs_of all.now) }
    ensures found { result ≡ true → slice_get all.now place ≡ words.notes_at d all.now }
    ensures within { result ≡ true → place < length all.now }
{
    if place >= all.len() {
        return false;
    }
    all[place].dir.cmp(&d).is_eq()
}

/// Where the notes on a direction stand, if they are there. Those beside a place are looked at first: the
/// directions of a channel mostly stand beside each other.
pub(crate) fn place_beside(all: &[DirNotes], place: usize, d: Dir) -> Option<usize>
    requires { words.Apart (words.dirs_of all.now) }
    ensures found { option_and_then (slice_get all.now) result ≡ words.notes_at d all.now }
    ensures within { IfSome result (λ place. place < length all.now) }
{
    let behind = place.saturating_add(1);
    if is_at(all, behind, d) {
        return Some(behind);
    }
    let before = place.saturating_sub(1);
    if is_at(all, before, d) {
        return Some(before);
    }
    place_of(all, d)
}

/// An agent's turn on the direction of the notes at a place, if it sends it: it reads off the other direction
/// before it sends on this one. Answers whether it moved bytes.
fn step_on(
    all: &mut [DirNotes],
    place: usize,
    net: &mut Net,
    transfer: &mut Transfer,
    agent: RealPid,
) -> bool
    requires fits { words.Fits net.old.channels all.old }
    requires within { place < length all.old }
    ensures moved { result ≡ moved_by agent (dir_at all.old place) (state all.old net.old) }
    ensures after { state all.new net.new ≡ words.turn_after agent (dir_at all.old place) (state all.old net.old) }
    ensures net { net.new ≡ record net.old { channels = net.new.channels } }
{
    if !is_agent(all[place].sender, agent) {
        return false;
    }
    let Some(other) = place_beside(all, place, reverse_of(all[place].dir)) else {
        return false;
    };
    let read = read_frame(&mut all[place], net, transfer, agent);
    let sent = send_part(&all[place], &all[other], net, agent);
    all[place].sent += sent;
    read > 0 || sent > 0
}

/// A step of an agent: its turn on each direction, one after the other. Answers whether it moved bytes.
pub(crate) fn step_all(
    all: &mut [DirNotes],
    net: &mut Net,
    transfer: &mut Transfer,
    agent: RealPid,
) -> bool
    requires { words.Fits net.old.channels all.old }
    ensures moved { result ≡ moved_any agent (words.dirs_of all.old) (state all.old net.old) }
    ensures after { state all.new net.new ≡ words.turns_after agent (words.dirs_of all.old) (state all.old net.old) }
    ensures net { net.new ≡ record net.old { channels = net.new.channels } }
{
    let mut moved = false;
    for place in 0..all.len() {
        moved |= step_on(all, place, net, transfer, agent);
    }
    moved
}
