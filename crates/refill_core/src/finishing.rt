//! What is left to do with a direction.
ghost use Rattle.std.specs.Prelude.{◌≡◌, All};
ghost use Rattle.refill_core.specs.Refills.{Apart, IsNoted, dirs_of};
ghost use Rattle.refill_core.specs.Tasks as tasks;
ghost use Rattle.refill_core.specs.Work as words;

use crate::notes::{frame_length, reverse_of};
use crate::stepping::place_beside;
use sys_abi::RealPid;
use wire_net::{DirNotes, Net, is_agent};

/// Whether the whole frame with the direction's own bytes was read.
fn has_back(notes: &DirNotes) -> bool
    requires { IsNoted notes.now }
    ensures { result ≡ tasks.has_back notes.now }
{
    notes.read == frame_length(notes)
}

/// Whether the whole frame of the other direction and all its own bytes are sent on the direction.
fn has_sent_all(notes: &DirNotes, other: &DirNotes) -> bool
    requires own { IsNoted notes.now }
    requires other { IsNoted other.now }
    ensures { result ≡ words.has_sent_all notes.now other.now }
{
    notes.sent == frame_length(other) + notes.count
}

/// Whether the agent has work left on the direction, whose notes stand at the place.
fn is_left(all: &[DirNotes], place: usize, notes: &DirNotes, agent: RealPid) -> bool
    requires apart { Apart (dirs_of all.now) }
    requires noted { All IsNoted all.now }
    requires own { IsNoted notes.now }
    ensures { result ≡ words.is_left agent all.now notes.now }
{
    if !is_agent(notes.sender, agent) {
        return false;
    }
    let Some(other) = place_beside(all, place, reverse_of(notes.dir)) else {
        return false;
    };
    !has_back(notes) || !has_sent_all(notes, &all[other])
}

/// Whether the agent has work left on any direction.
pub(crate) fn has_work_left(all: &[DirNotes], agent: RealPid) -> bool
    requires apart { Apart (dirs_of all.now) }
    requires noted { All IsNoted all.now }
    ensures { result ≡ words.has_work agent all.now }
{
    for (place, notes) in all.iter().enumerate() {
        if is_left(all, place, notes, agent) {
            return true;
        }
    }
    false
}

/// Whether the agents have refilled the direction, whose notes stand at the place, if they do, and all its
/// bytes have reached the receiver's queue.
fn is_finished(all: &[DirNotes], place: usize, notes: &DirNotes, net: &Net) -> bool
    requires apart { Apart (dirs_of all.now) }
    requires noted { All IsNoted all.now }
    requires own { IsNoted notes.now }
    ensures { result ≡ words.is_finished net.now.channels all.now notes.now }
{
    let [sent, wire, _received] = net.counts(notes.dir);
    let has_arrived = sent == 0 && wire == 0;
    if notes.sender.is_none() || !net.has(notes.dir.conn) {
        return has_arrived;
    }
    let Some(other) = place_beside(all, place, reverse_of(notes.dir)) else {
        return has_arrived;
    };
    has_back(notes) && has_sent_all(notes, &all[other]) && has_arrived
}

/// Whether nothing is left to do on any direction.
pub(crate) fn all_finished(all: &[DirNotes], net: &Net) -> bool
    requires apart { Apart (dirs_of all.now) }
    requires noted { All IsNoted all.now }
    ensures { result ≡ words.is_done net.now.channels all.now }
{
    for (place, notes) in all.iter().enumerate() {
        if !is_finished(all, place, notes, net) {
            return false;
        }
    }
    true
}
