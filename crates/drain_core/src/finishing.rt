//! What is left to do with a direction.
ghost use Rattle.std.specs.Prelude.{◌≡◌, ◌<◌, All};
ghost use Rattle.drain_core.specs.Drains as words;

use crate::limits::COOKIE_LENGTH;
use crate::notes::has_sent;
use sys_abi::RealPid;
use wire_net::{DirNotes, Net, is_agent};

/// Whether the agent of the reading end reads on.
fn reads_on(notes: &DirNotes) -> bool
    ensures { result ≡ words.reads_on notes.now }
{
    (notes.read as u64) < notes.count as u64 + COOKIE_LENGTH as u64
}

/// Whether the agent has work left on the direction.
pub(crate) fn is_left(notes: &DirNotes, agent: RealPid) -> bool
    ensures { result ≡ words.is_left agent notes.now }
{
    if is_agent(notes.reader, agent) && reads_on(notes) {
        return true;
    }
    is_agent(notes.sender, agent) && !has_sent(notes)
}

/// Whether the agents have finished with the direction, or, where none drains it, all its bytes have reached
/// the receiver's queue.
pub(crate) fn is_finished(notes: &DirNotes, net: &Net) -> bool
    requires { notes.now.dir.side < 2 }
    ensures { result ≡ words.is_finished net.now.channels notes.now }
{
    if notes.sender.is_some() {
        return has_sent(notes) && !reads_on(notes);
    }
    let [sent, wire, _received] = net.counts(notes.dir);
    sent == 0 && wire == 0
}

/// Whether the agents of all directions have finished.
pub(crate) fn all_finished(all: &[DirNotes], net: &Net) -> bool
    requires { All (λ notes. notes.dir.side < 2) all.now }
    ensures { result ≡ words.is_done net.now.channels all.now }
{
    for notes in all {
        if !is_finished(notes, net) {
            return false;
        }
    }
    true
}
