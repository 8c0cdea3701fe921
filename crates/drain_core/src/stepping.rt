//! A step of an agent on all directions.
ghost use Rattle.std.specs.Prelude.{◌≡◌};
ghost use Rattle.drain_core.specs.Drains as words;

use crate::notes::step_on;
use sys_abi::{RealPid, Transfer};
use wire_net::{DirNotes, Net};

/// One step of an agent on each direction. Answers whether it moved bytes.
pub(crate) fn step_all(
    all: &mut [DirNotes],
    net: &mut Net,
    transfer: &mut Transfer,
    agent: RealPid,
) -> bool
    requires { words.Fits net.old.channels all.old }
    ensures moved { result ≡ words.moves_any agent net.old.channels all.old }
    ensures notes { all.new ≡ words.notes_after agent net.old.channels all.old }
    ensures net { net.new ≡ record net.old { channels = words.channels_after agent all.old net.old.channels } }
{
    let mut moved = false;
    for notes in all.iter_mut() {
        moved |= step_on(notes, net, transfer, agent);
    }
    moved
}
