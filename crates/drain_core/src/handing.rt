//! What a drain gives when it is done.
ghost use Rattle.std.specs.Prelude.{◌≡◌, ◌+◌, ◌<◌, ◌≤◌, ◌++◌, map as each, length, All};
ghost use Rattle.std.specs.Option.{option_to_list};
ghost use Rattle.wire_net.specs.Reserves.{reserve};
ghost use Rattle.drain_core.specs.Drains.{Fits, IsNoted, IsInStep};
ghost use Rattle.drain_core.specs.Openings as words;

use sys_abi::Transfer;
use wire_net::{DirBytes, DirNotes, Net, Room};

/// The list of a direction: what its agent read, or, where no agent did, what can be read. None where its
/// channel is not there.
fn take_list(notes: &mut DirNotes, net: &Net, transfer: &mut Transfer) -> Option<DirBytes>
    requires noted { IsNoted notes.old }
    requires fits { IsInStep net.now.channels notes.old }
    ensures list { result ≡ words.list_of net.now.channels notes.old }
    ensures emptied { notes.new ≡ words.emptied notes.old }
{
    if notes.sender.is_some() {
        return Some(DirBytes {
            dir: notes.dir,
            bytes: notes.drained.take(),
            in_place: false,
        });
    }
    if !net.has(notes.dir.conn) {
        let _nothing = notes.drained.take();
        return None;
    }
    net.peek(notes.dir, transfer);
    notes.drained.put(transfer.as_slice());
    Some(DirBytes {
        dir: notes.dir,
        bytes: notes.drained.take(),
        in_place: true,
    })
}

/// Puts a list behind those that are there, if it is one.
fn put_list(lists: &mut Room<DirBytes>, list: Option<DirBytes>)
    requires { length lists.old.items < lists.old.room }
    ensures { lists.new ≡ reserve (lists.old.items ++ option_to_list list) lists.old.room }
{
    if let Some(one) = list {
        lists.push(one);
    }
}

/// Puts the lists of all directions behind those that are there.
pub(crate) fn hand_out(
    all: &mut [DirNotes],
    net: &Net,
    transfer: &mut Transfer,
    lists: &mut Room<DirBytes>,
)
    requires fits { Fits net.now.channels all.old }
    requires room { length lists.old.items + length all.old ≤ lists.old.room }
    ensures lists { lists.new ≡ reserve (lists.old.items ++ words.lists_of net.now.channels all.old) lists.old.room }
    ensures emptied { all.new ≡ each words.emptied all.old }
{
    for notes in all.iter_mut() {
        let list = take_list(notes, net, transfer);
        put_list(lists, list);
    }
}
