//! How the notes on each direction begin: what was drained of a live one goes back.
ghost use Rattle.std.specs.Prelude.{◌≡◌, ◌≢◌, ◌<◌, ◌≤◌, ℕ, length, drop, slice_get, option_and_then, IfSome, All};
ghost use Rattle.sys_abi.specs.declared.identity.Dir.{Dir};
ghost use Rattle.wire_channels.specs.declared.limits.TheConstants.{QUEUE_LIMIT};
ghost use Rattle.wire_net.specs.CutRooms.{name_of, names_of, HasRoom};
ghost use Rattle.wire_net.specs.DrainedNets.{list_on};
ghost use Rattle.wire_net.specs.Ends.{agent_of, is_end_at};
ghost use Rattle.wire_net.specs.Noted.{Apart, dirs_of};
ghost use Rattle.wire_net.specs.Reserves.{reserve};
ghost use Rattle.refill_core.specs.Beginnings as words;

use sys_abi::Dir;
use wire_net::{AgentEnd, DirBytes, DirNotes, agent_of};

/// Where the list of a direction stands, if there is one. It is looked for from the place of the next list
/// on: those before are of other directions.
fn list_place(lists: &[DirBytes], next: usize, d: Dir) -> Option<usize>
    requires { list_on d (drop next lists.now) ≡ list_on d lists.now }
    ensures found { option_and_then (slice_get lists.now) result ≡ list_on d lists.now }
    ensures within { IfSome result (λ place. place < length lists.now) }
{
    for place in next..lists.len() {
        if lists[place].dir.cmp(&d).is_eq() {
            return Some(place);
        }
    }
    None
}

/// Where the next list stands once the direction has begun: behind the one at the place, if that is its own.
fn list_behind(lists: &[DirBytes], next: usize, d: Dir) -> usize
    ensures { (e : Dir) → e ≢ d → list_on e (drop result lists.now) ≡ list_on e (drop next lists.now) }
{
    if next >= lists.len() || lists[next].dir.cmp(&d).is_ne() {
        return next;
    }
    next + 1
}

/// Whether it is the end that sends the direction.
fn sends(end: &AgentEnd, d: Dir) -> bool
    ensures { result ≡ is_end_at d.conn d.side end.now }
{
    end.conn.pid.0 == d.conn.pid.0 && end.conn.num == d.conn.num && end.side == d.side
}

/// The ends that are left once the direction has begun: those behind the first one, if that sends it.
fn ends_behind(ends: &[AgentEnd], d: Dir) -> &[AgentEnd]
    ensures { (e : Dir) → e ≢ d → agent_of result.now e.conn e.side ≡ agent_of ends.now e.conn e.side }
{
    if ends.is_empty() || !sends(&ends[0], d) {
        return ends;
    }
    &ends[1..]
}

/// Forgets what was noted of a direction.
fn clear(notes: &mut DirNotes)
    requires { HasRoom notes.old }
    ensures { notes.new ≡ words.cleared (name_of notes.old) }
{
    let _nothing = notes.drained.take();
    notes.sender = None;
    notes.reader = None;
    notes.count = 0;
    notes.sent = 0;
    notes.read = 0;
}

/// Notes what agents send back of a direction, and takes the buffer of its list along.
fn give_back(notes: &mut DirNotes, list: &mut DirBytes, ends: &[AgentEnd])
    requires { length list.old.bytes ≤ QUEUE_LIMIT }
    ensures noted { notes.new ≡ words.with_list ends.now list.old.bytes notes.old }
    ensures list { list.new ≡ record list.old { bytes = notes.old.drained.items } }
{
    notes.sender = agent_of(ends, notes.dir.conn, notes.dir.side);
    notes.count = list.bytes.len() as u32;
    notes.drained.exchange(&mut list.bytes);
}

/// Begins the notes on a direction. Its list loses its bytes where agents send them back.
fn begin_on(notes: &mut DirNotes, lists: &mut [DirBytes], next: usize, ends: &[AgentEnd])
    requires room { HasRoom notes.old }
    requires ahead { list_on notes.old.dir (drop next lists.old) ≡ list_on notes.old.dir lists.old }
    requires few { IfSome (list_on notes.old.dir lists.old) (λ list. length list.bytes ≤ QUEUE_LIMIT) }
    ensures begun { notes.new ≡ words.begun_on ends.now (name_of notes.old) (list_on notes.old.dir lists.old) }

    // From each place on, the lists on other directions are as they were.
    ensures others { (k : ℕ) (d : Dir) → d ≢ notes.old.dir
        → list_on d (drop k lists.new) ≡ list_on d (drop k lists.old) }
{
    clear(notes);
    let Some(place) = list_place(lists, next, notes.dir) else {
        return;
    };
    if lists[place].in_place {
        return;
    }
    give_back(notes, &mut lists[place], ends);
}

/// Begins the notes on all directions. Lists and ends mostly stand in the order of the notes, so that each is
/// the next one.
pub(crate) fn begin_all(all: &mut [DirNotes], lists: &mut [DirBytes], ends: &[AgentEnd])
    requires room { All HasRoom all.old }
    requires apart { Apart (dirs_of all.old) }
    requires few { All (λ list. length list.bytes ≤ QUEUE_LIMIT) lists.old }
    ensures { all.new ≡ words.begun lists.old ends.now (names_of all.old) }
{
    let mut next = 0;
    let mut rest = ends;
    for notes in all.iter_mut() {
        let d = notes.dir;
        begin_on(notes, lists, next, rest);
        next = list_behind(lists, next, d);
        rest = ends_behind(rest, d);
    }
}
