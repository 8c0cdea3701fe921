// The table of channels, addresses and makers.
use crate::asserting::holds;
use conn_table::{Conn, ConnFault, ConnTable};
use std::alloc::AllocGlobal;
use std::process::Abort;
use sys_abi::{ConnId, DescId, Fd, Kind, Maker, VPid, VirtAddr};

const FIRST: VPid = VPid(40000);

const SERVER: VirtAddr = VirtAddr { host: 1, port: 80 };

const UNBOUND: VirtAddr = VirtAddr { host: 1, port: 0 };

const OTHER_HOST: VirtAddr = VirtAddr { host: 0, port: 80 };

const CLIENT: VirtAddr = VirtAddr {
    host: 0,
    port: 32768,
};

const DESCRIPTION: DescId = DescId { pid: FIRST, num: 0 };

const SECOND_CHANNEL: ConnId = ConnId { pid: FIRST, num: 2 };

const FIFTH_CHANNEL: ConnId = ConnId { pid: FIRST, num: 5 };

/// The channel of this name, with both ends open.
fn internet(id: ConnId) -> Conn {
    Conn {
        id,
        kind: 1,
        addr: [Some(CLIENT), Some(SERVER)],
        open_ends: [true, true],
    }
}

/// Drops an end, and tells the ends that are open then, if the channel is still there.
fn drop_end(table: &mut ConnTable, id: ConnId, side: u8) -> Option<[bool; 2]> {
    table.drop_end(id, side);
    match table.get(id) {
        Some(channel) => Some(channel.open_ends),
        None => None,
    }
}

/// Whether a maker is set, set anew and dropped.
fn changes_maker(table: &mut ConnTable) -> bool {
    let is_set = table.maker(FIRST).is_none()
        && table.set_maker(FIRST, Maker { host: 3, made: 0 }).is_ok()
        && table.set_maker(FIRST, Maker { host: 3, made: 1 }).is_ok()
        && table.maker(FIRST) == Some(Maker { host: 3, made: 1 });
    table.drop_maker(FIRST);
    is_set && table.maker(FIRST).is_none()
}

static ROWS: [(VPid, Fd, Kind); 4] = [
    (VPid(40001), Fd(0), Kind::Counter),
    (FIRST, Fd(7), Kind::Datagram),
    (FIRST, Fd(3), Kind::Stream),
    (FIRST, Fd(4), Kind::Counter),
];

/// Whether the least row of those that are not supported is named, and none where all are.
fn names_least(table: &ConnTable) -> bool {
    table.first_unsupported(&ROWS) == Some((FIRST, Fd(4), Kind::Counter))
        && table.first_unsupported(&ROWS[2..3]).is_none()
}

/// A call or some of them, and what they answer or leave.
enum Step {
    /// A new channel of this name.
    Add(ConnId, Result<(), ConnFault>),
    /// The channel is there as it was made.
    IsWhole(ConnId),
    Next(Option<ConnId>, Option<ConnId>),
    /// An end is dropped. These are open then, if the channel is still there.
    DropEnd(ConnId, u8, Option<[bool; 2]>),
    /// The name is set, and is there then.
    SetName(VirtAddr),
    /// The name is dropped, and none is there then.
    DropName,
    PortUsed(VirtAddr, bool),
    ChangesMaker,
    NamesLeast,
}

/// Whether they answer so.
fn answers(table: &mut ConnTable, step: &Step) -> bool {
    match *step {
        Step::Add(id, answer) => table.add(internet(id)) == answer,
        Step::IsWhole(id) => table.get(id).copied() == Some(internet(id)),
        Step::Next(last, answer) => table.next_conn(last) == answer,
        Step::DropEnd(id, side, ends) => drop_end(table, id, side) == ends,
        Step::SetName(name) => {
            table.set_name(DESCRIPTION, name).is_ok() && table.name(DESCRIPTION) == Some(name)
        }
        Step::DropName => {
            table.drop_name(DESCRIPTION);
            table.name(DESCRIPTION).is_none()
        }
        Step::PortUsed(name, answer) => table.port_used(name) == answer,
        Step::ChangesMaker => changes_maker(table),
        Step::NamesLeast => names_least(table),
    }
}

/// Each call of a new table answers so.
fn follow(rt: &(impl Abort + AllocGlobal), steps: &[Step]) {
    let mut table = ConnTable::new(rt.alloc());
    for step in steps {
        holds(rt, answers(&mut table, step));
    }
}

#[rattlefmt::skip]
static COME_AND_GO: [Step; 10] = [
    Step::Add(SECOND_CHANNEL, Ok(())), Step::Add(SECOND_CHANNEL, Err(ConnFault::Taken)),
    Step::Add(FIFTH_CHANNEL, Ok(())), Step::IsWhole(SECOND_CHANNEL),
    Step::Next(None, Some(SECOND_CHANNEL)), Step::Next(Some(SECOND_CHANNEL), Some(FIFTH_CHANNEL)),
    Step::Next(Some(FIFTH_CHANNEL), None), Step::DropEnd(SECOND_CHANNEL, 0, Some([false, true])),
    Step::DropEnd(SECOND_CHANNEL, 2, Some([false, true])), Step::DropEnd(SECOND_CHANNEL, 1, None),
];

#[test]
fn channels_come_and_go(rt: HostRuntime) {
    follow(&rt, &COME_AND_GO);
}

#[rattlefmt::skip]
static PORT_USED: [Step; 9] = [
    Step::PortUsed(SERVER, false), Step::SetName(SERVER), Step::PortUsed(SERVER, true), Step::DropName,
    Step::PortUsed(SERVER, false), Step::Add(SECOND_CHANNEL, Ok(())),
    Step::DropEnd(SECOND_CHANNEL, 1, Some([true, false])), Step::PortUsed(SERVER, true),
    Step::PortUsed(OTHER_HOST, false),
];

#[test]
fn a_port_is_used_by_ends_and_names(rt: HostRuntime) {
    follow(&rt, &PORT_USED);
}

static BOUND: [Step; 4] = [
    Step::SetName(UNBOUND),
    Step::PortUsed(SERVER, false),
    Step::SetName(SERVER),
    Step::PortUsed(UNBOUND, false),
];

#[test]
fn a_socket_has_port_0_until_it_is_bound(rt: HostRuntime) {
    follow(&rt, &BOUND);
}

#[test]
fn makers_are_set_and_changed(rt: HostRuntime) {
    follow(&rt, &[Step::ChangesMaker]);
}

#[test]
fn the_least_unsupported_row_is_named(rt: HostRuntime) {
    follow(&rt, &[Step::NamesLeast]);
}
