// Maps by each kind of number.
use crate::asserting::holds;
use id_maps::{ByAddress, ByConn, ByDesc, ByDir, ByName, ByPid, BySlot};
use sys_abi::{ConnId, DescId, Dir, Slot, VPid, VirtAddr};
use views::duplicate::Duplicate;
use views::list_of::ListOf;

const PROCESS: VPid = VPid(2);

const CHANNEL: ConnId = ConnId {
    pid: PROCESS,
    num: 4,
};

#[test]
fn processes(rt: HostRuntime) {
    let mut processes = ByPid::<u32>::new(rt.alloc());
    holds(&rt, processes.insert(PROCESS, 7) == Ok(None));
    holds(&rt, processes.insert(PROCESS, 8) == Ok(Some(7)));
    let copy = processes.duplicate(rt.alloc()).expect(&rt, "memory");
    holds(&rt, copy.get(PROCESS).copied() == Some(8));
}

#[test]
fn slots(rt: HostRuntime) {
    let slot = Slot {
        pid: PROCESS,
        fd: 3,
    };
    let mut slots = BySlot::<u32>::new(rt.alloc());
    holds(&rt, slots.insert(slot, 7) == Ok(None));
    let copy = slots.duplicate(rt.alloc()).expect(&rt, "memory");
    holds(&rt, copy.get(slot).copied() == Some(7));
}

#[test]
fn descriptions(rt: HostRuntime) {
    let description = DescId {
        pid: PROCESS,
        num: 4,
    };
    let mut descriptions = ByDesc::<u32>::new(rt.alloc());
    holds(&rt, descriptions.insert(description, 7) == Ok(None));
    let copy = descriptions.duplicate(rt.alloc()).expect(&rt, "memory");
    holds(&rt, copy.get(description).copied() == Some(7));
}

#[test]
fn channels(rt: HostRuntime) {
    let mut channels = ByConn::<u32>::new(rt.alloc());
    holds(&rt, channels.insert(CHANNEL, 7) == Ok(None));
    let copy = channels.duplicate(rt.alloc()).expect(&rt, "memory");
    holds(&rt, copy.get(CHANNEL).copied() == Some(7));
}

#[test]
fn directions(rt: HostRuntime) {
    let direction = Dir {
        conn: CHANNEL,
        side: 1,
    };
    let mut directions = ByDir::<u32>::new(rt.alloc());
    holds(&rt, directions.insert(direction, 7) == Ok(None));
    let copy = directions.duplicate(rt.alloc()).expect(&rt, "memory");
    holds(&rt, copy.get(direction).copied() == Some(7));
}

#[test]
fn addresses(rt: HostRuntime) {
    let address = VirtAddr { host: 1, port: 80 };
    let mut addresses = ByAddress::<u32>::new(rt.alloc());
    holds(&rt, addresses.insert(address, 7) == Ok(None));
    let copy = addresses.duplicate(rt.alloc()).expect(&rt, "memory");
    holds(&rt, copy.get(address).copied() == Some(7));
}

#[test]
fn names(rt: HostRuntime) {
    let mut names = ByName::<u32>::new(rt.alloc());
    let name = Vec::from_slice(rt.alloc(), b"log".as_slice()).expect(&rt, "memory");
    holds(&rt, names.insert(ListOf::from_vec(name), 7) == Ok(None));
    let copy = names.duplicate(rt.alloc()).expect(&rt, "memory");
    holds(&rt, copy.get(b"log".as_slice()).copied() == Some(7));
    holds(&rt, names.remove(b"lo".as_slice()).is_none());
    holds(&rt, names.remove(b"log".as_slice()) == Some(7));
}
