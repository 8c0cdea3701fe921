// Virtual numbers and addresses beside real ones.
use crate::asserting::holds;
use sys_abi::{RealAddr, RealPid, VirtAddr};
use virt_ids::{IdFault, Ids};

const FIRST: RealPid = RealPid { node: 0, pid: 1000 };

const SECOND: RealPid = RealPid { node: 0, pid: 1001 };

const OTHER_NODE: RealPid = RealPid { node: 1, pid: 1000 };

const ADDRESS: VirtAddr = VirtAddr { host: 0, port: 80 };

const NEXT_ADDRESS: VirtAddr = VirtAddr { host: 0, port: 81 };

const PORT: RealAddr = RealAddr {
    node: 0,
    port: 32768,
};

fn are_paired(ids: &mut Ids) -> bool {
    let are_added = ids.add_pid(40000, FIRST).is_ok()
        && ids.add_pid(40001, OTHER_NODE).is_ok()
        && ids.add_pid(40000, SECOND) == Err(IdFault::Taken)
        && ids.add_pid(40002, FIRST) == Err(IdFault::Taken)
        && ids.real_pid(40001) == Ok(OTHER_NODE)
        && ids.virt_pid(FIRST) == Ok(40000);
    ids.drop_pid(40000);
    let is_free = ids.real_pid(40000) == Err(IdFault::Unknown)
        && ids.virt_pid(FIRST) == Err(IdFault::Unknown)
        && ids.add_pid(40002, FIRST).is_ok();
    ids.whole();
    are_added && is_free && ids.virt_pid(FIRST) == Ok(40002)
}

#[test]
fn numbers_are_paired_both_ways(rt: HostRuntime) {
    let mut ids = Ids::new(rt.alloc());
    holds(&rt, are_paired(&mut ids));
}

fn are_addresses_paired(ids: &mut Ids) -> bool {
    let are_added = ids.add_addr(ADDRESS, PORT).is_ok()
        && ids.add_addr(NEXT_ADDRESS, PORT) == Err(IdFault::Taken)
        && ids.real_addr(ADDRESS) == Ok(PORT)
        && ids.virt_addr(PORT) == Ok(ADDRESS);
    ids.drop_addr(ADDRESS);
    ids.drop_addr(ADDRESS);
    are_added
        && ids.virt_addr(PORT) == Err(IdFault::Unknown)
        && ids.add_addr(NEXT_ADDRESS, PORT).is_ok()
        && ids.virt_addr(PORT) == Ok(NEXT_ADDRESS)
}

#[test]
fn addresses_are_paired_both_ways(rt: HostRuntime) {
    let mut ids = Ids::new(rt.alloc());
    holds(&rt, are_addresses_paired(&mut ids));
}
