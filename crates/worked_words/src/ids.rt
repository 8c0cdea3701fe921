// Copies of numbers, pages and transfers.
use crate::asserting::{holds, is_copied, same_bytes};
use sys_abi::{
    ConnId, DescId, Dir, Fd, Page, RealAddr, RealPid, Signal, Slot, Tid, Transfer, VPid, VirtAddr,
};
use views::duplicate::Duplicate;

#[test]
fn ids_of_processes_and_channels_are_copied(rt: HostRuntime) {
    let pid = VPid(2);
    let conn = ConnId { pid, num: 4 };
    is_copied(&rt, pid);
    is_copied(&rt, Tid(3));
    is_copied(&rt, Fd(4));
    is_copied(&rt, Signal(10));
    is_copied(&rt, Slot { pid, fd: 3 });
    is_copied(&rt, conn);
    is_copied(&rt, DescId { pid, num: 5 });
    is_copied(&rt, Dir { conn, side: 1 });
}

#[test]
fn numbers_of_nodes_and_hosts_are_copied(rt: HostRuntime) {
    is_copied(&rt, RealPid { node: 1, pid: 700 });
    is_copied(&rt, RealAddr { node: 1, port: 80 });
    is_copied(&rt, VirtAddr { host: 1, port: 80 });
}

#[test]
fn pages(rt: HostRuntime) {
    let mut page = Page::of_slice(rt.alloc(), [0x5A; 4096].as_slice()).expect(&rt, "memory");
    let copy = page.duplicate(rt.alloc()).expect(&rt, "memory");
    page.set_byte(7, 1);
    same_bytes(&rt, copy.as_slice(), &[0x5A; 4096]);
    holds(&rt, page.byte(6) == 0x5A && page.byte(7) == 1);
    let zeroed = Page::zeroed(rt.alloc()).expect(&rt, "memory");
    same_bytes(&rt, zeroed.as_slice(), &[0; 4096]);
}

#[test]
fn transfers(rt: HostRuntime) {
    let mut transfer = Transfer::new(rt.alloc()).expect(&rt, "memory");
    transfer.put(b"hello");
    same_bytes(&rt, transfer.as_slice(), b"hello");
}
