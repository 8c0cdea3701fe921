// Calls that a process answers alone, with memory to spare: pages and waiters at values worked out by hand.
use crate::guests::follow;
use crate::steps::Step;
use call_table::Request;
use std::test::Fail;

const MORE: Request = Request::Brk { address: 0x12001 };

const LESS: Request = Request::Brk { address: 0x11000 };

/// Two pages at the first place for mappings, to read and to write.
const MAP: Request = Request::Mmap {
    address: 0,
    length: 5000,
    protection: 3,
    flags: 0x22,
    fd: 0xFFFF_FFFF,
    offset: 0,
};

/// The second of them.
const UNMAP: Request = Request::Munmap {
    address: 0x4000_1000,
    length: 1,
};

/// Waits on the first word of the file, which is as expected.
const WAIT: Request = Request::Futex {
    address: 0x10000,
    operation: 128,
    value: 0x464C_457F,
    timeout: 0,
};

const WAKE: Request = Request::Futex {
    address: 0x10000,
    operation: 129,
    value: 1,
    timeout: 0,
};

static HEAP_AND_MAPPINGS: [Step; 8] = [
    Step::Local(MORE),
    Step::Pages(68),
    Step::Local(MAP),
    Step::Pages(70),
    Step::Local(UNMAP),
    Step::Pages(69),
    Step::Local(LESS),
    Step::Pages(67),
];

#[test]
fn the_heap_and_mappings_come_and_go(rt: HostRuntime) -> Result<(), Fail> {
    follow(&rt, &HEAP_AND_MAPPINGS)
}

static WAITING: [Step; 4] = [
    Step::Local(WAIT),
    Step::Waiters(1),
    Step::Local(WAKE),
    Step::Waiters(0),
];

#[test]
fn a_thread_waits_and_is_woken(rt: HostRuntime) -> Result<(), Fail> {
    follow(&rt, &WAITING)
}
