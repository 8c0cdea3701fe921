// Images of a process with several threads, with waiters and saved contexts.
use crate::process_texts::Part::{ReturnPage, Threads, Words};
use crate::process_texts::{DEFAULT_ACTIONS, Image, Part};
use crate::reading::{Sight, assert_both_ways, assert_images_damaged};
use crate::shared_images::WITH_THREE_THREADS;
use std::test::Fail;

/// Process 40000 with a page alone. The count of its waiters, which comes next, is at 4497.
const ONE_PAGE: &[Part] = &[Words(&[40000, 0, 0, 1]), ReturnPage, DEFAULT_ACTIONS];

/// With two waiters, each a thread and an address, and then three threads.
static LISTS: Image = &[
    ONE_PAGE,
    &[
        Words(&[2, 40007, 0x1004, 40000, 0x1000]),
        Words(&[3]),
        Threads(&[(40000, 0), (40003, 2), (40007, 64)]),
    ],
];

static LISTS_SHOW: [Sight; 9] = [
    Sight::Pid(40000),
    Sight::Waiters(2),
    Sight::Waiter(0, 40007, 0x1004),
    Sight::Waiter(1, 40000, 0x1000),
    Sight::Threads(3),
    Sight::Thread(0, 40000, 0),
    Sight::Thread(1, 40003, 2),
    Sight::Thread(2, 40007, 64),
    Sight::Registers(1, 0, 80_006),
];

#[test]
fn threads_waiters_and_contexts_both_ways(rt: HostRuntime) -> Result<(), Fail> {
    assert_both_ways(&rt, LISTS, 13_665, WITH_THREE_THREADS, &LISTS_SHOW)
}

const THREE: Part = Threads(&[(40000, 0), (40003, 0), (40007, 0)]);

/// No thread, too few, more than there are, and more than there may be: damage at the count.
static DAMAGED_COUNTS: [(Image, u64); 4] = [
    (&[ONE_PAGE, &[Words(&[0, 0]), THREE]], 4501),
    (&[ONE_PAGE, &[Words(&[0, 2]), THREE]], 4501),
    (&[ONE_PAGE, &[Words(&[0, 4]), THREE]], 4501),
    (&[ONE_PAGE, &[Words(&[0, 65]), THREE]], 4501),
];

#[test]
fn damaged_counts_of_threads(rt: HostRuntime) -> Result<(), Fail> {
    assert_images_damaged(&rt, WITH_THREE_THREADS, &DAMAGED_COUNTS)
}

/// No waiter, and the count of three threads.
const OF_THREE: Part = Words(&[0, 3]);

/// The first two change places, the last two do, a thread that the process has not, and 65 contexts.
static DAMAGED_THREADS: [(Image, u64); 6] = [
    (
        &[
            ONE_PAGE,
            &[OF_THREE, Threads(&[(40003, 0), (40000, 0), (40007, 0)])],
        ],
        4505,
    ),
    (
        &[
            ONE_PAGE,
            &[OF_THREE, Threads(&[(40000, 0), (40007, 0), (40003, 0)])],
        ],
        4649,
    ),
    (
        &[
            ONE_PAGE,
            &[OF_THREE, Threads(&[(40000, 0), (40004, 0), (40007, 0)])],
        ],
        4649,
    ),
    (
        &[
            ONE_PAGE,
            &[OF_THREE, Threads(&[(40000, 0), (40003, 0), (40006, 0)])],
        ],
        4793,
    ),
    (
        &[
            ONE_PAGE,
            &[OF_THREE, Threads(&[(40000, 65), (40003, 0), (40007, 0)])],
        ],
        4645,
    ),
    (
        &[
            ONE_PAGE,
            &[OF_THREE, Threads(&[(40000, 1), (40003, 65), (40007, 0)])],
        ],
        4921,
    ),
];

#[test]
fn damaged_threads(rt: HostRuntime) -> Result<(), Fail> {
    assert_images_damaged(&rt, WITH_THREE_THREADS, &DAMAGED_THREADS)
}

/// A waiter that is no thread, the first one and a later one, one that waits twice, and a count that promises
/// more waiters than there are: the threads' count is no thread.
static DAMAGED_WAITERS: [(Image, u64); 4] = [
    (
        &[ONE_PAGE, &[Words(&[2, 40001, 0, 40003, 0, 3]), THREE]],
        4501,
    ),
    (
        &[ONE_PAGE, &[Words(&[2, 40003, 0, 40008, 0, 3]), THREE]],
        4509,
    ),
    (
        &[ONE_PAGE, &[Words(&[2, 40003, 0, 40003, 4, 3]), THREE]],
        4509,
    ),
    (
        &[ONE_PAGE, &[Words(&[3, 40003, 0, 40000, 0, 3]), THREE]],
        4517,
    ),
];

#[test]
fn damaged_waiters(rt: HostRuntime) -> Result<(), Fail> {
    assert_images_damaged(&rt, WITH_THREE_THREADS, &DAMAGED_WAITERS)
}
