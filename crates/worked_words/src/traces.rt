// The bytes of traces, and the places of those that are damaged: what no clause can say is that the
// formats are these.
use crate::asserting::{holds, same_bytes};
use std::alloc::{AllocError, Global};
use std::process::Abort;
use sys_abi::{Cause, ConnId, Dir, Fd, Kind, Record, Signal, Tid, VPid};
use trace_log::{Trace, TraceFault};

/// A `User` record of process and thread 40000 with 5 instructions, and its bytes.
const STEPS: Record = Record::User {
    p: VPid(40000),
    t: Tid(40000),
    n: 5,
};

const STEPS_BYTES: [u8; 16] = [1, 0, 0, 0, 0x40, 0x9C, 0, 0, 0x40, 0x9C, 0, 0, 5, 0, 0, 0];

/// Process 40001 is 0x9C41, thread 40002 is 0x9C42.
#[rattlefmt::skip]
const CALLS_CHANNELS_AND_SETS: [[u8; 16]; 7] = [
    [2, 0, 0, 0, 0x41, 0x9C, 0, 0, 0x42, 0x9C, 0, 0, 0, 0, 0, 0],
    [3, 31, 0, 0, 0x41, 0x9C, 0, 0, 0x42, 0x9C, 0, 0, 0, 0, 0, 0],
    [4, 1, 0, 0, 0x41, 0x9C, 0, 0, 7, 0, 0, 0, 0, 0, 1, 0],
    [5, 0, 0, 0, 0, 0, 0, 0, 2, 0, 0, 0, 1, 0, 0, 0],
    [6, 1, 0, 0, 0x41, 0x9C, 0, 0, 7, 0, 0, 0, 3, 0, 0, 0],
    [7, 1, 0, 0, 0x41, 0x9C, 0, 0, 7, 0, 0, 0, 3, 0, 0, 0],
    [8, 0, 0, 0, 0, 0, 0, 0, 2, 1, 0, 0, 0, 0, 0, 0],
];

#[rattlefmt::skip]
const WITHOUT_A_SET: [[u8; 16]; 5] = [
    [9, 1, 255, 0, 0x41, 0x9C, 0, 0, 5, 0, 0, 0, 0, 0, 0, 0],
    [9, 1, 3, 0, 0x41, 0x9C, 0, 0, 6, 0, 0, 0, 0, 0, 0, 0],
    [9, 2, 0, 0, 0, 0, 0, 0, 0, 0, 0, 0, 0, 0, 0, 0],
    [9, 3, 0, 0, 0, 0, 0, 0, 0, 0, 0, 0, 0, 0, 0, 0],
    [10, 0, 0, 0, 0, 0, 0, 0, 0, 0, 0, 0, 0, 0, 0, 0],
];

/// Each differs in one field from a record's bytes.
#[rattlefmt::skip]
static DAMAGED: [[u8; 16]; 20] = [
    // no such kind
    [0, 0, 0, 0, 0, 0, 0, 0, 0, 0, 0, 0, 0, 0, 0, 0],
    [11, 0, 0, 0, 0, 0, 0, 0, 0, 0, 0, 0, 0, 0, 0, 0],
    // a field that the kind doesn't use
    [1, 1, 0, 0, 0x40, 0x9C, 0, 0, 0x40, 0x9C, 0, 0, 5, 0, 0, 0],
    [1, 0, 1, 0, 0x40, 0x9C, 0, 0, 0x40, 0x9C, 0, 0, 5, 0, 0, 0],
    [2, 0, 0, 0, 0x40, 0x9C, 0, 0, 0x40, 0x9C, 0, 0, 1, 0, 0, 0],
    [3, 4, 0, 0, 0x40, 0x9C, 0, 0, 0x40, 0x9C, 0, 0, 0, 0, 0, 1],
    [4, 0, 0, 1, 0x40, 0x9C, 0, 0, 1, 0, 0, 0, 1, 0, 0, 0],
    [5, 0, 0, 0, 1, 0, 0, 0, 1, 0, 0, 0, 0, 0, 0, 0],
    [8, 1, 0, 0, 0, 0, 0, 0, 1, 0, 0, 0, 0, 0, 0, 0],
    [9, 1, 3, 0, 0x40, 0x9C, 0, 0, 5, 0, 0, 0, 1, 0, 0, 0],
    [9, 2, 3, 0, 0, 0, 0, 0, 0, 0, 0, 0, 0, 0, 0, 0],
    [9, 3, 0, 0, 1, 0, 0, 0, 0, 0, 0, 0, 0, 0, 0, 0],
    [10, 0, 0, 0, 0, 0, 0, 0, 0, 0, 0, 0, 0, 0, 0, 1],
    // no signal
    [3, 0, 0, 0, 0x40, 0x9C, 0, 0, 0x40, 0x9C, 0, 0, 0, 0, 0, 0],
    [3, 32, 0, 0, 0x40, 0x9C, 0, 0, 0x40, 0x9C, 0, 0, 0, 0, 0, 0],
    // no cause
    [9, 0, 0, 0, 0, 0, 0, 0, 0, 0, 0, 0, 0, 0, 0, 0],
    [9, 4, 0, 0, 0, 0, 0, 0, 0, 0, 0, 0, 0, 0, 0, 0],
    // no unsupported kind
    [9, 1, 3, 0, 0x40, 0x9C, 0, 0, 4, 0, 0, 0, 0, 0, 0, 0],
    [9, 1, 3, 0, 0x40, 0x9C, 0, 0, 7, 0, 0, 0, 0, 0, 0, 0],
    [9, 1, 3, 0, 0x40, 0x9C, 0, 0, 5, 1, 0, 0, 0, 0, 0, 0],
];

/// Why the bytes are no trace.
fn fault(alloc: Global, bytes: &[u8]) -> Option<TraceFault> {
    Trace::from_bytes(alloc, bytes).err()
}

/// Asserts that the trace is written as these bytes, and read from them.
fn assert_both_ways(rt: &(impl Abort + AllocGlobal), trace: &Trace, want: &[u8]) {
    let written = trace.to_bytes(rt.alloc()).expect(rt, "memory");
    same_bytes(rt, written.as_slice(), want);
    let read = Trace::from_bytes(rt.alloc(), want).expect(rt, "a trace");
    holds(rt, read.as_slice() == trace.as_slice());
}

#[test]
fn file_of_a_trace(rt: HostRuntime) {
    let alloc = rt.alloc();
    let mut trace = Trace::new(alloc);
    trace.reserve(2).expect(&rt, "memory");
    trace.append(STEPS);
    holds(&rt, trace.room() == 1);
    holds(&rt, trace.as_slice() == [STEPS].as_slice());
    assert_both_ways(&rt, &trace, &STEPS_BYTES);
    let short = fault(alloc, &STEPS_BYTES[..15]);
    holds(&rt, short == Some(TraceFault::Bad(0)));
    let cut_off = fault(alloc, &[STEPS_BYTES, STEPS_BYTES].as_flattened()[..31]);
    holds(&rt, cut_off == Some(TraceFault::Bad(16)));
}

const P: VPid = VPid(40001);

const DIR: Dir = Dir {
    conn: ConnId { pid: P, num: 7 },
    side: 1,
};

fn calls_channels_and_sets(alloc: Global) -> Result<Trace, AllocError> {
    let t = Tid(40002);
    let mut trace = Trace::new(alloc);
    trace.reserve(7)?;
    trace.append(Record::Call { p: P, t });
    trace.append(Record::Deliver {
        p: P,
        t,
        s: Signal(31),
    });
    trace.append(Record::Arrive { dir: DIR, n: 65536 });
    trace.append(Record::Cut {
        generation: 0x1_0000_0002,
    });
    trace.append(Record::Drained { dir: DIR, n: 3 });
    trace.append(Record::Refilled { dir: DIR, n: 3 });
    trace.append(Record::Complete { generation: 258 });
    Ok(trace)
}

#[test]
fn bytes_of_calls_channels_and_sets(rt: HostRuntime) {
    let trace = calls_channels_and_sets(rt.alloc()).expect(&rt, "memory");
    assert_both_ways(&rt, &trace, CALLS_CHANNELS_AND_SETS.as_flattened());
}

const DATAGRAM: Record = Record::Refused {
    cause: Cause::Unsupported {
        p: P,
        fd: Fd(255),
        kind: Kind::Datagram,
    },
};

const COUNTER: Record = Record::Refused {
    cause: Cause::Unsupported {
        p: P,
        fd: Fd(3),
        kind: Kind::Counter,
    },
};

fn without_a_set(alloc: Global) -> Result<Trace, AllocError> {
    let mut trace = Trace::new(alloc);
    trace.reserve(5)?;
    trace.append(DATAGRAM);
    trace.append(COUNTER);
    trace.append(Record::Refused {
        cause: Cause::DiskFault,
    });
    trace.append(Record::Refused {
        cause: Cause::Memory,
    });
    trace.append(Record::Lapsed);
    Ok(trace)
}

#[test]
fn bytes_of_checkpoints_without_a_set(rt: HostRuntime) {
    let trace = without_a_set(rt.alloc()).expect(&rt, "memory");
    assert_both_ways(&rt, &trace, WITHOUT_A_SET.as_flattened());
}

fn assert_bad_at(rt: &(impl Abort + AllocGlobal), damaged: &[u8; 16], place: u64) {
    let bytes = [STEPS_BYTES, *damaged, STEPS_BYTES];
    let found = fault(rt.alloc(), bytes.as_flattened());
    holds(rt, found == Some(TraceFault::Bad(place)));
}

fn assert_each_bad_at(rt: &(impl Abort + AllocGlobal), damages: &[[u8; 16]], place: u64) {
    for damaged in damages {
        assert_bad_at(rt, damaged, place);
    }
}

#[test]
fn damaged_records_are_bad_at_their_place(rt: HostRuntime) {
    assert_each_bad_at(&rt, &DAMAGED, 16);
}

/// Asserts what comes of each length of a trace's bytes.
fn assert_rests(rt: &(impl Abort + AllocGlobal), bytes: &[u8]) {
    for length in 0..=bytes.len() {
        let want = match length {
            0 | 16 | 32 => None,
            1..=15 => Some(TraceFault::Bad(0)),
            17..=31 => Some(TraceFault::Bad(16)),
            _ => Some(TraceFault::Bad(32)),
        };
        holds(rt, fault(rt.alloc(), &bytes[..length]) == want);
    }
}

#[test]
fn a_rest_is_bad_at_its_place(rt: HostRuntime) {
    let bytes = [STEPS_BYTES, STEPS_BYTES, STEPS_BYTES];
    assert_rests(&rt, &bytes.as_flattened()[..33]);
}
