// The lines of a log, and after which records a checkpoint is asked for.
ghost use Rattle.std.specs.Prelude.{◌<◌, IfSome};

use crate::asserting::{holds, same_bytes};
use std::process::Abort;
use sys_abi::{Cause, ConnId, Dir, Fd, Kind, Record, Tid, VPid};
use trace_log::{Schedule, Tally, log_text};

const PROCESS: VPid = VPid(40000);

const DRAINED: Record = Record::Drained {
    dir: Dir {
        conn: ConnId {
            pid: PROCESS,
            num: 1,
        },
        side: 0,
    },
    n: 65536,
};

/// Seven checkpoints, the third of which drains twice.
static CHECKPOINTS: [Record; 10] = [
    Record::Refused {
        cause: Cause::Unsupported {
            p: VPid(40001),
            fd: Fd(5),
            kind: Kind::Datagram,
        },
    },
    Record::Refused {
        cause: Cause::DiskFault,
    },
    Record::Cut { generation: 1 },
    DRAINED,
    DRAINED,
    Record::Complete { generation: 1 },
    Record::Refused {
        cause: Cause::Unsupported {
            p: PROCESS,
            fd: Fd(3),
            kind: Kind::Counter,
        },
    },
    Record::Refused {
        cause: Cause::Memory,
    },
    Record::Complete { generation: 2 },
    Record::Lapsed,
];

const LINES: &str = "checkpoint 1 refused: process 40001 descriptor 5 is a datagram pair
checkpoint 2 refused: disk fault
checkpoint 3 complete: generation 1, drained 131072
checkpoint 4 refused: process 40000 descriptor 3 is an event counter
checkpoint 5 refused: memory
checkpoint 6 complete: generation 2, drained 0
checkpoint 7 lapsed
";

#[test]
fn lines_of_a_log(rt: HostRuntime) {
    let text = log_text(rt.alloc(), &CHECKPOINTS).expect(&rt, "memory");
    same_bytes(&rt, text.as_slice(), LINES.as_bytes());
}

const CALL: Record = Record::Call {
    p: PROCESS,
    t: Tid(40000),
};

/// A record, and what holds after it.
enum Step {
    /// A record of work. The schedule then asks, or doesn't.
    Work(bool),
    /// A cut of this generation, which then is the greatest, and unfinished.
    Cut(u64),
    /// The set of this generation is complete. So many records of work came before.
    Complete(u64, u64),
}

/// Whether that holds after the record.
fn answers(schedule: Schedule, tally: &mut Tally, step: &Step) -> bool
    requires { IfSome schedule.every (λ every. 0 < every) }
{
    if tally.work == u64::MAX {
        return false;
    }
    match *step {
        Step::Work(asks) => {
            tally.pass(&CALL);
            schedule.asks(*tally) == asks
        }
        Step::Cut(generation) => {
            tally.pass(&Record::Cut { generation });
            tally.greatest == generation && tally.is_unfinished
        }
        Step::Complete(generation, work) => {
            tally.pass(&Record::Complete { generation });
            !tally.is_unfinished && tally.work == work
        }
    }
}

/// It holds after each record of a run.
fn follow(rt: &impl Abort, schedule: Schedule, steps: &[Step])
    requires { IfSome schedule.every (λ every. 0 < every) }
{
    let mut tally = schedule.first_tally();
    for step in steps {
        holds(rt, answers(schedule, &mut tally, step));
    }
}

const EVERY_SECOND: Schedule = Schedule {
    every: Some(2),
    opening: 7,
};

static SECONDS: [Step; 6] = [
    Step::Work(false),
    Step::Work(true),
    Step::Work(false),
    Step::Work(true),
    Step::Cut(8),
    Step::Complete(8, 4),
];

#[test]
fn every_second_work_record_asks(rt: HostRuntime) {
    follow(&rt, EVERY_SECOND, &SECONDS);
}

const SPENT: Schedule = Schedule {
    every: Some(1),
    opening: u64::MAX - 1,
};

#[test]
fn no_generation_is_left_to_ask_for(rt: HostRuntime) {
    follow(&rt, SPENT, &[Step::Work(false)]);
}
