// Traces that are replayed, or refused at a record.
use crate::asserting::holds;
use crate::process::{THREAD, regs_of, with_program};
use id_maps::ByPid;
use plain_machine::{Plain, PlainKernel};
use plain_replay::{ReplayFault, replay};
use std::alloc::{AllocError, Global};
use std::process::Abort;
use std::test::Fail;
use sys_abi::{Record, VPid};

/// Its thread runs to the call.
const RUNS: Record = Record::User {
    p: VPid(THREAD.0),
    t: THREAD,
    n: 5,
};

const CALLS: Record = Record::Call {
    p: VPid(THREAD.0),
    t: THREAD,
};

/// A call's error, as it stands in a0.
const ENOSYS: u32 = 0xFFFF_FFDA;

/// The start of a job of the process with the program alone.
fn start(alloc: Global) -> Result<Box<Plain>, AllocError> {
    let empty = Plain {
        kernel: PlainKernel::empty(alloc),
        users: ByPid::new(alloc),
    };
    let mut plain = Box::new(alloc, empty)?;
    add(alloc, &mut plain)?;
    Ok(plain)
}

fn add(alloc: Global, plain: &mut Plain) -> Result<(), AllocError> {
    plain.kernel.add_process(alloc, THREAD.0, 0)?;
    plain.users.insert(VPid(THREAD.0), with_program(alloc)?)?;
    Ok(())
}

/// Where the thread stands, and what is in its a0.
type Place = (u32, u32);

/// A trace, and the thread's place after it, or the number of its first record that is no step.
type Row = (&'static [Record], Result<Place, ReplayFault>);

fn place_in(plain: &Plain) -> Option<Place> {
    let regs = regs_of(plain.users.get(VPid(THREAD.0))?)?;
    Some((regs.pc, regs.x[10]))
}

/// Whether a replay ends so.
fn ends(found: Result<Plain, ReplayFault>, want: Result<Place, ReplayFault>) -> bool {
    match found {
        Ok(plain) => want.is_ok_and(|place| place_in(&plain) == Some(place)),
        Err(fault) => want == Err(fault),
    }
}

/// Each trace from the start of the job ends so.
fn replayed(rt: &(impl Abort + AllocGlobal), rows: &[Row]) -> Result<(), Fail> {
    let start = start(rt.alloc())?;
    for row in rows {
        holds(rt, ends(replay(rt.alloc(), &start, row.0), row.1));
    }
    Ok(())
}

static NOT_IMPLEMENTED: [Row; 1] = [(&[RUNS, CALLS], Ok((0x0001_0018, ENOSYS)))];

#[test]
fn a_call_that_is_not_implemented_answers_its_error(rt: HostRuntime) -> Result<(), Fail> {
    replayed(&rt, &NOT_IMPLEMENTED)
}

static NO_STEP: [Row; 2] = [
    (&[CALLS], Err(ReplayFault::Refused(0))),
    (&[RUNS, CALLS, CALLS], Err(ReplayFault::Refused(2))),
];

#[test]
fn a_call_is_no_step_before_the_thread_stands_at_it(rt: HostRuntime) -> Result<(), Fail> {
    replayed(&rt, &NO_STEP)
}
