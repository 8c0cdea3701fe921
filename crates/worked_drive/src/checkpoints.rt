//! A checkpoint drains the channels and fills them again.
ghost use Rattle.std.specs.Prelude.{◌≡◌, ◌<◌, [], IfSome};

use crate::asserts::holds;
use crate::benches::{Bench, Outcome};
use drive::{RunEnd, RunStatus};
use std::alloc::Global;
use std::process::Abort;
use std::test::Fail;
use sys_abi::{ConnId, Dir, VPid};

/// Makes a stream pair, writes 7 bytes on side 0's end, reads 2 on side 1's end, and then reads on side 0's
/// end, on which nothing comes. Each of the first three calls makes two records of work.
const PAIR: &str = " addi sp, sp, -32\n\
    li a0, 1\n\
    li a1, 1\n\
    li a2, 0\n\
    mv a3, sp\n\
    li a7, 199\n\
    ecall\n\
    lw a0, 0(sp)\n\
    mv a1, sp\n\
    li a2, 7\n\
    li a7, 64\n\
    ecall\n\
    lw a0, 4(sp)\n\
    addi a1, sp, 8\n\
    li a2, 2\n\
    li a7, 63\n\
    ecall\n\
    lw a0, 0(sp)\n\
    addi a1, sp, 8\n\
    li a2, 10\n\
    li a7, 63\n\
    ecall\n";

/// The channel of the pair. The description of the console has number 0.
const CHANNEL: ConnId = ConnId {
    pid: VPid(40_000),
    num: 1,
};

const FROM_SIDE_0: Dir = Dir {
    conn: CHANNEL,
    side: 0,
};

const FROM_SIDE_1: Dir = Dir {
    conn: CHANNEL,
    side: 1,
};

/// The line of the one checkpoint.
const LINE: &str = "checkpoint 1 complete: generation 1, drained 5\n";

/// After six records of work, so right after the read of 2, and no other.
const ONE_CHECKPOINT: Option<u32> = Some(6);

/// Runs the program with a checkpoint after each so many records of work, if any. Whether it gets stuck,
/// with so many bytes carried from each side of the channel.
fn carries(
    alloc: Global,
    bench: &mut Bench,
    every: Option<u32>,
    carried: [u64; 2],
) -> Result<bool, Fail>
    requires every { IfSome every (λ every. 0 < every) }
    requires empty { bench.old.trace.records ≡ [] }
{
    let outcome = bench.launch(alloc, &["launch", "0:pair"], &[("pair", PAIR)], every)?;
    Ok(has_carried(&outcome, carried))
}

fn has_carried(outcome: &Outcome, carried: [u64; 2]) -> bool {
    let net = &outcome.system.system().kernel.net;
    outcome.status == RunStatus::Ended(RunEnd::Stuck)
        && net.carried(FROM_SIDE_0) == carried[0]
        && net.carried(FROM_SIDE_1) == carried[1]
}

/// The program runs so, and the log gets these lines.
fn runs(
    rt: &(impl Abort + AllocGlobal),
    every: Option<u32>,
    carried: [u64; 2],
    lines: &str,
) -> Result<(), Fail>
    requires { IfSome every (λ every. 0 < every) }
{
    let mut bench = Bench::new(rt.alloc())?;
    holds(rt, carries(rt.alloc(), &mut bench, every, carried)?);
    holds(rt, bench.log.bytes() == lines.as_bytes());
    Ok(())
}

/// Of side 0 come the 7 bytes, a cookie of 16, a frame of 4 without bytes, and the 5 bytes sent again. Of
/// side 1 come a cookie and a frame with the 5 bytes that its agent had drained.
#[test]
fn what_is_drained_is_sent_again(rt: HostRuntime) -> Result<(), Fail> {
    runs(&rt, ONE_CHECKPOINT, [32, 25], LINE)
}

#[test]
fn without_a_checkpoint_nothing_is_sent_again(rt: HostRuntime) -> Result<(), Fail> {
    runs(&rt, None, [7, 0], "")
}
