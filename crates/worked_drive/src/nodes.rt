//! Two processes on two hosts, each on a node of its own.
ghost use Rattle.std.specs.Prelude.{◌≡◌, []};

use crate::asserts::holds;
use crate::benches::{Bench, Outcome};
use drive::{RunEnd, RunStatus};
use std::alloc::Global;
use std::test::Fail;
use sys_abi::RealPid;

/// Writes its own number on the console, and then reads on a stream pair on which nothing comes.
const FIRST: &str = " addi sp, sp, -32\n\
    li a7, 172\n\
    ecall\n\
    sw a0, 0(sp)\n\
    li a0, 1\n\
    mv a1, sp\n\
    li a2, 4\n\
    li a7, 64\n\
    ecall\n\
    li a0, 1\n\
    li a1, 1\n\
    li a2, 0\n\
    mv a3, sp\n\
    li a7, 199\n\
    ecall\n\
    lw a0, 0(sp)\n\
    addi a1, sp, 8\n\
    li a2, 1\n\
    li a7, 63\n\
    ecall\n";

/// Binds port 0 of a socket, writes the socket's address on the console, and then does as the other one.
const SECOND: &str = " addi sp, sp, -32\n\
    li a0, 2\n\
    li a1, 1\n\
    li a2, 0\n\
    li a7, 198\n\
    ecall\n\
    mv s0, a0\n\
    li t0, 2\n\
    sw t0, 0(sp)\n\
    sw zero, 4(sp)\n\
    sw zero, 8(sp)\n\
    sw zero, 12(sp)\n\
    mv a1, sp\n\
    li a2, 16\n\
    li a7, 200\n\
    ecall\n\
    li t0, 16\n\
    sw t0, 16(sp)\n\
    mv a0, s0\n\
    mv a1, sp\n\
    addi a2, sp, 16\n\
    li a7, 204\n\
    ecall\n\
    li a0, 1\n\
    mv a1, sp\n\
    li a2, 16\n\
    li a7, 64\n\
    ecall\n\
    li a7, 172\n\
    ecall\n\
    sw a0, 0(sp)\n\
    li a0, 1\n\
    mv a1, sp\n\
    li a2, 4\n\
    li a7, 64\n\
    ecall\n\
    li a0, 1\n\
    li a1, 1\n\
    li a2, 0\n\
    mv a3, sp\n\
    li a7, 199\n\
    ecall\n\
    lw a0, 0(sp)\n\
    addi a1, sp, 8\n\
    li a2, 1\n\
    li a7, 63\n\
    ecall\n";

/// The number 40000; the family 2, port 32768, 10.0.0.2 and eight zeros; the number 40001.
const CONSOLE: [u8; 24] = [
    0x40, 0x9C, 0, 0, 2, 0, 0x80, 0, 0x0A, 0, 0, 2, 0, 0, 0, 0, 0, 0, 0, 0, 0x41, 0x9C, 0, 0,
];

/// The first number that each node hands out.
const ON_NODE_0: RealPid = RealPid {
    node: 0,
    pid: 1_000,
};

const ON_NODE_1: RealPid = RealPid {
    node: 1,
    pid: 1_000,
};

/// Runs both programs. Whether they get stuck, and each has the first number of its node.
fn have_numbers(alloc: Global, bench: &mut Bench) -> Result<bool, Fail>
    requires { bench.old.trace.records ≡ [] }
{
    let outcome = bench.launch(
        alloc,
        &["launch", "--nodes", "2", "0:a.elf", "1:b.elf"],
        &[("a.elf", FIRST), ("b.elf", SECOND)],
        None,
    )?;
    Ok(are_numbered(&outcome))
}

fn are_numbered(outcome: &Outcome) -> bool {
    let ids = &outcome.system.system().ids;
    outcome.status == RunStatus::Ended(RunEnd::Stuck)
        && ids.real_pid(40_000) == Ok(ON_NODE_0)
        && ids.real_pid(40_001) == Ok(ON_NODE_1)
}

#[test]
fn each_node_has_numbers_of_its_own(rt: HostRuntime) -> Result<(), Fail> {
    let mut bench = Bench::new(rt.alloc())?;
    holds(&rt, have_numbers(rt.alloc(), &mut bench)?);
    holds(&rt, bench.console.bytes() == CONSOLE.as_slice());
    Ok(())
}
