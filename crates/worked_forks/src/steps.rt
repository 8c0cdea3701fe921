// Tables of steps, and the functions that follow them.
use crate::kernels::{
    Came, Change, Wait, cloned, clones, first_process, make_change, reaps, waits,
};
use crate::looks::{Look, shows};
use plain_machine::PlainKernel;
use std::alloc::{AllocError, AllocGlobal, Global};
use std::process::Abort;
use std::test::Fail;
use sys_abi::VPid;

/// What a test does with a kernel part, and what comes of it.
pub enum Step {
    /// A clone of a process with these flags, what it comes to, and the word that it writes.
    Clone(VPid, u32, Came, Option<u32>),
    /// So many clones of the first process with these flags, each of which gives a number.
    Clones(u32, u32),
    /// A wait of a process that writes nothing and takes nobody away, and what it comes to.
    Wait(VPid, Wait, Came),
    /// A wait of the first process for a child of this number, the child that is then gone, and its status.
    Reap(u32, u32, u32),
    Change(Change),
    See(Look),
}

/// Whether the step comes to what it says.
fn comes(alloc: Global, kernel: &mut PlainKernel, step: &Step) -> Result<bool, AllocError> {
    match *step {
        Step::Clone(p, flags, came, word) => {
            Ok(cloned(alloc, kernel, p, flags)? == (came, word))
        }
        Step::Clones(count, flags) => clones(alloc, kernel, count, flags),
        Step::Wait(p, wait, came) => waits(alloc, kernel, p, wait, came),
        Step::Reap(number, child, status) => reaps(alloc, kernel, number, child, status),
        Step::Change(ref what) => make_change(alloc, kernel, what),
        Step::See(ref look) => Ok(shows(kernel, look)),
    }
}

/// How many steps come to what they say, up to the first that doesn't.
fn count_right(
    alloc: Global,
    kernel: &mut PlainKernel,
    steps: &[Step],
) -> Result<usize, AllocError> {
    for (number, step) in steps.iter().enumerate() {
        if !comes(alloc, kernel, step)? {
            return Ok(number);
        }
    }
    Ok(steps.len())
}

/// The steps on a new kernel part with one process, one after the other, all come to what they say.
pub fn follow(rt: &(impl Abort + AllocGlobal), steps: &[Step]) -> Result<(), Fail> {
    let alloc = rt.alloc();
    let mut kernel = first_process(alloc)?;
    assert_eq!(rt; count_right(alloc, &mut kernel, steps)?, steps.len());
    Ok(())
}

/// The same of several tables, each on a kernel part of its own.
pub fn follow_each(rt: &(impl Abort + AllocGlobal), tables: &[&[Step]]) -> Result<(), Fail> {
    for steps in tables {
        follow(rt, steps)?;
    }
    Ok(())
}
