// Tables of steps, and the function that follows one.
use crate::kernels::{Call, Caller, Change, Look, first_process};
use plain_tables::answer::Attempt;
use std::alloc::{AllocError, AllocGlobal};
use std::process::Abort;
use std::test::Fail;
use sys_abi::Reply;

/// What a test does with a kernel part, and what comes of it.
pub enum Step {
    /// The test puts something in.
    Put(Change),
    /// A call, and what it answers.
    Ask(Call, Reply),
    /// What is to be seen then.
    See(Look),
}

/// The answer of a call that needn't wait.
fn reply_of(attempt: Attempt) -> Option<Reply> {
    match attempt {
        Attempt::Gives(answer) => Some(answer.reply),
        Attempt::Fails(error) => Some(Reply::Error(error)),
        Attempt::NotReady => None,
    }
}

/// Whether the step comes to what it says.
fn comes(caller: &mut Caller, step: &Step) -> Result<bool, AllocError> {
    match step {
        Step::Put(change) => {
            caller.put(change)?;
            Ok(true)
        }
        Step::Ask(call, reply) => Ok(reply_of(caller.ask(call)?) == Some(*reply)),
        Step::See(look) => Ok(caller.shows(look)),
    }
}

/// How many steps come to what they say, up to the first that doesn't.
fn count_right(caller: &mut Caller, steps: &[Step]) -> Result<usize, AllocError> {
    for (number, step) in steps.iter().enumerate() {
        if !comes(caller, step)? {
            return Ok(number);
        }
    }
    Ok(steps.len())
}

/// The steps of a first process, one after the other, all come to what they say.
pub fn follow(rt: &(impl Abort + AllocGlobal), steps: &[Step]) -> Result<(), Fail> {
    let mut caller = first_process(rt.alloc())?;
    assert_eq!(rt; count_right(&mut caller, steps)?, steps.len());
    Ok(())
}
