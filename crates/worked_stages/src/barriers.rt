//! Requests of one member and of two.
use crate::checks::holds;
use barrier_core::{Barrier, MEMBER_LIMIT, Message, Stage};
use std::alloc::{AllocError, Global};
use std::process::Abort;
use std::test::Fail;
use sys_abi::VPid;

const FIRST: VPid = VPid(40000);

const CHILD: VPid = VPid(40001);

/// A call, and what it answers.
enum Step {
    Ask(&'static [VPid], bool),
    Reached(VPid, Stage, bool),
    Awaits(VPid, Stage, bool),
    Released(Option<Stage>),
    /// The only member reaches the stage, and takes its message once.
    GoesOn(Stage, Message),
    Take(VPid, Option<Message>),
    Left(VPid),
    IsOpen(bool),
    /// No member is left, and the request is closed.
    Close,
}

/// Whether the call answers so.
fn answers(barrier: &mut Barrier, step: &Step) -> bool {
    match *step {
        Step::Ask(live, answer) => live.len() <= MEMBER_LIMIT && barrier.ask(live) == answer,
        Step::Reached(p, stage, answer) => barrier.reached(p, stage) == answer,
        Step::Awaits(p, stage, answer) => barrier.awaits(p, stage) == answer,
        Step::Released(answer) => barrier.released() == answer,
        Step::GoesOn(stage, message) => {
            barrier.reached(FIRST, stage)
                && barrier.take(FIRST) == Some(message)
                && barrier.take(FIRST).is_none()
        }
        Step::Take(p, answer) => barrier.take(p) == answer,
        Step::Left(p) => {
            barrier.left(p);
            true
        }
        Step::IsOpen(answer) => barrier.is_open() == answer,
        Step::Close => {
            let is_empty = barrier.is_empty();
            if is_empty {
                barrier.close();
            }
            is_empty
        }
    }
}

/// Each call of the barrier answers so.
fn go_on(rt: &impl Abort, barrier: &mut Barrier, steps: &[Step]) {
    for step in steps {
        holds(rt, answers(barrier, step));
    }
}

/// Each call of a barrier at rest answers so.
fn follow(rt: &(impl Abort + AllocGlobal), steps: &[Step]) -> Result<(), Fail> {
    let mut barrier = Barrier::new(rt.alloc())?;
    go_on(rt, &mut barrier, steps);
    Ok(())
}

static LAST_MEMBER: [Step; 8] = [
    Step::IsOpen(false),
    Step::Ask(&[FIRST], true),
    Step::Ask(&[FIRST], false),
    Step::Left(FIRST),
    Step::Released(None),
    Step::IsOpen(true),
    Step::Close,
    Step::IsOpen(false),
];

#[test]
fn the_last_member_leaves(rt: HostRuntime) -> Result<(), Fail> {
    follow(&rt, &LAST_MEMBER)
}

static ALL_REACH: [Step; 9] = [
    Step::Ask(&[CHILD, FIRST, CHILD], true),
    Step::Reached(FIRST, Stage::Elected, false),
    Step::Reached(FIRST, Stage::Suspended, true),
    Step::Released(None),
    Step::Awaits(FIRST, Stage::Suspended, false),
    Step::Awaits(CHILD, Stage::Suspended, true),
    Step::Reached(CHILD, Stage::Suspended, true),
    Step::Released(Some(Stage::Suspended)),
    Step::Reached(CHILD, Stage::Suspended, false),
];

#[test]
fn a_stage_is_released_once_all_have_reached_it(rt: HostRuntime) -> Result<(), Fail> {
    follow(&rt, &ALL_REACH)
}

static MESSAGES: [Step; 11] = [
    Step::Take(FIRST, None),
    Step::Ask(&[FIRST], true),
    Step::Take(CHILD, None),
    Step::Take(FIRST, Some(Message::Suspend)),
    Step::Take(FIRST, None),
    Step::GoesOn(Stage::Suspended, Message::Elect),
    Step::GoesOn(Stage::Elected, Message::Drain),
    Step::GoesOn(Stage::Drained, Message::Write),
    Step::GoesOn(Stage::Written, Message::Refill),
    Step::GoesOn(Stage::Refilled, Message::Resume),
    Step::Released(Some(Stage::Refilled)),
];

#[test]
fn each_message_comes_once(rt: HostRuntime) -> Result<(), Fail> {
    follow(&rt, &MESSAGES)
}

/// A request of one process, of which a child enters at once.
fn with_child(rt: &impl Abort, alloc: Global) -> Result<Barrier, AllocError> {
    let mut barrier = Barrier::new(alloc)?;
    let asked = barrier.ask(&[FIRST]);
    barrier.joined(CHILD);
    holds(rt, asked);
    Ok(barrier)
}

static HELD_UP: [Step; 5] = [
    Step::Reached(FIRST, Stage::Suspended, true),
    Step::Released(None),
    Step::Reached(CHILD, Stage::Suspended, true),
    Step::Released(Some(Stage::Suspended)),
    Step::Reached(CHILD, Stage::Suspended, false),
];

#[test]
fn a_child_holds_the_barrier_up(rt: HostRuntime) -> Result<(), Fail> {
    let mut barrier = with_child(&rt, rt.alloc())?;
    go_on(&rt, &mut barrier, &HELD_UP);
    Ok(())
}
