ghost use Rattle.std.specs.Prelude.{◌≡◌, ◌≤◌, ◌+◌, ◌&&◌, nat_le, not, is_some, length, Some, None, IfOk, if◌then◌else◌};
ghost use Rattle.std.specs.FinMap as map;
ghost use Rattle.sys_abi.specs.declared.transfer.TheConstants.{TRANSFER_LIMIT};
ghost use Rattle.plain_process.specs.Buffers.{lent};
ghost use Rattle.plain_process.specs.Put.{made_by};
ghost use Rattle.plain_process.specs.Put.{put as put_words};
ghost use Rattle.plain_machine.specs.Records as words;
ghost use Rattle.plain_machine.specs.Serve.{serve};
ghost use Rattle.plain_process.specs.Steps.{user_step};
ghost use Rattle.plain_process.specs.Delivered.{delivery_told};
ghost use Rattle.plain_replay.specs.Replays.{after_told, state_of};

use call_table::{Delivered, Request, is_local};
use id_maps::ByPid;
use plain_calls::delivering::{deliver, look, traps_with};
use plain_calls::forking::child_of;
use plain_calls::local::local_row;
use plain_calls::putting::{put, put_fault};
use plain_machine::Answer;
use plain_machine::kernel::PlainKernel;
use plain_machine::plain::Plain;
use plain_memory::lending::lent;
use plain_process::memory::Frame;
use plain_process::threads::made_by;
use plain_process::user_part::UserPart;
use plain_steps::steps::{UserStep, user_step, user_steps};
use plain_tables::channel::Direction;
use std::alloc::{AllocError, Global};
use sys_abi::signals::{has_signal, without_signals};
use sys_abi::{Dir, Record, Reply, Signal, Tid, VPid};
use views::duplicate::Duplicate;
use views::number_map::NumberMap;

/// How many instructions a thread runs at most in one record.
const QUANTUM: u32 = 4096;

/// Takes the step of a record, and tells whether it is one. Where it is none the state may be any.
#[tactic(auto, unfolding(plain_machine::specs::Records::outcome))]
pub fn step(alloc: Global, g: &mut Plain, event: &Record) -> Result<bool, AllocError>
    ensures { IfOk result (λ is_step. words.step g.old event.now ≡ after_told is_step g.new) }
{
    match *event {
        Record::User { p, t, n } => run_thread(alloc, g, p, t, n),
        Record::Call { p, t } => serve_thread(alloc, g, p, t),
        Record::Deliver { p, t, s } => deliver_signal(alloc, g, p, t, s),
        Record::Arrive { dir, n } => arrive(alloc, g, dir, n),
        _ => Ok(true),
    }
}

/// Only the processes that live keep their part.
fn keep_living(g: &mut Plain)
    ensures { g.new ≡ words.living g.old }
{
    let kernel = &g.kernel;
    g.users.retain(|p| kernel.is_live(p));
}

/// Runs a thread for so many instructions.
fn run_thread(alloc: Global, g: &mut Plain, p: VPid, t: Tid, n: u32) -> Result<bool, AllocError>
    ensures { IfOk result (λ is_step. state_of (words.outcome_of_user g.old p t.0 n (map.get g.old.users p)) ≡ after_told is_step g.new) }
{
    let Some(user) = g.users.get(p) else {
        return Ok(false);
    };
    if n < 1 || QUANTUM < n {
        return Ok(false);
    }
    let mut user = copied(alloc, user)?;
    let Ok(()) = user_steps(n, &mut user, t) else {
        return Ok(false);
    };
    if !may_end(alloc, n, &user, t)? {
        return Ok(false);
    }
    g.users.insert(p, Box::into_inner(user))?;
    Ok(true)
}

fn copied(alloc: Global, user: &UserPart) -> Result<Box<UserPart>, AllocError>
    ensures { IfOk result (λ copy. copy.value ≡ user.now) }
{
    Ok(Box::new(alloc, user.duplicate(alloc)?)?)
}

/// Whether a record may end after so many instructions, where the thread stands so after them.
fn may_end(alloc: Global, n: u32, user: &UserPart, t: Tid) -> Result<bool, AllocError>
    ensures { IfOk result (λ ends. ends ≡ words.user_ends n t.0 user.now) }
{
    if n == QUANTUM {
        return Ok(true);
    }
    stands(alloc, user, t)
}

/// Whether the thread stands at a call or a trap.
fn stands(alloc: Global, user: &UserPart, t: Tid) -> Result<bool, AllocError>
    ensures { IfOk result (λ stands. stands ≡ words.stands (user_step user.now t.0)) }
{
    match look(alloc, user, t)?.place {
        UserStep::Asks(_) | UserStep::Trapped(_) => Ok(true),
        _ => Ok(false),
    }
}

/// Does the call at which a thread stands.
fn serve_thread(alloc: Global, g: &mut Plain, p: VPid, t: Tid) -> Result<bool, AllocError>
    ensures { IfOk result (λ is_step. state_of (words.outcome_of_call g.old p t.0 (map.get g.old.users p)) ≡ after_told is_step g.new) }
{
    let Some(user) = g.users.get(p) else {
        return Ok(false);
    };
    let mut user = copied(alloc, user)?;
    let UserStep::Asks(request) = user_step(&mut user, t) else {
        return Ok(false);
    };
    answer(alloc, g, p, t, user, &request)
}

/// Answers a call of a thread of this part.
fn answer(
    alloc: Global,
    g: &mut Plain,
    p: VPid,
    t: Tid,
    user: Box<UserPart>,
    request: &Request,
) -> Result<bool, AllocError>
    ensures { IfOk result (λ is_step. state_of (words.outcome_of_lent g.old p t.0 user.value request.now (lent user.value.memory request.now)) ≡ after_told is_step g.new) }
{
    match lent(alloc, &user.memory, request)? {
        None => answer_fault(alloc, g, p, t, user, request),
        Some(given) => answer_with(alloc, g, p, t, user, request, given.as_slice()),
    }
}

/// Answers a call whose bytes can't be read.
fn answer_fault(
    alloc: Global,
    g: &mut Plain,
    p: VPid,
    t: Tid,
    user: Box<UserPart>,
    request: &Request,
) -> Result<bool, AllocError>
    ensures { IfOk result (λ is_step. state_of (words.outcome_of_lent g.old p t.0 user.value request.now None) ≡ after_told is_step g.new) }
{
    let mut user = user;
    put_fault(alloc, &mut user, t, request)?;
    g.users.insert(p, Box::into_inner(user))?;
    Ok(true)
}

/// Answers a call that reads these bytes.
fn answer_with(
    alloc: Global,
    g: &mut Plain,
    p: VPid,
    t: Tid,
    user: Box<UserPart>,
    request: &Request,
    given: &[u8],
) -> Result<bool, AllocError>
    requires { length given.now ≤ TRANSFER_LIMIT }
    ensures { IfOk result (λ is_step. state_of (words.outcome_of_lent g.old p t.0 user.value request.now (Some given.now)) ≡ after_told is_step g.new) }
{
    if !is_local(request) {
        return serve(alloc, g, p, t, &user, request, given);
    }
    let mut user = user;
    local_row(alloc, &mut user, t, request)?;
    g.users.insert(p, Box::into_inner(user))?;
    Ok(true)
}

/// Has the kernel part serve a call of a thread of this part, where `given` are the bytes that the call
/// reads.
fn serve(
    alloc: Global,
    g: &mut Plain,
    p: VPid,
    t: Tid,
    user: &UserPart,
    request: &Request,
    given: &[u8],
) -> Result<bool, AllocError>
    requires { length given.now ≤ TRANSFER_LIMIT }
    ensures { IfOk result (λ is_step. state_of (words.outcome_of_serve g.old p t.0 user.now request.now (serve g.old.kernel p t.0 request.now given.now)) ≡ after_told is_step g.new) }
{
    let next = g.kernel.next_id;
    let Some(answer) = plain_rows::serve(&mut g.kernel, alloc, p, t, request, given)? else {
        return Ok(false);
    };
    let after = answered(alloc, user, t, request, &answer)?;
    g.users.insert(p, Box::into_inner(after))?;
    add_child(alloc, &mut g.users, user, t, next, request, answer.reply)?;
    keep_living(g);
    Ok(true)
}

/// The part after an answer.
fn answered(
    alloc: Global,
    user: &UserPart,
    t: Tid,
    request: &Request,
    answer: &Answer,
) -> Result<Box<UserPart>, AllocError>
    requires { length answer.now.bytes ≤ TRANSFER_LIMIT }
    ensures { IfOk result (λ after. after.value ≡ put_words user.now t.0 request.now answer.now.reply answer.now.bytes) }
{
    let mut after = copied(alloc, user)?;
    put(
        alloc,
        &mut after,
        t,
        request,
        answer.reply,
        answer.bytes.as_slice(),
    )?;
    Ok(after)
}

/// Adds the part of the child that an answer makes, if it makes one, under the number that was next before
/// the call.
fn add_child(
    alloc: Global,
    users: &mut ByPid<UserPart>,
    user: &UserPart,
    t: Tid,
    next: u32,
    request: &Request,
    reply: Reply,
) -> Result<(), AllocError>
    ensures { IfOk result (λ done. users.new ≡ words.with_child users.old user.now t.0 request.now next (made_by request.now reply)) }
{
    match made_by(request, reply) {
        None => Ok(()),
        Some(_) => {
            let child = child_of(alloc, user, t, next, request)?;
            users.insert(VPid(next), Box::into_inner(child))?;
            Ok(())
        }
    }
}

/// Delivers a signal to a thread.
fn deliver_signal(
    alloc: Global,
    g: &mut Plain,
    p: VPid,
    t: Tid,
    s: Signal,
) -> Result<bool, AllocError>
    ensures { IfOk result (λ is_step. state_of (words.outcome_of_signal g.old p t.0 s.0 (map.get g.old.users p)) ≡ after_told is_step g.new) }
{
    let Some(user) = g.users.get(p) else {
        return Ok(false);
    };
    let mut user = copied(alloc, user)?;
    let Some(thread) = user.threads.get(t.0) else {
        return Ok(false);
    };
    let mask = thread.mask;
    if traps_with(alloc, &user, t, s)? {
        let told = deliver(alloc, &mut user, t, s, false)?;
        settle(alloc, g, p, user, told)?;
        return Ok(true);
    }
    if !has_signal(without_signals(g.kernel.pending(p, t), mask), s) {
        return Ok(false);
    }
    let is_unready = is_unready(alloc, g, p, t, &user)?;
    g.kernel.take(p, t, s);
    let told = deliver(alloc, &mut user, t, s, is_unready)?;
    settle(alloc, g, p, user, told)?;
    Ok(true)
}

/// What a delivery does to the state, where `user` is the part after it.
fn settle(
    alloc: Global,
    g: &mut Plain,
    p: VPid,
    user: Box<UserPart>,
    told: Delivered,
) -> Result<(), AllocError>
    ensures { IfOk result (λ done. g.new ≡ words.delivered g.old p (delivery_told told user.value)) }
{
    match told {
        Delivered::Entered => {
            g.users.insert(p, Box::into_inner(user))?;
            Ok(())
        }
        Delivered::Ignored => Ok(()),
        Delivered::Kills(status) => {
            g.kernel.end_process(alloc, p, status);
            keep_living(g);
            Ok(())
        }
    }
}

/// Whether a thread of this part waits on a word, or stands at a call that isn't ready.
fn is_unready(
    alloc: Global,
    g: &Plain,
    p: VPid,
    t: Tid,
    user: &UserPart,
) -> Result<bool, AllocError>
    ensures { IfOk result (λ waits. waits ≡ words.is_unready g.now p t.0 user.now (user_step user.now t.0)) }
{
    match look(alloc, user, t)?.place {
        UserStep::Waits => Ok(true),
        UserStep::Asks(request) => waits_at(alloc, g, p, t, &user.memory, &request),
        _ => Ok(false),
    }
}

/// Whether a call of a thread waits.
fn waits_at(
    alloc: Global,
    g: &Plain,
    p: VPid,
    t: Tid,
    memory: &NumberMap<Frame>,
    request: &Request,
) -> Result<bool, AllocError>
    ensures { IfOk result (λ waits. waits ≡ words.waits_at g.now p t.0 request.now (lent memory.now request.now)) }
{
    let Some(given) = lent(alloc, memory, request)? else {
        return Ok(false);
    };
    if is_local(request) {
        return Ok(false);
    }
    waits_with(alloc, &g.kernel, p, t, request, given.as_slice())
}

/// Whether a call waits that has these bytes to read.
fn waits_with(
    alloc: Global,
    k: &PlainKernel,
    p: VPid,
    t: Tid,
    request: &Request,
    given: &[u8],
) -> Result<bool, AllocError>
    requires { length given.now ≤ TRANSFER_LIMIT }
    ensures { IfOk result (λ waits. waits ≡ not (is_some (serve k.now p t.0 request.now given.now))) }
{
    let mut kernel = Box::new(alloc, k.duplicate(alloc)?)?;
    match plain_rows::serve(&mut kernel, alloc, p, t, request, given)? {
        Some(_) => Ok(false),
        None => Ok(true),
    }
}

/// Has so many more bytes of a direction arrive.
fn arrive(alloc: Global, g: &mut Plain, dir: Dir, n: u32) -> Result<bool, AllocError>
    ensures { IfOk result (λ is_step. state_of (words.outcome_of_arrival g.old dir n (map.get g.old.kernel.directions dir)) ≡ after_told is_step g.new) }
{
    let Some(direction) = g.kernel.directions.get(dir) else {
        return Ok(false);
    };
    let Some(count) = count_after(direction, n) else {
        return Ok(false);
    };
    let after = arrived(alloc, direction, count)?;
    g.kernel.directions.insert(dir, after)?;
    Ok(true)
}

/// How many bytes of a direction have arrived once so many more have, where as many were sent.
fn count_after(direction: &Direction, n: u32) -> Option<u64>
    ensures { result ≡ (if nat_le 1 n && nat_le (direction.now.arrived + n) (length direction.now.left) then Some (direction.now.arrived + n) else None) }
{
    let sent = direction.left.len() as u64;
    if n < 1 || sent < direction.arrived {
        return None;
    }
    if sent - direction.arrived < n as u64 {
        return None;
    }
    Some(direction.arrived + n as u64)
}

/// A direction of which so many bytes have arrived.
fn arrived(alloc: Global, direction: &Direction, count: u64) -> Result<Direction, AllocError>
    ensures { IfOk result (λ after. after ≡ record {
      left = direction.now.left;
      arrived = count;
      ended = direction.now.ended;
      unread = direction.now.unread;
    }) }
{
    Ok(Direction {
        left: direction.left.duplicate(alloc)?,
        arrived: count,
        ended: direction.ended,
        unread: direction.unread,
    })
}
