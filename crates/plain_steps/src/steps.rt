ghost use Rattle.std.specs.Prelude.{◌≡◌, IfSome, IfNone, IfErr};
ghost use Rattle.std.specs.FinMap as map;
ghost use Rattle.plain_process.specs.Steps as words;
ghost use Rattle.plain_steps.specs.Results.{effect_told, step_told, steps_told, KeepsUnlessNext, KeepsUnlessStepped, StopsAt};

use crate::decoder::decoded;
use crate::effect::Effect;
use crate::executor::{FAULT, effect};
use call_table::{Request, request_of};
use plain_memory::memory::fetch;
use plain_process::memory::Frame;
use plain_process::regs::Regs;
use plain_process::user_part::{ThreadPart, UserPart};
use sys_abi::{Signal, Tid};
use views::number_map::NumberMap;

/// SIGILL (`man 7 signal`).
pub const ILLEGAL: Signal = Signal(4);

/// Where a thread of a process stands.
#[derive(Clone, Copy)]
pub enum UserStep {
    /// Its instruction went on.
    Stepped,
    /// It stands at a call.
    Asks(Request),
    /// Its instruction traps with this signal.
    Trapped(Signal),
    /// It waits on a word.
    Waits,
    NoThread,
}

/// Does the instruction at which these registers stand. A call and a trap leave registers and memory as they
/// were.
#[tactic(auto, unfolding(plain_process::specs::Steps::effect_at))]
pub fn effect_at(regs: &mut Regs, memory: &mut NumberMap<Frame>) -> Effect
    ensures effect { words.effect_at regs.old memory.old ≡ effect_told result regs.new memory.new }
    ensures regs { KeepsUnlessNext result regs.old regs.new }
    ensures memory { KeepsUnlessNext result memory.old memory.new }
{
    let Some(word) = fetch(memory, regs.pc) else {
        return Effect::Traps(FAULT);
    };
    let Some(insn) = decoded(word) else {
        return Effect::Traps(ILLEGAL);
    };
    effect(insn, regs, memory)
}

/// Whether the thread waits on a word.
fn waits(user: &UserPart, t: Tid) -> bool
    ensures { result ≡ words.waits user.now t.0 }
{
    user.waiters.iter().any(|waiter| waiter.tid == t.0)
}

/// The next step of a thread of a process. A thread that doesn't go on leaves the part as it was.
#[tactic(auto, unfolding(plain_process::specs::Steps::user_step))]
pub fn user_step(user: &mut UserPart, t: Tid) -> UserStep
    ensures step { words.user_step user.old t.0 ≡ step_told result user.new }
    ensures stays { KeepsUnlessStepped result user.old user.new }
{
    let Some(thread) = user.threads.get(t.0) else {
        return UserStep::NoThread;
    };
    let mut regs = thread.regs;
    if waits(user, t) {
        return UserStep::Waits;
    }
    match effect_at(&mut regs, &mut user.memory) {
        Effect::Next => {
            set_regs(&mut user.threads, t, regs);
            UserStep::Stepped
        }
        Effect::Calls => UserStep::Asks(request_of(&regs.x)),
        Effect::Traps(signal) => UserStep::Trapped(signal),
    }
}

/// Sets the registers of a thread, if it is there.
pub fn set_regs(threads: &mut NumberMap<ThreadPart>, t: Tid, regs: Regs)
    ensures there { IfSome (map.get threads.old t.0) (λ thread. threads.new ≡ map.insert threads.old t.0 (words.with_regs thread regs)) }
    ensures none { IfNone (map.get threads.old t.0) (threads.new ≡ threads.old) }
{
    if let Some(thread) = threads.get_mut(t.0) {
        thread.regs = regs;
    }
}

/// So many steps of a thread in a row. Where it makes fewer, the error tells where it stands after those that
/// it makes.
#[tactic(auto, unfolding(plain_process::specs::Steps::user_steps))]
pub fn user_steps(n: u32, user: &mut UserPart, t: Tid) -> Result<(), UserStep>
    ensures steps { words.user_steps n user.old t.0 ≡ steps_told result user.new }
    ensures stops { IfErr result (λ place. StopsAt n user.old t.0 place user.new) }
{
    for _done in 0..n {
        match user_step(user, t) {
            UserStep::Stepped => {}
            place => return Err(place),
        }
    }
    Ok(())
}
