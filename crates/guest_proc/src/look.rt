ghost use Rattle.std.specs.Prelude.{◌≡◌};
ghost use Rattle.plain_process.specs.Steps.{effect_at};
ghost use Rattle.guest_proc.specs.Looking.{ran_by};

use crate::ran::Ran;
use call_table::request_of;
use guest_start::{Ram, SIGNAL_FAULT, SIGNAL_ILLEGAL, outcome_of};
use plain_process::Regs;
use rv_isa::{Outcome, decode};
use sys_abi::Signal;

/// What the instruction at these registers would come to.
#[tactic(auto, unfolding(plain_process::specs::Steps::effect_at))]
pub fn look_at(regs: &Regs, ram: &Ram) -> Ran
    ensures { result ≡ ran_by (effect_at regs.now ram.now) regs.now }
{
    let Some(word) = ram.fetch(regs.pc) else {
        return Ran::Trapped(Signal(SIGNAL_FAULT));
    };
    let Some(insn) = decode(word) else {
        return Ran::Trapped(Signal(SIGNAL_ILLEGAL));
    };
    match outcome_of(insn, regs, ram) {
        Outcome::Next => Ran::Whole,
        Outcome::Call => Ran::Asks(request_of(&regs.x)),
        Outcome::Trap(signal) => Ran::Trapped(signal),
        Outcome::Memory => unreachable!(),
    }
}
