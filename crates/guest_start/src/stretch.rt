ghost use Rattle.std.specs.Prelude.{◌≡◌, ◌≤◌};
ghost use Rattle.rv_step.specs.Steps.{IsZeroHeld};
ghost use Rattle.guest_start.specs.Running.{HasRun};

use crate::ram::{OpenRam, Ram};
use plain_process::Regs;
use rv_step::step;

/// Instructions in a row, at most `room` of them, whose words lie in the page that stands apart: how many.
/// None of them stores into that page.
#[inline(always)]
fn stretch_in(regs: &mut Regs, ram: &mut OpenRam, room: u32) -> u32
    requires { IsZeroHeld regs.old.x }
    ensures run { HasRun result regs.old ram.old regs.new ram.new }
    ensures count { result ≤ room }
{
    let mut pc = regs.pc;
    for count in 0..room {
        let Some(word) = ram.fetch(pc) else {
            regs.pc = pc;
            return count;
        };
        let Some(next) = step(&mut regs.x, pc, ram, word) else {
            regs.pc = pc;
            return count;
        };
        pc = next;
    }
    regs.pc = pc;
    room
}

/// The same from the program counter on: none where its page is missing or may not be executed, or where the
/// place of x0 holds another number than 0, as an image may have it.
#[inline(always)]
pub fn stretch(regs: &mut Regs, ram: &mut Ram, room: u32) -> u32
    ensures run { HasRun result regs.old ram.old regs.new ram.new }
    ensures count { result ≤ room }
{
    if regs.x[0] != 0 {
        return 0;
    }
    let Some(mut apart) = ram.open(regs.pc) else {
        return 0;
    };
    let count = stretch_in(regs, &mut apart, room);
    ram.close(apart);
    count
}
