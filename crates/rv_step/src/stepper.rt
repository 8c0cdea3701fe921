ghost use Rattle.std.specs.Prelude.{◌≡◌, ◌<◌, ◌/◌, ◌^◌, ℕ, List, None};
ghost use Rattle.plain_process.specs.Instructions.{bits};
ghost use Rattle.plain_process.specs.Memory.{Memory};
ghost use Rattle.plain_process.specs.Registers.{reg};
ghost use Rattle.rv_step.specs.Steps.{IsStep, IsStepOfFields, IsStepOfKey, IsStepOfWord, IsZeroHeld, regs_at};
ghost use Rattle.rv_step.specs.Steps.{effect_of_value, effect_of_branch};

use crate::moves::{branch, get, jump, load, load_signed_byte, load_signed_half, set, store};
use crate::values::{is_taken, of_immediate, of_registers};
use rv_words::GuestMemory;
use rv_words::immediates::{
    field, immediate_b, immediate_i, immediate_j, immediate_s, immediate_u, shift_amount,
};

#[inline(always)]
fn rd(word: u32) -> u32
    ensures value { result ≡ bits 7 5 word }
    ensures fits { result < 32 }
{
    field(word, 7, 5)
}

/// The value of the first source register, rs1.
#[inline(always)]
fn first(x: &[u32; 32], word: u32) -> u32
    requires { IsZeroHeld x.now }
    ensures { result ≡ reg (regs_at x.now 0) (bits 15 5 word) }
{
    get(x, field(word, 15, 5))
}

/// The value of the second source register, rs2.
#[inline(always)]
fn second(x: &[u32; 32], word: u32) -> u32
    requires { IsZeroHeld x.now }
    ensures { result ≡ reg (regs_at x.now 0) (bits 20 5 word) }
{
    get(x, field(word, 20, 5))
}

/// Writes the value, where there is a row.
#[inline(always)]
fn written(x: &mut [u32; 32], pc: u32, index: u32, value: Option<u32>) -> Option<u32>
    requires index { index < 32 }
    requires zero { IsZeroHeld x.old }
    ensures step { (memory : Memory) →
        IsStep result (effect_of_value value index (regs_at x.old pc) memory) x.old x.new memory }
    ensures zero { IsZeroHeld x.new }
{
    match value {
        Some(value) => set(x, pc, index, value),
        None => None,
    }
}

/// Goes to the target where the branch is taken, and where there is a row.
#[inline(always)]
fn turned(pc: u32, is_taken: Option<bool>, target: u32) -> Option<u32>
    ensures { (x : List ℕ) (memory : Memory) →
        IsStep result (effect_of_branch is_taken target (regs_at x pc) memory) x x memory }
{
    match is_taken {
        Some(is_taken) => branch(pc, is_taken, target),
        None => None,
    }
}

/// LUI.
#[inline(always)]
#[tactic(auto, unfolding(rv_words::specs::Fields::row_at, plain_process::specs::Instructions::encoding, plain_process::specs::Instructions::insn_of, plain_process::specs::Instructions::effect, plain_process::specs::Instructions::effect_by))]
fn load_upper(x: &mut [u32; 32], pc: u32, word: u32) -> Option<u32>
    requires { IsZeroHeld x.old }
    ensures step { (f g : ℕ) (memory : Memory) → IsStepOfFields result 0x37 f g word x.old pc memory x.new memory }
    ensures zero { IsZeroHeld x.new }
{
    set(x, pc, rd(word), immediate_u(word).cast_unsigned())
}

/// AUIPC.
#[inline(always)]
#[tactic(auto, unfolding(rv_words::specs::Fields::row_at, plain_process::specs::Instructions::encoding, plain_process::specs::Instructions::insn_of, plain_process::specs::Instructions::effect, plain_process::specs::Instructions::effect_by))]
fn add_upper(x: &mut [u32; 32], pc: u32, word: u32) -> Option<u32>
    requires { IsZeroHeld x.old }
    ensures step { (f g : ℕ) (memory : Memory) → IsStepOfFields result 0x17 f g word x.old pc memory x.new memory }
    ensures zero { IsZeroHeld x.new }
{
    let value = pc.wrapping_add(immediate_u(word).cast_unsigned());
    set(x, pc, rd(word), value)
}

/// JAL.
#[inline(always)]
#[tactic(auto, unfolding(rv_words::specs::Fields::row_at, plain_process::specs::Instructions::encoding, plain_process::specs::Instructions::insn_of, plain_process::specs::Instructions::effect, plain_process::specs::Instructions::effect_by))]
fn jump_near(x: &mut [u32; 32], pc: u32, word: u32) -> Option<u32>
    requires { IsZeroHeld x.old }
    ensures step { (f g : ℕ) (memory : Memory) → IsStepOfFields result 0x6F f g word x.old pc memory x.new memory }
    ensures zero { IsZeroHeld x.new }
{
    let target = pc.wrapping_add(immediate_j(word).cast_unsigned());
    jump(x, pc, rd(word), target)
}

/// JALR.
#[inline(always)]
#[tactic(auto, unfolding(rv_words::specs::Fields::row_at, plain_process::specs::Instructions::encoding, plain_process::specs::Instructions::insn_of, plain_process::specs::Instructions::effect, plain_process::specs::Instructions::effect_by))]
fn jump_far(x: &mut [u32; 32], pc: u32, word: u32) -> Option<u32>
    requires { IsZeroHeld x.old }
    ensures step { (g : ℕ) (memory : Memory) → IsStepOfFields result 0x67 0 g word x.old pc memory x.new memory }
    ensures zero { IsZeroHeld x.new }
{
    let address = first(x, word).wrapping_add(immediate_i(word).cast_unsigned());
    jump(x, pc, rd(word), 2 * (address / 2))
}

/// BRANCH.
#[inline(always)]
fn branched(x: &[u32; 32], pc: u32, word: u32, funct3: u32) -> Option<u32>
    requires { IsZeroHeld x.now }
    ensures { (g : ℕ) (memory : Memory) → IsStepOfFields result 0x63 funct3 g word x.now pc memory x.now memory }
{
    let a = first(x, word);
    let b = second(x, word);
    let target = pc.wrapping_add(immediate_b(word).cast_unsigned());
    let is_taken = is_taken(funct3, a, b);
    turned(pc, is_taken, target)
}

/// LOAD.
#[inline(always)]
#[tactic(auto, unfolding(rv_words::specs::Fields::row_at, plain_process::specs::Instructions::encoding, plain_process::specs::Instructions::insn_of, plain_process::specs::Instructions::effect, plain_process::specs::Instructions::effect_by))]
fn loaded<M: GuestMemory>(
    x: &mut [u32; 32],
    pc: u32,
    memory: &M,
    word: u32,
    funct3: u32,
) -> Option<u32>
    requires { IsZeroHeld x.old }
    ensures step { (g : ℕ) → IsStepOfFields result 0x03 funct3 g word x.old pc (M.memory memory.now) x.new (M.memory memory.now) }
    ensures zero { IsZeroHeld x.new }
{
    let rd = rd(word);
    let address = first(x, word).wrapping_add(immediate_i(word).cast_unsigned());
    match funct3 {
        0 => load_signed_byte(x, pc, memory, rd, address),
        1 => load_signed_half(x, pc, memory, rd, address),
        2 => load(x, pc, memory, rd, address, 4),
        4 => load(x, pc, memory, rd, address, 1),
        5 => load(x, pc, memory, rd, address, 2),
        _ => None,
    }
}

/// STORE.
#[inline(always)]
#[tactic(auto, unfolding(rv_words::specs::Fields::row_at, plain_process::specs::Instructions::encoding, plain_process::specs::Instructions::insn_of, plain_process::specs::Instructions::effect, plain_process::specs::Instructions::effect_by))]
fn stored<M: GuestMemory>(
    x: &[u32; 32],
    pc: u32,
    memory: &mut M,
    word: u32,
    funct3: u32,
) -> Option<u32>
    requires { IsZeroHeld x.now }
    ensures step { (g : ℕ) →
        IsStepOfFields result 0x23 funct3 g word x.now pc (M.memory memory.old) x.now (M.memory memory.new) }
    ensures memory { result ≡ None → M.memory memory.new ≡ M.memory memory.old }
{
    let address = first(x, word).wrapping_add(immediate_s(word).cast_unsigned());
    let value = second(x, word);
    match funct3 {
        0 => store(pc, memory, address, 1, value),
        1 => store(pc, memory, address, 2, value),
        2 => store(pc, memory, address, 4, value),
        _ => None,
    }
}

/// OP-IMM.
#[inline(always)]
fn computed_immediate(x: &mut [u32; 32], pc: u32, word: u32, funct3: u32) -> Option<u32>
    requires { IsZeroHeld x.old }
    ensures step { (memory : Memory) → IsStepOfFields result 0x13 funct3 (word / 2 ^ 25) word x.old pc memory x.new memory }
    ensures zero { IsZeroHeld x.new }
{
    let a = first(x, word);
    let i = immediate_i(word).cast_unsigned();
    let amount = shift_amount(word).cast_unsigned();
    let value = of_immediate(funct3, word >> 25, a, i, amount);
    written(x, pc, rd(word), value)
}

/// OP.
#[inline(always)]
fn computed(x: &mut [u32; 32], pc: u32, word: u32, funct3: u32) -> Option<u32>
    requires { IsZeroHeld x.old }
    ensures step { (memory : Memory) → IsStepOfFields result 0x33 funct3 (word / 2 ^ 25) word x.old pc memory x.new memory }
    ensures zero { IsZeroHeld x.new }
{
    let a = first(x, word);
    let b = second(x, word);
    let value = of_registers(funct3, word >> 25, a, b);
    written(x, pc, rd(word), value)
}

/// The instruction of a word by its key: bits 2 to 6 of the opcode, whose lowest two are set, and 32 times
/// funct3. Its rows are told apart by one jump, as this match and that of [`step_in_registers`] are one once
/// they are inlined.
#[inline(always)]
fn step_by<M: GuestMemory>(
    x: &mut [u32; 32],
    pc: u32,
    memory: &mut M,
    word: u32,
    key: u32,
) -> Option<u32>
    requires { IsZeroHeld x.old }
    ensures step { IsStepOfKey result key word x.old pc (M.memory memory.old) x.new (M.memory memory.new) }
    ensures memory { result ≡ None → M.memory memory.new ≡ M.memory memory.old }
    ensures zero { IsZeroHeld x.new }
{
    match key {
        0x00 => loaded(x, pc, memory, word, 0),
        0x20 => loaded(x, pc, memory, word, 1),
        0x40 => loaded(x, pc, memory, word, 2),
        0x80 => loaded(x, pc, memory, word, 4),
        0xA0 => loaded(x, pc, memory, word, 5),
        0x08 => stored(x, pc, memory, word, 0),
        0x28 => stored(x, pc, memory, word, 1),
        0x48 => stored(x, pc, memory, word, 2),
        _ => step_in_registers(x, pc, word, key),
    }
}

/// The same of an instruction that reaches no memory.
#[inline(always)]
fn step_in_registers(x: &mut [u32; 32], pc: u32, word: u32, key: u32) -> Option<u32>
    requires { IsZeroHeld x.old }
    ensures step { (memory : Memory) → IsStepOfKey result key word x.old pc memory x.new memory }
    ensures zero { IsZeroHeld x.new }
{
    match key {
        0x04 => computed_immediate(x, pc, word, 0),
        0x24 => computed_immediate(x, pc, word, 1),
        0x44 => computed_immediate(x, pc, word, 2),
        0x64 => computed_immediate(x, pc, word, 3),
        0x84 => computed_immediate(x, pc, word, 4),
        0xA4 => computed_immediate(x, pc, word, 5),
        0xC4 => computed_immediate(x, pc, word, 6),
        0xE4 => computed_immediate(x, pc, word, 7),
        0x05 | 0x25 | 0x45 | 0x65 | 0x85 | 0xA5 | 0xC5 | 0xE5 => add_upper(x, pc, word),
        0x0C => computed(x, pc, word, 0),
        0x2C => computed(x, pc, word, 1),
        0x4C => computed(x, pc, word, 2),
        0x6C => computed(x, pc, word, 3),
        0x8C => computed(x, pc, word, 4),
        0xAC => computed(x, pc, word, 5),
        0xCC => computed(x, pc, word, 6),
        0xEC => computed(x, pc, word, 7),
        0x0D | 0x2D | 0x4D | 0x6D | 0x8D | 0xAD | 0xCD | 0xED => load_upper(x, pc, word),
        0x18 => branched(x, pc, word, 0),
        0x38 => branched(x, pc, word, 1),
        0x98 => branched(x, pc, word, 4),
        0xB8 => branched(x, pc, word, 5),
        0xD8 => branched(x, pc, word, 6),
        0xF8 => branched(x, pc, word, 7),
        0x19 => jump_far(x, pc, word),
        0x1B | 0x3B | 0x5B | 0x7B | 0x9B | 0xBB | 0xDB | 0xFB => jump_near(x, pc, word),
        _ => None,
    }
}

/// Does the instruction of a word on registers and memory, and tells the address of the next one, or leaves
/// it: a step that is made is what `decode` and `exec` of `rv_isa` do, with one jump and no instruction
/// between them. Calls, traps, fences, words without a row and accesses that fail are left to these: then
/// nothing has changed.
#[inline(always)]
pub fn step<M: GuestMemory>(x: &mut [u32; 32], pc: u32, memory: &mut M, word: u32) -> Option<u32>
    requires { IsZeroHeld x.old }
    ensures step { IsStepOfWord result word x.old pc (M.memory memory.old) x.new (M.memory memory.new) }
    ensures memory { result ≡ None → M.memory memory.new ≡ M.memory memory.old }
    ensures zero { IsZeroHeld x.new }
{
    if word % 4 != 3 {
        return None;
    }
    step_by(x, pc, memory, word, word / 4 % 32 + (word >> 12) % 8 * 32)
}
