ghost use Rattle.std.specs.Prelude.{◌≡◌, ◌==◌, ◌%◌, ◌+◌, ◌^◌, ℕ, IfSome, if◌then◌else◌};
ghost use Rattle.plain_process.specs.declared.regs.Regs.{Regs};
ghost use Rattle.plain_process.specs.Instructions.{encoding, I, B, Shift};
ghost use Rattle.plain_process.specs.Memory.{Memory};
ghost use Rattle.rv_words.specs.Fields.{row_at};
ghost use Rattle.rv_step.specs.Steps.{effect_of_row, effect_of_value, effect_of_branch};

use rv_words::arithmetic::{
    divide, divide_signed, is_below, multiply_high, multiply_high_mixed, multiply_high_signed,
    remainder, remainder_signed, set_if, shift_left, shift_right, shift_right_signed,
};

/// OP-IMM: the value of register and immediate, or none where there is no row. A shift takes its amount.
#[inline(always)]
#[tactic(auto, unfolding(rv_words::specs::Fields::row_at, plain_process::specs::Instructions::encoding, plain_process::specs::Instructions::effect_by))]
pub fn of_immediate(funct3: u32, funct7: u32, a: u32, i: u32, amount: u32) -> Option<u32>
    ensures value { (w rd b : ℕ) (regs : Regs) (memory : Memory) →
        effect_of_row (row_at 0x13 funct3 funct7 w) rd (if funct3 % 4 == 1 then amount else i) a b regs memory
        ≡ effect_of_value result rd regs memory }
    ensures format { (w : ℕ) → IfSome (row_at 0x13 funct3 funct7 w) (λ op. (encoding op).format ≡ (if funct3 % 4 == 1 then Shift else I)) }
{
    match (funct3, funct7) {
        (0, _) => Some(a.wrapping_add(i)),
        (1, 0) => Some(shift_left(a, amount)),
        (2, _) => Some(set_if(is_below(a, i))),
        (3, _) => Some(set_if(a < i)),
        (4, _) => Some(a ^ i),
        (5, 0) => Some(shift_right(a, amount)),
        (5, 0x20) => Some(shift_right_signed(a, amount)),
        (6, _) => Some(a | i),
        (7, _) => Some(a & i),
        _ => None,
    }
}

/// OP: the value of two registers, or none where there is no row.
#[inline(always)]
#[tactic(auto, unfolding(rv_words::specs::Fields::row_at, plain_process::specs::Instructions::encoding, plain_process::specs::Instructions::effect_by))]
pub fn of_registers(funct3: u32, funct7: u32, a: u32, b: u32) -> Option<u32>
    ensures { (w rd i : ℕ) (regs : Regs) (memory : Memory) →
        effect_of_row (row_at 0x33 funct3 funct7 w) rd i a b regs memory ≡ effect_of_value result rd regs memory }
{
    match (funct7, funct3) {
        (0, 0) => Some(a.wrapping_add(b)),
        (0, 1) => Some(shift_left(a, b % 32)),
        (0, 2) => Some(set_if(is_below(a, b))),
        (0, 3) => Some(set_if(a < b)),
        (0, 4) => Some(a ^ b),
        (0, 5) => Some(shift_right(a, b % 32)),
        (0, 6) => Some(a | b),
        (0, 7) => Some(a & b),
        (0x20, 0) => Some(a.wrapping_sub(b)),
        (0x20, 5) => Some(shift_right_signed(a, b % 32)),
        (1, 0) => Some(a.wrapping_mul(b)),
        (1, 1) => Some(multiply_high_signed(a, b)),
        (1, 2) => Some(multiply_high_mixed(a, b)),
        (1, 3) => Some(multiply_high(a, b)),
        (1, 4) => Some(divide_signed(a, b)),
        (1, 5) => Some(divide(a, b)),
        (1, 6) => Some(remainder_signed(a, b)),
        (1, 7) => Some(remainder(a, b)),
        _ => None,
    }
}

/// BRANCH: whether it is taken, or none where there is no row.
#[inline(always)]
#[tactic(auto, unfolding(rv_words::specs::Fields::row_at, plain_process::specs::Instructions::encoding, plain_process::specs::Instructions::effect_by))]
pub fn is_taken(funct3: u32, a: u32, b: u32) -> Option<bool>
    ensures taken { (g w rd i : ℕ) (regs : Regs) (memory : Memory) →
        effect_of_row (row_at 0x63 funct3 g w) rd i a b regs memory
        ≡ effect_of_branch result ((regs.pc + i) % 2 ^ 32) regs memory }
    ensures format { (g w : ℕ) → IfSome (row_at 0x63 funct3 g w) (λ op. (encoding op).format ≡ B) }
{
    match funct3 {
        0 => Some(a == b),
        1 => Some(a != b),
        4 => Some(is_below(a, b)),
        5 => Some(!is_below(a, b)),
        6 => Some(a < b),
        7 => Some(!(a < b)),
        _ => None,
    }
}
