ghost use Rattle.std.specs.Prelude.{◌≡◌, ℕ, ◌*◌, ◌/◌, ◌%◌, ◌^◌, ◌<◌, ◌-◌, ◌==◌, pos, ◌*ℤ◌, int_lt, int_div, int_rem, if◌then◌else◌};
ghost use Rattle.plain_process.specs.Instructions.{signed, word, shifted_down, one_if};

/// SLT, SLTU: 1 where the condition holds, else 0.
#[inline]
pub fn set_if(condition: bool) -> u32
    ensures { result ≡ one_if condition }
{
    if condition { 1 } else { 0 }
}

/// Whether `a` is below `b` as signed numbers.
#[inline]
pub fn is_below(a: u32, b: u32) -> bool
    ensures { result ≡ int_lt (signed a) (signed b) }
{
    a.cast_signed() < b.cast_signed()
}

/// SLL, SLLI: `a` times 2 to the power `amount`, without the bits that don't fit.
#[inline]
#[tactic(auto, using(plain_process::proofs::Shifts::shl_past))]
pub fn shift_left(a: u32, amount: u32) -> u32
    ensures { result ≡ a * 2 ^ amount % 2 ^ 32 }
{
    if amount < 32 { a << amount } else { 0 }
}

/// SRL, SRLI: zeros come in.
#[inline]
#[tactic(auto, using(plain_process::proofs::Shifts::shr_past))]
pub fn shift_right(a: u32, amount: u32) -> u32
    ensures { result ≡ a / 2 ^ amount }
{
    if amount < 32 { a >> amount } else { 0 }
}

/// SRA, SRAI: copies of the highest bit come in.
#[inline]
pub fn shift_right_signed(a: u32, amount: u32) -> u32
    ensures { result ≡ shifted_down (signed a) amount }
{
    shift_down(a.cast_signed(), amount.min(31))
}

#[inline]
fn shift_down(a: i32, amount: u32) -> u32
    requires { amount < 32 }
    ensures { result ≡ shifted_down a amount }
{
    (a >> amount).cast_unsigned()
}

#[inline]
fn high_word(product: i64) -> u32
    ensures { result ≡ shifted_down product 32 }
{
    ((product >> 32) as i32).cast_unsigned()
}

/// MULH: the high word of the product of signed numbers.
#[inline]
pub fn multiply_high_signed(a: u32, b: u32) -> u32
    ensures { result ≡ shifted_down (signed a *ℤ signed b) 32 }
{
    high_word(a.cast_signed() as i64 * b.cast_signed() as i64)
}

/// MULHSU: the high word of the product of signed `a` and unsigned `b`.
#[inline]
pub fn multiply_high_mixed(a: u32, b: u32) -> u32
    ensures { result ≡ shifted_down (signed a *ℤ pos b) 32 }
{
    high_word(a.cast_signed() as i64 * b as i64)
}

/// MULHU: the high word of the product.
#[inline]
pub fn multiply_high(a: u32, b: u32) -> u32
    ensures { result ≡ a * b / 2 ^ 32 }
{
    ((a as u64 * b as u64) >> 32) as u32
}

/// DIV, rounded toward zero; all bits set where `b` is 0.
#[inline]
pub fn divide_signed(a: u32, b: u32) -> u32
    ensures { result ≡ (if b == 0 then 2 ^ 32 - 1 else word (int_div (signed a) (signed b))) }
{
    if b == 0 {
        u32::MAX
    } else {
        a.cast_signed()
            .wrapping_div(b.cast_signed())
            .cast_unsigned()
    }
}

/// DIVU; all bits set where `b` is 0.
#[inline]
pub fn divide(a: u32, b: u32) -> u32
    ensures { result ≡ (if b == 0 then 2 ^ 32 - 1 else a / b) }
{
    if b == 0 { u32::MAX } else { a / b }
}

/// REM, with the sign of `a`; `a` where `b` is 0.
#[inline]
pub fn remainder_signed(a: u32, b: u32) -> u32
    ensures { result ≡ (if b == 0 then a else word (int_rem (signed a) (signed b))) }
{
    if b == 0 {
        a
    } else {
        a.cast_signed()
            .wrapping_rem(b.cast_signed())
            .cast_unsigned()
    }
}

/// REMU; `a` where `b` is 0.
#[inline]
pub fn remainder(a: u32, b: u32) -> u32
    ensures { result ≡ (if b == 0 then a else a % b) }
{
    if b == 0 { a } else { a % b }
}
