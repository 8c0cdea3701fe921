ghost use Rattle.std.specs.Prelude.{◌≡◌, ◌*◌, ◌/◌, ◌%◌, ◌^◌, ◌<◌, ◌-◌, ◌==◌, pos, ◌*ℤ◌, int_lt, int_div, int_rem, if◌then◌else◌};
ghost use Rattle.plain_process.specs.Instructions as words;

/// 1 where the condition holds, else 0.
pub fn one_if(condition: bool) -> u32
    ensures { result ≡ words.one_if condition }
{
    if condition { 1 } else { 0 }
}

/// Whether `a` is below `b` as signed numbers.
pub fn is_below(a: u32, b: u32) -> bool
    ensures { result ≡ int_lt (words.signed a) (words.signed b) }
{
    a.cast_signed() < b.cast_signed()
}

/// `a` times 2 to the power `amount`, without the bits that don't fit.
#[tactic(auto, using(plain_process::proofs::Shifts::shl_past))]
pub fn shift_left(a: u32, amount: u32) -> u32
    ensures { result ≡ a * 2 ^ amount % 2 ^ 32 }
{
    if amount < 32 { a << amount } else { 0 }
}

/// `a` divided by 2 to the power `amount`.
#[tactic(auto, using(plain_process::proofs::Shifts::shr_past))]
pub fn shift_right(a: u32, amount: u32) -> u32
    ensures { result ≡ a / 2 ^ amount }
{
    if amount < 32 { a >> amount } else { 0 }
}

/// Signed `a` divided by 2 to the power `amount` and rounded down.
pub fn shift_down(a: u32, amount: u32) -> u32
    ensures { result ≡ words.shifted_down (words.signed a) amount }
{
    shift_down_by(a.cast_signed(), amount.min(31))
}

fn shift_down_by(a: i32, amount: u32) -> u32
    requires { amount < 32 }
    ensures { result ≡ words.shifted_down a amount }
{
    (a >> amount).cast_unsigned()
}

fn high_word(product: i64) -> u32
    ensures { result ≡ words.shifted_down product 32 }
{
    ((product >> 32) as i32).cast_unsigned()
}

/// The high word of the product of signed numbers.
pub fn high_of_signed(a: u32, b: u32) -> u32
    ensures { result ≡ words.shifted_down (words.signed a *ℤ words.signed b) 32 }
{
    high_word(a.cast_signed() as i64 * b.cast_signed() as i64)
}

/// The high word of the product of signed `a` and unsigned `b`.
pub fn high_of_mixed(a: u32, b: u32) -> u32
    ensures { result ≡ words.shifted_down (words.signed a *ℤ pos b) 32 }
{
    high_word(a.cast_signed() as i64 * b as i64)
}

/// The high word of the product.
pub fn high_of_product(a: u32, b: u32) -> u32
    ensures { result ≡ a * b / 2 ^ 32 }
{
    (a as u64 * b as u64 / (1 << 32)) as u32
}

/// The signed quotient, rounded toward zero; all bits set where `b` is 0.
pub fn quotient_of_signed(a: u32, b: u32) -> u32
    ensures { result ≡ (if b == 0 then 2 ^ 32 - 1 else words.word (int_div (words.signed a) (words.signed b))) }
{
    if b == 0 {
        return u32::MAX;
    }
    a.cast_signed()
        .wrapping_div(b.cast_signed())
        .cast_unsigned()
}

/// The quotient; all bits set where `b` is 0.
pub fn quotient(a: u32, b: u32) -> u32
    ensures { result ≡ (if b == 0 then 2 ^ 32 - 1 else a / b) }
{
    if b == 0 { u32::MAX } else { a / b }
}

/// The signed remainder, with the sign of `a`; `a` where `b` is 0.
pub fn remainder_of_signed(a: u32, b: u32) -> u32
    ensures { result ≡ (if b == 0 then a else words.word (int_rem (words.signed a) (words.signed b))) }
{
    if b == 0 {
        return a;
    }
    a.cast_signed()
        .wrapping_rem(b.cast_signed())
        .cast_unsigned()
}

/// The remainder; `a` where `b` is 0.
pub fn remainder(a: u32, b: u32) -> u32
    ensures { result ≡ (if b == 0 then a else a % b) }
{
    if b == 0 { a } else { a % b }
}
