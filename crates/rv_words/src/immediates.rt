ghost use Rattle.std.specs.Prelude.{◌≡◌, ℕ, ◌<◌, ◌^◌, ◌*◌, ◌+◌};
ghost use Rattle.std.specs.Int.{w32, cast_signed};
ghost use Rattle.plain_process.specs.Instructions.{Format, I, S, B, U, J, Shift, bits, immediate, sign_extended};

/// `count` bits of a word, from bit `low` on.
#[inline]
pub fn field(word: u32, low: u32, count: u32) -> u32
    requires low { low < 32 }
    requires count { count < 32 }
    ensures value { result ≡ bits low count word }
    ensures fits { result < 2 ^ count }
{
    (word >> low) % (1 << count)
}

/// A number of 12 bits with its sign.
#[inline]
pub fn signed_12(value: u32) -> i32
    requires { value < 2 ^ 12 }
    ensures { result ≡ cast_signed w32 (sign_extended 12 value) }
{
    (value << 20).cast_signed() >> 20
}

/// A number of 13 bits with its sign.
#[inline]
pub fn signed_13(value: u32) -> i32
    requires { value < 2 ^ 13 }
    ensures { result ≡ cast_signed w32 (sign_extended 13 value) }
{
    (value << 19).cast_signed() >> 19
}

/// A number of 21 bits with its sign.
#[inline]
pub fn signed_21(value: u32) -> i32
    requires { value < 2 ^ 21 }
    ensures { result ≡ cast_signed w32 (sign_extended 21 value) }
{
    (value << 11).cast_signed() >> 11
}

/// The immediate of a word of format I.
#[inline]
#[tactic(auto, unfolding(plain_process::specs::Instructions::immediate))]
pub fn immediate_i(word: u32) -> i32
    ensures { result ≡ cast_signed w32 (immediate I word) }
{
    signed_12(field(word, 20, 12))
}

/// The immediate of a word of format S.
#[inline]
#[tactic(auto, unfolding(plain_process::specs::Instructions::immediate))]
pub fn immediate_s(word: u32) -> i32
    ensures { result ≡ cast_signed w32 (immediate S word) }
{
    signed_12((field(word, 25, 7) << 5) + field(word, 7, 5))
}

/// The immediate of a word of format B, an even number.
#[inline]
#[tactic(auto, unfolding(plain_process::specs::Instructions::immediate))]
pub fn immediate_b(word: u32) -> i32
    ensures { result ≡ cast_signed w32 (immediate B word) }
{
    let high = (field(word, 31, 1) << 12) + (field(word, 7, 1) << 11);
    signed_13(high + (field(word, 25, 6) << 5) + (field(word, 8, 4) << 1))
}

/// The immediate of a word of format U: its upper 20 bits.
#[inline]
#[tactic(auto, unfolding(plain_process::specs::Instructions::immediate))]
pub fn immediate_u(word: u32) -> i32
    ensures { result ≡ cast_signed w32 (immediate U word) }
{
    (field(word, 12, 20) << 12).cast_signed()
}

/// The immediate of a word of format J, an even number.
#[inline]
#[tactic(auto, unfolding(plain_process::specs::Instructions::immediate))]
pub fn immediate_j(word: u32) -> i32
    ensures { result ≡ cast_signed w32 (immediate J word) }
{
    let high = (field(word, 31, 1) << 20) + (field(word, 12, 8) << 12);
    signed_21(high + (field(word, 20, 1) << 11) + (field(word, 21, 10) << 1))
}

/// The amount of a shift by an immediate.
#[inline]
#[tactic(auto, unfolding(plain_process::specs::Instructions::immediate))]
pub fn shift_amount(word: u32) -> i32
    ensures { result ≡ cast_signed w32 (immediate Shift word) }
{
    field(word, 20, 5).cast_signed()
}
