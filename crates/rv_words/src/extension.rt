ghost use Rattle.std.specs.Prelude.{◌≡◌, ℕ, ◌<◌};
ghost use Rattle.plain_process.specs.Instructions.{sign_extended};

/// A byte extended to a word by its highest bit.
#[inline]
pub fn sign_extended_byte(value: u32) -> u32
    requires { value < 256 }
    ensures { result ≡ sign_extended 8 value }
{
    if value < 0x80 {
        value
    } else {
        value + 0xFFFF_FF00
    }
}

/// A half-word extended to a word by its highest bit.
#[inline]
pub fn sign_extended_half(value: u32) -> u32
    requires { value < 65536 }
    ensures { result ≡ sign_extended 16 value }
{
    if value < 0x8000 {
        value
    } else {
        value + 0xFFFF_0000
    }
}
