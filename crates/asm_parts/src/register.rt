ghost use Rattle.std.specs.Prelude.{◌≡◌, ◌<◌, length, position, IfSome};
ghost use Rattle.std.specs.Str.{bytes_eq};
ghost use Rattle.asm_parts.specs.Registers.{register_of};

/// The registers by number.
const NUMBERED: [&str; 32] = [
    "x0", "x1", "x2", "x3", "x4", "x5", "x6", "x7", "x8", "x9", "x10", "x11", "x12", "x13", "x14",
    "x15", "x16", "x17", "x18", "x19", "x20", "x21", "x22", "x23", "x24", "x25", "x26", "x27",
    "x28", "x29", "x30", "x31",
];

/// The registers by the calling convention.
const CONVENTIONAL: [&str; 32] = [
    "zero", "ra", "sp", "gp", "tp", "t0", "t1", "t2", "s0", "s1", "a0", "a1", "a2", "a3", "a4",
    "a5", "a6", "a7", "s2", "s3", "s4", "s5", "s6", "s7", "s8", "s9", "s10", "s11", "t3", "t4",
    "t5", "t6",
];

/// The number of the register of this name.
#[tactic(auto, unfolding(crate::specs::Registers::register_of))]
pub fn register(text: &str) -> Option<u8>
    ensures { result ≡ register_of text.now }
{
    match number_in(&NUMBERED, text) {
        Some(number) => Some(number),
        None => number_in(&CONVENTIONAL, text),
    }
}

/// The number of a register by these names.
fn number_in(names: &[&str; 32], text: &str) -> Option<u8>
    ensures { result ≡ position (λ name. bytes_eq name.now text.now) names.now }
{
    match place_in(names, text) {
        Some(place) => Some(place as u8),
        None => None,
    }
}

fn place_in(names: &[&str], text: &str) -> Option<usize>
    ensures value { result ≡ position (λ name. bytes_eq name.now text.now) names.now }
    ensures inside { IfSome result (λ place. place < length names.now) }
{
    names.iter().position(|name| *name == text)
}
