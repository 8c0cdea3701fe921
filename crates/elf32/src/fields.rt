ghost use Rattle.std.specs.Prelude.{◌≡◌, ◌+◌, ◌≤◌, length};
ghost use Rattle.elf32.specs.Fields.{half_at, word_at};

/// The field of 16 bits that begins at this byte.
#[tactic(auto, unfolding(crate::specs::Fields::half_at))]
pub fn half_at(file: &[u8], place: usize) -> u16
    requires { place + 2 ≤ length file.now }
    ensures { result ≡ half_at file.now place }
{
    u16::from_le_bytes([file[place], file[place + 1]])
}

/// The field of 32 bits that begins at this byte.
#[tactic(auto, unfolding(crate::specs::Fields::word_at))]
pub fn word_at(file: &[u8], place: usize) -> u32
    requires { place + 4 ≤ length file.now }
    ensures { result ≡ word_at file.now place }
{
    u32::from_le_bytes([
        file[place],
        file[place + 1],
        file[place + 2],
        file[place + 3],
    ])
}
