//! Pages and rights as the calls on memory name them (`man 2 brk`, `man 2 mmap`).
ghost use Rattle.std.specs.Prelude.{◌≡◌, ◌<◌, ◌≤◌, ◌^◌};
ghost use Rattle.plain_process.specs.Pages as pages;
ghost use Rattle.plain_process.specs.Rows.Mappings as mappings;

/// How many pages so many bytes from a page's start on touch.
pub fn pages_of(bytes: u32) -> u32
    ensures count { result ≡ pages.pages_of bytes }
    ensures bounded { result ≤ 2 ^ 20 }
{
    (bytes as u64).div_ceil(4096) as u32
}

/// The rights of a mapping: protection bits 1, 2 and 4 are to read, to write and to execute.
pub fn rights_of(protection: u32) -> u8
    ensures rights { result ≡ mappings.rights_of protection }
    ensures bounded { result < 8 }
{
    (4 * (protection % 2) + 2 * (protection / 2 % 2) + protection / 4 % 2) as u8
}
