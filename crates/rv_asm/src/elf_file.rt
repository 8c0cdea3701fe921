ghost use Rattle.std.specs.Prelude.{◌≡◌, ◌++◌, IfOk};
ghost use Rattle.rv_asm.specs.Files.{headers, before_entry, before_sizes, after_sizes};

use std::alloc::{AllocError, Global};

/// An ELF header up to `e_entry`: for RISC-V, 32 bits, least byte first, and executable.
const BEFORE_ENTRY: [u8; 24] = [
    0x7F, b'E', b'L', b'F', 1, 1, 1, 0, 0, 0, 0, 0, 0, 0, 0, 0, 2, 0, 243, 0, 1, 0, 0, 0,
];

/// From `e_phoff` to `p_paddr`: one program header, behind the ELF header, of a segment that begins with the
/// file's first byte, at 0x10000.
const BEFORE_SIZES: [u8; 40] = [
    52, 0, 0, 0, 0, 0, 0, 0, 0, 0, 0, 0, 52, 0, 32, 0, 1, 0, 0, 0, 0, 0, 0, 0, 1, 0, 0, 0, 0, 0, 0,
    0, 0, 0, 1, 0, 0, 0, 1, 0,
];

/// `p_flags` and `p_align`: to be read, written and executed, in pages of 4,096 bytes.
const AFTER_SIZES: [u8; 8] = [7, 0, 0, 0, 0, 0x10, 0, 0];

/// The headers of a file with this entry and of this size, and then these bytes.
#[tactic(auto, unfolding(crate::specs::Files::headers))]
pub(crate) fn file_of(
    alloc: Global,
    entry: u32,
    size: u32,
    body: &[u8],
) -> Result<Vec<u8>, AllocError>
    ensures { IfOk result (λ file. file.items ≡ headers entry size ++ body.now) }
{
    let mut file = Vec::new(alloc);
    file.extend_from_slice(&BEFORE_ENTRY)?;
    file.extend_from_slice(&entry.to_le_bytes())?;
    file.extend_from_slice(&BEFORE_SIZES)?;
    file.extend_from_slice(&size.to_le_bytes())?;
    file.extend_from_slice(&size.to_le_bytes())?;
    file.extend_from_slice(&AFTER_SIZES)?;
    file.extend_from_slice(body)?;
    Ok(file)
}
