// Single fields at the front of the bytes that are left. A reader answers the field and what follows it; a
// writer puts the field at the end. A number has its least significant byte first.
ghost use Rattle.std.specs.Prelude.{◌≡◌, ◌++◌, length, IfOk, OnOk};
ghost use Rattle.image_format.specs.Fields.{is_bytes};
ghost use Rattle.image_format.specs.Format.{any, raw, unsigned, n8, n16, n32, n64, number_text};
ghost use Rattle.image_format.specs.Reading.{Gives, read};

use byteorder::{ByteOrder, LittleEndian};
use std::alloc::AllocError;

/// Why a value was not read.
#[derive(Clone, Copy)]
pub enum Fault {
    /// A field is not allowed: so many bytes are left from it on, and none where the bytes end too early.
    Left(usize),
    Memory,
}

impl From<AllocError> for Fault {
    ghost use Rattle.image_format.specs.declared.fields.Fault.TheVariants.{Memory};

    ghost from_gives = { λ _ fault. fault ≡ Memory };

    fn from(_error: AllocError) -> Self {
        Fault::Memory
    }
}

/// The next number of 8 bits, and what follows it.
#[tactic(auto, unfolding(crate::specs::Format::byte_count, crate::specs::Format::number_in, crate::specs::Reading::read_if, crate::specs::Reading::read))]
pub fn u8_at(text: &[u8]) -> Result<(u8, &[u8]), Fault>
    ensures { Gives (λ x. (x.0, x.1.now)) result (read (unsigned n8 any) text.now) }
{
    match text.split_first() {
        Some((first, rest)) => Ok((*first, rest)),
        None => Err(Fault::Left(0)),
    }
}

/// The next number of 16 bits, and what follows it.
#[tactic(auto, unfolding(crate::specs::Format::byte_count, crate::specs::Format::number_in, crate::specs::Reading::read_if, crate::specs::Reading::read))]
pub fn u16_at(text: &[u8]) -> Result<(u16, &[u8]), Fault>
    ensures { Gives (λ x. (x.0, x.1.now)) result (read (unsigned n16 any) text.now) }
{
    match text.split_first_chunk::<2>() {
        Some((first, rest)) => Ok((u16::from_le_bytes(*first), rest)),
        None => Err(Fault::Left(0)),
    }
}

/// The next number of 32 bits, and what follows it.
#[tactic(auto, unfolding(crate::specs::Format::byte_count, crate::specs::Format::number_in, crate::specs::Reading::read_if, crate::specs::Reading::read))]
pub fn u32_at(text: &[u8]) -> Result<(u32, &[u8]), Fault>
    ensures { Gives (λ x. (x.0, x.1.now)) result (read (unsigned n32 any) text.now) }
{
    match text.split_first_chunk::<4>() {
        Some((first, rest)) => Ok((u32::from_le_bytes(*first), rest)),
        None => Err(Fault::Left(0)),
    }
}

/// The next number of 64 bits, and what follows it.
#[tactic(auto, unfolding(crate::specs::Format::byte_count, crate::specs::Format::number_in, crate::specs::Reading::read_if, crate::specs::Reading::read))]
pub fn u64_at(text: &[u8]) -> Result<(u64, &[u8]), Fault>
    ensures { Gives (λ x. (x.0, x.1.now)) result (read (unsigned n64 any) text.now) }
{
    match text.split_first_chunk::<8>() {
        Some((first, rest)) => Ok((u64::from_le_bytes(*first), rest)),
        None => Err(Fault::Left(0)),
    }
}

/// The next so many bytes, and what follows them.
#[tactic(auto, unfolding(crate::specs::Reading::read_if, crate::specs::Reading::read))]
pub fn bytes_at(text: &[u8], size: usize) -> Result<(&[u8], &[u8]), Fault>
    ensures read { Gives (λ x. (x.0.now, x.1.now)) result (read (raw size any) text.now) }
    ensures size { IfOk result (λ x. length x.0.now ≡ size) }
{
    match text.split_at_checked(size) {
        Some((bytes, rest)) => Ok((bytes, rest)),
        None => Err(Fault::Left(0)),
    }
}

/// What follows these bytes.
#[tactic(auto, unfolding(crate::specs::Reading::read_if, crate::specs::Reading::read))]
pub fn after_magic<'a>(text: &'a [u8], magic: &[u8]) -> Result<&'a [u8], Fault>
    ensures { Gives (λ rest. (magic.now, rest.now)) result
        (read (raw (length magic.now) (is_bytes magic.now)) text.now) }
{
    let Some((front, rest)) = text.split_at_checked(magic.len()) else {
        return Err(Fault::Left(0));
    };
    if front != magic {
        return Err(Fault::Left(text.len()));
    }
    Ok(rest)
}

/// Puts a number of 8 bits at the end.
#[tactic(auto, unfolding(crate::specs::Format::number_text))]
pub fn put_u8(bytes: &mut Vec<u8>, number: u8) -> Result<(), AllocError>
    ensures { OnOk result (bytes.new.items ≡ bytes.old.items ++ number_text n8 number) }
{
    bytes.push(number)?;
    Ok(())
}

/// Puts a number of 16 bits at the end, as the length of a file's name is.
#[tactic(auto, unfolding(crate::specs::Format::number_text))]
pub fn put_u16(bytes: &mut Vec<u8>, number: u16) -> Result<(), AllocError>
    ensures { OnOk result (bytes.new.items ≡ bytes.old.items ++ number_text n16 number) }
{
    let mut piece = [0; 2];
    LittleEndian::write_u16(&mut piece, number);
    bytes.extend_from_slice(&piece)
}

/// Puts a number of 32 bits at the end.
#[tactic(auto, unfolding(crate::specs::Format::number_text))]
pub fn put_u32(bytes: &mut Vec<u8>, number: u32) -> Result<(), AllocError>
    ensures { OnOk result (bytes.new.items ≡ bytes.old.items ++ number_text n32 number) }
{
    let mut piece = [0; 4];
    LittleEndian::write_u32(&mut piece, number);
    bytes.extend_from_slice(&piece)
}

/// Puts a number of 64 bits at the end.
#[tactic(auto, unfolding(crate::specs::Format::number_text))]
pub fn put_u64(bytes: &mut Vec<u8>, number: u64) -> Result<(), AllocError>
    ensures { OnOk result (bytes.new.items ≡ bytes.old.items ++ number_text n64 number) }
{
    let mut piece = [0; 8];
    LittleEndian::write_u64(&mut piece, number);
    bytes.extend_from_slice(&piece)
}

/// Puts the bytes at the end.
pub fn put_bytes(bytes: &mut Vec<u8>, more: &[u8]) -> Result<(), AllocError>
    ensures { OnOk result (bytes.new.items ≡ bytes.old.items ++ more.now) }
{
    bytes.extend_from_slice(more)
}
