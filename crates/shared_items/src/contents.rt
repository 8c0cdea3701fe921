ghost use Rattle.std.specs.Prelude.{◌≡◌, IfOk, length};
ghost use Rattle.image_format.specs.Format.{raw};
ghost use Rattle.image_format.specs.Reading.{Gives, read};
ghost use Rattle.shared_items.specs.SharedTests as field;

use image_format::fields::{Fault, bytes_at};
use std::alloc::{AllocError, Global};
use views::list_of::ListOf;

/// The next so many bytes, which are bytes as all are, and what follows them.
pub fn content_at(text: &[u8], size: usize) -> Result<(&[u8], &[u8]), Fault>
    ensures read { Gives (λ x. (x.0.now, x.1.now)) result (read (raw size field.are_bytes) text.now) }
    ensures size { IfOk result (λ x. length x.0.now ≡ size) }
{
    bytes_at(text, size)
}

/// The bytes as a list of their own.
pub fn list_of(alloc: Global, bytes: &[u8]) -> Result<ListOf<u8>, AllocError>
    ensures { IfOk result (λ list. list ≡ bytes.now) }
{
    Ok(ListOf::from_vec(Vec::from_slice(alloc, bytes)?))
}
