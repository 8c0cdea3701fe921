ghost use Rattle.std.specs.Prelude.{◌≡◌, ◌<◌, ◌≤◌, ◌+◌, ◌++◌, ◌-◌, ◌^◌, [], length, replicate, Err, false, IsTrue, IfOk, OnOk, OnErr, IsOkUnless};
ghost use Rattle.vfs_files.specs.declared.limits.TheConstants.{TOTAL_LIMIT};
ghost use Rattle.vfs_files.specs.Bytes.{written, overwritten, filled};
ghost use Rattle.vfs_files.specs.Room.{is_past};

use crate::file_fault::FileFault;
use crate::limits::{LAST_END, TOTAL_LIMIT};
use std::alloc::{AllocError, Global};
use std::marker::Model;

/// The bytes of a file.
#[derive(Drop)]
pub(crate) struct FileBytes {
    bytes: Vec<u8>,
}

impl Model for FileBytes {
    ghost use Rattle.std.specs.Prelude.{List, ℕ};

    ghost Value = { List ℕ };

    ghost view = { λ f. f.bytes.items };
}

impl FileBytes {
    /// No bytes, and no memory yet.
    pub fn new(alloc: Global) -> Self
        ensures { result ≡ [] }
    {
        FileBytes {
            bytes: Vec::new(alloc),
        }
    }

    /// A copy of these bytes.
    pub fn from_slice(alloc: Global, bytes: &[u8]) -> Result<Self, AllocError>
        ensures { IfOk result (λ file. file ≡ bytes.now) }
    {
        Ok(FileBytes {
            bytes: Vec::from_slice(alloc, bytes)?,
        })
    }

    pub fn len(&self) -> usize
        ensures { result ≡ length self.now }
    {
        self.bytes.len()
    }

    pub fn as_slice(&self) -> &[u8]
        ensures { result.now ≡ self.now }
    {
        self.bytes.as_slice()
    }

    /// Writes the piece, unless all files would have too many bytes then or it would end too far. Answers how
    /// many bytes all files have then, from how many they have.
    pub fn write_within(&mut self, total: u64, at: u32, piece: &[u8]) -> Result<u64, FileFault>
        requires among { length self.old ≤ total }
        requires limit { total ≤ TOTAL_LIMIT }
        ensures refused { IsTrue (is_past total at piece.now self.old) → result ≡ Err FileFault.Space }
        ensures granted { is_past total at piece.now self.old ≡ false → IsOkUnless result FileFault.Memory }
        ensures ok { OnOk result (self.new ≡ written at piece.now self.old) }
        ensures sum { IfOk result (λ sum. sum + length self.old ≡ total + length (written at piece.now self.old)) }
        ensures limit { IfOk result (λ sum. sum ≤ TOTAL_LIMIT) }
        ensures err { OnErr result (self.new ≡ self.old) }
    {
        if piece.is_empty() {
            return Ok(total);
        }
        let end = at as u64 + piece.len() as u64;
        let len = self.bytes.len() as u64;
        let sum = total - len + len.max(end);
        if sum > TOTAL_LIMIT || end > LAST_END {
            return Err(FileFault::Space);
        }
        self.write_at(at as usize, piece)?;
        Ok(sum)
    }

    /// Writes over what is there and past the end. Zeros fill a gap before the piece; an empty piece fills
    /// none.
    fn write_at(&mut self, at: usize, piece: &[u8]) -> Result<(), AllocError>
        requires { at < 2 ^ 32 }
        ensures ok { OnOk result (self.new ≡ written at piece.now self.old) }
        ensures err { OnErr result (self.new ≡ self.old) }
    {
        if piece.is_empty() {
            return Ok(());
        }
        write_into(&mut self.bytes, at, piece)
    }
}

fn write_into(bytes: &mut Vec<u8>, at: usize, piece: &[u8]) -> Result<(), AllocError>
    requires { at < 2 ^ 32 }
    ensures ok { OnOk result (bytes.new.items ≡ overwritten at piece.now (filled at bytes.old.items)) }
    ensures err { OnErr result (bytes.new.items ≡ bytes.old.items) }
{
    if at > bytes.len() {
        append_at(bytes, at, piece)
    } else {
        overwrite(bytes, at, piece)
    }
}

/// Fills up to an offset past the end with zeros, and appends the piece.
fn append_at(bytes: &mut Vec<u8>, at: usize, piece: &[u8]) -> Result<(), AllocError>
    requires before { length bytes.old.items ≤ at }
    requires fits { at < 2 ^ 32 }
    ensures ok { OnOk result (bytes.new.items ≡ filled at bytes.old.items ++ piece.now) }
    ensures err { OnErr result (bytes.new.items ≡ bytes.old.items) }
{
    bytes.reserve(at - bytes.len() + piece.len())?;
    bytes.resize(at, 0)?;
    bytes.extend_from_slice(piece)
}

/// Writes over the bytes from an offset within them or at their end, and appends the rest of the piece.
fn overwrite(bytes: &mut Vec<u8>, at: usize, piece: &[u8]) -> Result<(), AllocError>
    requires { at ≤ length bytes.old.items }
    ensures ok { OnOk result (bytes.new.items ≡ overwritten at piece.now bytes.old.items) }
    ensures err { OnErr result (bytes.new.items ≡ bytes.old.items) }
{
    let kept = piece.len().min(bytes.len() - at);
    bytes.extend_from_slice(&piece[kept..])?;
    bytes[at..at + kept].copy_from_slice(&piece[..kept]);
    Ok(())
}
