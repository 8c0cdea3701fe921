ghost use Rattle.std.specs.Prelude.{◌≡◌, ◌≤◌, ◌++◌, [], length, take, drop, IfOk, OnOk, OnErr};
ghost use Rattle.disk_folder.specs.Files.{overwritten};
ghost use Rattle.views.specs.Bytes.{read_from};

use std::alloc::{AllocError, Global};
use std::marker::Model;
use views::duplicate::Duplicate;

/// The bytes of a file.
#[derive(Drop)]
pub struct FileBytes {
    bytes: Vec<u8>,
}

impl Model for FileBytes {
    ghost use Rattle.std.specs.Prelude.{List, ℕ};

    ghost Value = { List ℕ };

    ghost view = { λ f. f.bytes.items };
}

impl FileBytes {
    /// No bytes.
    pub fn new(alloc: Global) -> Self
        ensures { result ≡ [] }
    {
        FileBytes {
            bytes: Vec::new(alloc),
        }
    }

    pub fn len(&self) -> usize
        ensures { result ≡ length self.now }
    {
        self.bytes.len()
    }

    /// Reads from an offset, and answers how many bytes were placed at the front of `buf`.
    pub fn read_at(&self, at: usize, buf: &mut [u8]) -> usize
        ensures placed { result ≡ length (read_from at (length buf.old) self.now) }
        ensures bytes { buf.new ≡ read_from at (length buf.old) self.now ++ drop result buf.old }
    {
        read_into(&self.bytes, at, buf)
    }

    /// Writes over what is there and past the end. An offset past the end stands for the end.
    pub fn write_at(&mut self, at: usize, piece: &[u8]) -> Result<(), AllocError>
        ensures ok { OnOk result (self.new ≡ overwritten at piece.now self.old) }
        ensures err { OnErr result (self.new ≡ self.old) }
    {
        let at = at.min(self.bytes.len());
        overwrite(&mut self.bytes, at, piece)
    }

    /// Keeps the first bytes.
    pub fn cut(&mut self, len: usize)
        ensures { self.new ≡ take len self.old }
    {
        self.bytes.truncate(len);
    }
}

impl Duplicate for FileBytes {
    fn duplicate(&self, alloc: Global) -> Result<Self, AllocError> {
        Ok(FileBytes {
            bytes: self.bytes.to_vec(alloc)?,
        })
    }
}

fn read_into(bytes: &[u8], at: usize, buf: &mut [u8]) -> usize
    ensures placed { result ≡ length (read_from at (length buf.old) bytes.now) }
    ensures bytes { buf.new ≡ read_from at (length buf.old) bytes.now ++ drop result buf.old }
{
    let start = at.min(bytes.len());
    let count = buf.len().min(bytes.len() - start);
    buf[..count].copy_from_slice(&bytes[start..start + count]);
    count
}

fn overwrite(bytes: &mut Vec<u8>, at: usize, piece: &[u8]) -> Result<(), AllocError>
    requires { at ≤ length bytes.old.items }
    ensures ok { OnOk result (bytes.new.items ≡ overwritten at piece.now bytes.old.items) }
    ensures err { OnErr result (bytes.new.items ≡ bytes.old.items) }
{
    let kept = piece.len().min(bytes.len() - at);
    bytes.extend_from_slice(&piece[kept..])?;
    bytes[at..at + kept].copy_from_slice(&piece[..kept]);
    Ok(())
}
