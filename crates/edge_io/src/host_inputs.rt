ghost use Rattle.std.specs.Prelude.{◌≡◌, None};

use crate::inputs::{InputFault, Inputs};
use std::alloc::Global;
use std::fs::File;
use std::io::{ErrorKind, Read};
use std::rt::Files;

/// The greatest length of a file that is read, in bytes.
pub const LONGEST_FILE: u64 = 67_108_864;

/// Files of the host, in the current folder. They tell no content.
///
/// A file that is longer than [`LONGEST_FILE`], or that can't be read, is a fault. One that isn't
/// there is none.
#[derive(Drop)]
pub struct HostInputs<R> {
    files: R,
    faults: u64,
}

impl<R> HostInputs<R> {
    /// The files of the runtime, without faults so far.
    pub fn new(files: R) -> Self
        ensures { result ≡ record { files = files; faults = 0 } }
    {
        HostInputs { files, faults: 0 }
    }
}

impl<R: Files> Inputs for HostInputs<R> {
    ghost seen = { λ inputs. record { files = None; faults = inputs.faults } };

    fn read(&mut self, alloc: Global, name: &str) -> Result<Option<Vec<u8>>, InputFault> {
        let _in_range = self.faults;
        let answer = read_file(&self.files, alloc, name);
        if let Err(InputFault::Failed) = answer {
            self.faults = self.faults.saturating_add(1);
        }
        answer
    }
}

/// The bytes of a file of the host, or `None` where there is none of that name.
fn read_file<R: Files>(
    files: &R,
    alloc: Global,
    name: &str,
) -> Result<Option<Vec<u8>>, InputFault> {
    let file = match File::open(files, name) {
        Ok(file) => file,
        Err(error) if error.kind() == ErrorKind::NotFound => return Ok(None),
        Err(error) if error.kind() == ErrorKind::OutOfMemory => return Err(InputFault::Memory),
        Err(_) => return Err(InputFault::Failed),
    };
    let mut bytes = Vec::new(alloc);
    match file.take(LONGEST_FILE + 1).read_to_end(&mut bytes) {
        Ok(_) if bytes.len() as u64 <= LONGEST_FILE => Ok(Some(bytes)),
        Err(error) if error.kind() == ErrorKind::OutOfMemory => Err(InputFault::Memory),
        _ => Err(InputFault::Failed),
    }
}
