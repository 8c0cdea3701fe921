//! The files of a kernel part, with their names.
ghost use Rattle.std.specs.Prelude.{◌≡◌, IfOk, OnOk};
ghost use Rattle.std.specs.FinMap as map;
ghost use Rattle.vfs_files.specs.Names.{IsNameOf, IsNamedOnce};
ghost use Rattle.plain_machine.specs.Kernels.{IsKernel};
ghost use Rattle.host_tables.specs.Stands.{SameFiles};

use id_maps::ByName;
use plain_machine::PlainKernel;
use std::alloc::{AllocError, Global};
use vfs_files::Files;

/// The name of a file, empty where it has none.
fn name_of(names: &ByName<u32>, number: u32) -> &[u8]
    requires { IsNamedOnce names.now }
    ensures { IsNameOf names.now number result.now }
{
    for (name, file) in names.iter() {
        if *file == number {
            return name.as_slice();
        }
    }
    &[]
}

/// Puts all files back, in rising order of their numbers, into a table that has none.
fn restore_files(files: &mut Files, kernel: &PlainKernel) -> Result<(), AllocError>
    requires whole { IsKernel kernel.now }
    requires none { files.old
        ≡ record { names = map.empty; files = map.empty; next_file = kernel.now.next_file } }
    ensures { OnOk result (files.new ≡ record {
      names = kernel.now.names;
      files = kernel.now.files;
      next_file = kernel.now.next_file;
    }) }
{
    for (number, bytes) in kernel.files.iter() {
        let name = name_of(&kernel.names, *number);
        files.restore(*number, name, bytes.as_slice())?;
    }
    Ok(())
}

/// The files of a kernel part under their numbers and names.
///
/// # Errors
/// Memory was wanted.
pub fn rebuild_files(alloc: Global, kernel: &PlainKernel) -> Result<Files, AllocError>
    requires { IsKernel kernel.now }
    ensures { IfOk result (λ t. SameFiles t kernel.now.names kernel.now.files kernel.now.next_file) }
{
    let mut files = Files::new(alloc);
    files.set_next(kernel.next_file);
    restore_files(&mut files, kernel)?;
    Ok(files)
}
