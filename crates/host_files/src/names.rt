//! Names that are taken away (`man 2 unlinkat`).
ghost use Rattle.std.specs.Prelude.{None};
ghost use Rattle.sys_abi.specs.declared.identity.VPid.{VPid};
ghost use Rattle.plain_machine.specs.declared.kernel.PlainKernel.{PlainKernel};
ghost use Rattle.plain_machine.specs.Kernels.{IsKernel};
ghost use Rattle.plain_machine.specs.Rows.Files as rows;
ghost use Rattle.host_descriptors.specs.OfHostTables.Serves.{Serves, ByNumber, same};
ghost use Rattle.host_descriptors.specs.OfHostTables.Stands.{Given, Stands};

use crate::paths::unlink_end;
use fd_book::Object;
use host_descriptors::{Attempt, Kernel, let_go};
use sys_abi::errors::ENOENT;
use sys_abi::{Errno, Transfer};

/// unlinkat (`man 2 unlinkat`), of the path in the transfer. Takes no memory.
pub fn unlinkat(kernel: &mut Kernel, directory: u32, flags: u32, transfer: &Transfer) -> Attempt
    ensures { (g : Given) (k : PlainKernel) (p : VPid) → IsKernel k → Stands g None kernel.old k
        → Serves ByNumber same g kernel.old kernel.new transfer.now transfer.now result
        (rows.unlinkat_row k p directory flags transfer.now) }
{
    let given = transfer.as_slice();
    let end = match unlink_end(directory, flags, given) {
        Ok(end) => end,
        Err(error) => return Attempt::Fails(error),
    };
    let Ok(number) = kernel.files.unlink(&given[..end]) else {
        return Attempt::Fails(Errno(ENOENT));
    };
    let_go(kernel, Object::File { number, offset: 0 });
    Attempt::Gives(0)
}
