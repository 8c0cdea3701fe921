//! All descriptors of a kernel part, with the descriptions to which they refer.
ghost use Rattle.std.specs.Prelude.{◌≡◌, None, Some, IsSome, IfOk, OnOk};
ghost use Rattle.std.specs.FinMap as map;
ghost use Rattle.sys_abi.specs.declared.identity.VPid.{VPid};
ghost use Rattle.sys_abi.specs.declared.identity.RealPid.{RealPid};
ghost use Rattle.sys_abi.specs.declared.identity.VirtAddr.{VirtAddr};
ghost use Rattle.fd_tables.specs.Slots.{slot};
ghost use Rattle.plain_tables.specs.declared.process.Process.{Process};
ghost use Rattle.plain_tables.specs.Tables.{Descriptors};
ghost use Rattle.plain_machine.specs.Kernels.{IsKernel};
ghost use Rattle.rebuild_tables.specs.Rebuilt.{HasNoDatagrams, IsBook, IsBookOf};

use crate::describing::desc_in;
use fd_book::Book;
use plain_machine::PlainKernel;
use std::alloc::{AllocError, Global};
use sys_abi::{Descriptor, Fd, Slot};
use virt_ids::Ids;

/// Puts one descriptor of the kernel part more, and its description where that isn't there yet.
fn place(
    book: &mut Book,
    kernel: &PlainKernel,
    ids: &Ids,
    at: Slot,
    descriptor: &Descriptor,
) -> Result<(), AllocError>
    requires whole { IsKernel kernel.now }
    requires plain { HasNoDatagrams kernel.now.descriptions }
    requires numbered { (p : VPid) (x : Process) → map.get kernel.now.processes p ≡ Some x
        → IsSome (map.get ids.now.pids p.0) }
    requires places { (a : VirtAddr) → IsSome (map.get kernel.now.listeners a)
        → IsSome (map.get ids.now.addresses a) }
    requires descriptor { map.get kernel.now.descriptors at ≡ Some descriptor.now }
    requires free { (r : RealPid) → map.get ids.now.pids at.pid.0 ≡ Some r
        → map.get book.old.descriptors (slot r at.fd) ≡ None }
    ensures placed { OnOk result ((done : Descriptors)
        → IsBookOf ids.now done kernel.now.descriptions book.old
        → IsBookOf ids.now (map.insert done at descriptor.now) kernel.now.descriptions book.new) }
{
    ids.whole();
    let Ok(r) = ids.real_pid(at.pid.0) else {
        unreachable!()
    };
    let Some(description) = kernel.descriptions.get(descriptor.desc) else {
        unreachable!()
    };
    let desc = desc_in(ids, description);
    book.place_at(r, Fd(at.fd), descriptor.desc, desc, descriptor.cloexec)
}

/// Makes the descriptors and open descriptions of a kernel part again, by the pairs of its processes' numbers
/// and its listeners' addresses.
///
/// # Errors
/// Memory was wanted.
pub fn rebuild_book(alloc: Global, kernel: &PlainKernel, ids: &Ids) -> Result<Book, AllocError>
    requires whole { IsKernel kernel.now }
    requires plain { HasNoDatagrams kernel.now.descriptions }
    requires numbered { (p : VPid) (x : Process) → map.get kernel.now.processes p ≡ Some x
        → IsSome (map.get ids.now.pids p.0) }
    requires places { (a : VirtAddr) → IsSome (map.get kernel.now.listeners a)
        → IsSome (map.get ids.now.addresses a) }
    ensures { IfOk result (λ book. IsBook kernel.now ids.now book) }
{
    let mut book = Book::new(alloc);
    for (at, descriptor) in kernel.descriptors.iter() {
        place(&mut book, kernel, ids, *at, descriptor)?;
    }
    Ok(book)
}
