//! A child with its parent's descriptors (`man 2 fork`).
ghost use Rattle.std.specs.Prelude.{◌≡◌, ◌≢◌, ◌<◌, ◌^◌, false, Some, length, OnOk, OnErr};
ghost use Rattle.fd_tables.specs.Numbers.{NoneOpen};
ghost use Rattle.proc_book.specs.Procs.{next_of, is_full, after_start};
ghost use Rattle.host_processes.specs.Forks.{HasShared};

use fd_book::Book;
use proc_book::Procs;
use std::alloc::AllocError;
use sys_abi::RealPid;

/// Starts a child on the node of its parent, where there is room for a process more. The child has the
/// descriptors of its parent then. After want of memory all is as before.
pub(crate) fn start_child(
    book: &mut Book,
    procs: &mut Procs,
    parent: RealPid,
    child: RealPid,
) -> Result<(), AllocError>
    requires none { NoneOpen book.old.descriptors child 0 }
    requires apart { parent ≢ child }
    requires node { parent.node < length procs.old.next }
    requires left { next_of procs.old parent.node < 2 ^ 32 }
    requires room { is_full procs.old ≡ false }
    ensures shared { OnOk result (HasShared child parent book.old book.new) }
    ensures started { OnOk result (procs.new ≡ after_start procs.old parent.node (Some parent)) }
    ensures book { OnErr result (book.new ≡ book.old) }
    ensures procs { OnErr result (procs.new ≡ procs.old) }
{
    book.fork_table(parent, child)?;
    let Ok(_) = procs.start(parent.node, Some(parent)) else {
        while let Some(_) = book.end_table(child) {}
        return Err(AllocError);
    };
    Ok(())
}
