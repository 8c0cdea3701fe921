//! Descriptors of all processes.
ghost use Rattle.std.specs.Prelude.{◌≡◌, Bool, IfOk, OnOk};
ghost use Rattle.std.specs.FinMap as map;
ghost use Rattle.fd_tables.specs.declared.real_slot.RealSlot.{RealSlot};
ghost use Rattle.fd_tables.specs.Slots as slots;
ghost use Rattle.plain_tables.specs.Tables.{Descriptors};
ghost use Rattle.seen_kernel.specs.Descriptors as words;

use fd_book::Book;
use id_maps::BySlot;
use proc_book::Procs;
use std::alloc::{AllocError, Global};
use sys_abi::{Descriptor, Fd, RealPid, Slot, VPid};
use virt_ids::Ids;

/// The descriptors by the virtual numbers of their processes.
pub fn seen_descriptors(
    alloc: Global,
    book: &Book,
    procs: &Procs,
    ids: &Ids,
) -> Result<BySlot<Descriptor>, AllocError>
    ensures { IfOk result (λ descriptors. (ks : Descriptors)
        → words.StandForDescriptors ids.now procs.now book.now ks → descriptors ≡ ks) }
{
    ids.whole();
    let mut seen = BySlot::new(alloc);
    let mut above = None;
    while let Some(r) = procs.next_process(above) {
        add_table(&mut seen, book, ids, r)?;
        above = Some(r);
    }
    Ok(seen)
}

/// Puts the descriptors of the process at its virtual number, if it has one.
fn add_table(
    seen: &mut BySlot<Descriptor>,
    book: &Book,
    ids: &Ids,
    r: RealPid,
) -> Result<(), AllocError>
    ensures { OnOk result ((ks : Descriptors) (left : RealSlot → Bool)
        → words.AreFilled ids.now book.now left ks seen.old
        → words.AreFilled ids.now book.now (words.left_but r left) ks seen.new) }
{
    let Ok(v) = ids.virt_pid(r) else {
        return Ok(());
    };
    let mut above = None;
    while let Some(fd) = book.next_fd(r, above) {
        add_descriptor(seen, book, r, VPid(v), fd)?;
        above = Some(fd);
    }
    Ok(())
}

/// Puts the descriptor of the real process at the same number of the virtual one, if it is open.
fn add_descriptor(
    seen: &mut BySlot<Descriptor>,
    book: &Book,
    r: RealPid,
    p: VPid,
    fd: Fd,
) -> Result<(), AllocError>
    ensures { OnOk result (seen.new ≡ words.with_descriptor p fd.0
        (map.get book.now.descriptors (slots.slot r fd.0)) seen.old) }
{
    let Some(desc) = book.get(r, fd) else {
        return Ok(());
    };
    let Some(cloexec) = book.cloexec(r, fd) else {
        return Ok(());
    };
    let slot = Slot { pid: p, fd: fd.0 };
    seen.insert(slot, Descriptor { desc, cloexec })?;
    Ok(())
}
