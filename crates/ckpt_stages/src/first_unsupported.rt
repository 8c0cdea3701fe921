//! The first descriptor that no image of a checkpoint holds: an end of a datagram pair, or an event counter.
ghost use Rattle.std.specs.Prelude.{◌≡◌, Some};
ghost use Rattle.plain_machine.specs.declared.kernel.PlainKernel.{PlainKernel};
ghost use Rattle.cut_stages.specs.OfWrapNames.Wrapping.{IsWrapped};
ghost use Rattle.ckpt_stages.specs.Faults.{FindsUnsupported};
ghost use Rattle.ckpt_stages.specs.Kinds as words;

use fd_book::{Book, Object};
use host_tables::System;
use sys_abi::{DescId, Fd, Kind, RealPid, VPid};
use virt_ids::Ids;

/// The first descriptor, by process and number, that no image holds. Takes no memory.
pub fn first_unsupported(system: &System) -> Option<(VPid, Fd, Kind)>
    ensures { (k : PlainKernel) (next_id : _) → IsWrapped system.now next_id k → FindsUnsupported k result }
{
    system.ids.whole();
    let mut least = None;
    let mut above = None;
    while let Some(r) = system.kernel.procs.next_process(above) {
        least = lesser(least, first_of(&system.kernel.book, &system.ids, r));
        above = Some(r);
    }
    least
}

/// The first such descriptor of one process.
fn first_of(book: &Book, ids: &Ids, r: RealPid) -> Option<(VPid, Fd, Kind)>
    ensures { words.IsFirstOf book.now ids.now.virts r result }
{
    let Ok(v) = ids.virt_pid(r) else {
        return None;
    };
    let Some((fd, kind)) = first_fd(book, r) else {
        return None;
    };
    Some((VPid(v), fd, kind))
}

fn first_fd(book: &Book, r: RealPid) -> Option<(Fd, Kind)>
    ensures { words.IsFirstFd book.now r result }
{
    let mut above = None;
    while let Some(fd) = book.next_fd(r, above) {
        if let Some(kind) = kind_at(book, r, fd) {
            return Some((fd, kind));
        }
        above = Some(fd);
    }
    None
}

/// The kind of what the descriptor refers to, where no image holds it.
fn kind_at(book: &Book, r: RealPid, fd: Fd) -> Option<Kind>
    ensures { result ≡ words.kind_at book.now r fd.0 }
{
    let Some(id) = book.get(r, fd) else {
        return None;
    };
    kind_of(book, id)
}

fn kind_of(book: &Book, id: DescId) -> Option<Kind>
    ensures { result ≡ words.kind_in book.now id }
{
    let Some(desc) = book.desc(id) else {
        return None;
    };
    match desc.object {
        Object::Datagram { .. } => Some(Kind::Datagram),
        Object::Counter { .. } => Some(Kind::Counter),
        Object::Console | Object::File { .. } | Object::Stream { .. } => None,
        Object::Socket | Object::Listener { .. } => None,
    }
}

/// The one of the lower process.
fn lesser(
    least: Option<(VPid, Fd, Kind)>,
    other: Option<(VPid, Fd, Kind)>,
) -> Option<(VPid, Fd, Kind)>
    ensures { result ≡ words.lesser least other }
{
    let Some(one) = least else {
        return other;
    };
    let Some(two) = other else {
        return least;
    };
    if two.0.0 < one.0.0 { other } else { least }
}
