ghost use Rattle.std.specs.Prelude.{◌≡◌, None, Some, IfSome, IfNone, option_map, option_and_then};
ghost use Rattle.std.specs.FinMap as map;
ghost use Rattle.fd_tables.specs.Slots as slots;
ghost use Rattle.host_tables.specs.OfPlainMachine.Closing as plain;
ghost use Rattle.host_tables.specs.Serves.{Through};
ghost use Rattle.host_tables.specs.Stands.{Stands};
ghost use Rattle.host_descriptors.specs.LetGo.{HasLetGo, IsToldClose, closed_of};

use crate::releasing::let_go;
use fd_book::{Book, Object};
use host_tables::Kernel;
use sys_abi::{DescId, Fd, RealPid};

/// A description that lost its last descriptor, and what it was of.
#[derive(Clone, Copy)]
pub struct Closed {
    pub desc: DescId,
    pub object: Object,
}

/// What the description of a descriptor stands for, where the descriptor is open.
pub fn object_at(book: &Book, who: RealPid, fd: u32) -> Option<Object>
    ensures { result ≡ option_and_then
        (λ descriptor. option_map (λ desc. desc.object) (map.get book.now.descriptions descriptor.desc))
        (map.get book.now.descriptors (slots.slot who fd)) }
{
    let Some(id) = book.get(who, Fd(fd)) else {
        return None;
    };
    match book.desc(id) {
        Some(desc) => Some(desc.object),
        None => None,
    }
}

/// What a book's change left to do: with the description that lost its last descriptor goes what it was of.
/// Takes no memory.
pub fn finish(kernel: &mut Kernel, lost: Option<DescId>, object: Option<Object>) -> Option<Closed>
    ensures told { result ≡ closed_of lost object }
    ensures goes { IfSome result (λ closed. HasLetGo kernel.old kernel.new closed.object) }
    ensures stays { IfNone result (kernel.new ≡ kernel.old) }
{
    let Some(desc) = lost else {
        return None;
    };
    let Some(object) = object else {
        return None;
    };
    let_go(kernel, object);
    Some(Closed { desc, object })
}

/// Closes a descriptor, if it is open (`man 2 close`), and tells the description that lost its last one by
/// that. Takes no memory.
pub fn close_one(kernel: &mut Kernel, who: RealPid, fd: u32) -> Option<Closed>
    ensures closed { Through kernel.old who (λ g k p. Stands g None kernel.new (plain.close_fd k p fd)) }
    ensures told { IsToldClose kernel.old.book (slots.slot who fd) result }
{
    kernel.book.whole();
    let object = object_at(&kernel.book, who, fd);
    match kernel.book.close(who, Fd(fd)) {
        Ok(lost) => finish(kernel, lost, object),
        Err(_) => None,
    }
}
