//! What a descriptor leads to.
ghost use Rattle.std.specs.Prelude.{◌≡◌};
ghost use Rattle.fd_tables.specs.Slots as slots;
ghost use Rattle.host_descriptors.specs.Held.{held_in};

use fd_book::{Book, Desc};
use sys_abi::{DescId, Fd, RealPid};

/// A descriptor that is open, and its description.
#[derive(Clone, Copy)]
pub struct Held {
    pub desc: DescId,
    pub cloexec: bool,
    pub description: Desc,
}

/// What a descriptor leads to, None where it is not open.
pub fn held_at(book: &Book, who: RealPid, fd: u32) -> Option<Held>
    ensures { result ≡ held_in book.now (slots.slot who fd) }
{
    let desc = book.get(who, Fd(fd))?;
    let cloexec = book.cloexec(who, Fd(fd))?;
    let description = *book.desc(desc)?;
    Some(Held {
        desc,
        cloexec,
        description,
    })
}
