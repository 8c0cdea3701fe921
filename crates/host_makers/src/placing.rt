//! New descriptions behind free descriptors.
ghost use Rattle.std.specs.Prelude.{◌≡◌, None, IfOk, OnErr};
ghost use Rattle.std.specs.FinMap as map;
ghost use Rattle.fd_tables.specs.Slots.{slot};
ghost use Rattle.fd_book.specs.Books.{after_close};
ghost use Rattle.host_tables.specs.Conditions.{AreNewEnds};
ghost use Rattle.host_makers.specs.Places as words;

use fd_book::{Book, BookFault, Desc, Object};
use host_tables::PairIds;
use std::alloc::AllocError;
use sys_abi::{DescId, Fd, RealPid};

/// Two descriptions that are to be made, and whether exec closes the descriptors of them.
#[derive(Clone, Copy)]
pub struct TwoEnds {
    pub ids: PairIds,
    pub first: Desc,
    pub second: Desc,
    pub cloexec: bool,
}

/// A description that nobody owns.
pub(crate) fn new_desc(object: Object, flags: u32) -> Desc
    ensures { result ≡ words.new_desc object flags }
{
    Desc {
        object,
        flags,
        owner: None,
    }
}

/// The description behind the free descriptor, None where no descriptor is free. After None, and after want
/// of memory, all is as before.
pub(crate) fn place(
    book: &mut Book,
    who: RealPid,
    id: DescId,
    desc: Desc,
    cloexec: bool,
) -> Result<Option<Fd>, AllocError>
    requires { map.get book.old.descriptions id ≡ None }
    ensures ok { IfOk result (words.IsPlaced book.old book.new who id desc cloexec) }
    ensures err { OnErr result (book.new ≡ book.old) }
{
    match book.place(who, id, desc, cloexec) {
        Ok(fd) => Ok(Some(fd)),
        Err(BookFault::TooMany) => Ok(None),
        Err(BookFault::BadFd | BookFault::Memory) => Err(AllocError),
    }
}

/// Both descriptions, behind the free descriptor and the next one, None where there are no two. After None,
/// and after want of memory, all is as before.
pub(crate) fn place_two(
    book: &mut Book,
    who: RealPid,
    ends: TwoEnds,
) -> Result<Option<(Fd, Fd)>, AllocError>
    requires { AreNewEnds book.old ends.ids.first ends.ids.second }
    ensures ok { IfOk result (words.ArePlaced book.old book.new who ends) }
    ensures err { OnErr result (book.new ≡ book.old) }
{
    book.whole();
    let Some(fd) = place(book, who, ends.ids.first, ends.first, ends.cloexec)? else {
        return Ok(None);
    };
    match place(book, who, ends.ids.second, ends.second, ends.cloexec) {
        Ok(Some(other)) => Ok(Some((fd, other))),
        Ok(None) => {
            let _ = book.close(who, fd);
            Ok(None)
        }
        Err(AllocError) => {
            let _ = book.close(who, fd);
            Err(AllocError)
        }
    }
}

/// Closes both descriptors, the second one first. Takes no memory.
pub(crate) fn close_two(book: &mut Book, who: RealPid, fds: (Fd, Fd))
    ensures { book.new ≡ after_close (after_close book.old (slot who fds.1.0)) (slot who fds.0.0) }
{
    let _ = book.close(who, fds.1);
    let _ = book.close(who, fds.0);
}
