ghost use Rattle.std.specs.Prelude.{◌≡◌, Some, IsSome, IfSome};
ghost use Rattle.std.specs.FinMap as map;
ghost use Rattle.sys_abi.specs.declared.identity.DescId.{DescId};
ghost use Rattle.fd_tables.specs.Slots.{slot, IsHolder};
ghost use Rattle.leader_vote.specs.Elections.{leader_of, after_vote, after_vote_by};

use fd_book::Book;
use sys_abi::{DescId, Fd, RealPid};

/// The process sets itself as the owner of each description that it holds, in place of the owner that it has.
/// Takes no memory.
pub fn vote(book: &mut Book, p: RealPid)
    ensures voted { book.new ≡ after_vote book.old p }
    ensures leads { (id : DescId) → IsHolder book.old.descriptors id p → leader_of book.new id ≡ Some p }
{
    let mut above = None;
    while let Some(fd) = book.next_fd(p, above) {
        vote_by(book, p, fd);
        above = Some(fd);
    }
}

/// The process that leads the description: its owner, and none exactly where it has none or isn't there.
/// Takes no memory.
pub fn leader(book: &Book, d: DescId) -> Option<RealPid>
    ensures { result ≡ leader_of book.now d }
{
    book.owner(d)
}

/// The process sets itself as the owner of the description to which one of its descriptors refers.
fn vote_by(book: &mut Book, p: RealPid, fd: Fd)
    ensures voted { book.new ≡ after_vote_by book.old p (map.get book.old.descriptors (slot p fd.0)) }
    ensures there { IfSome (map.get book.old.descriptors (slot p fd.0)) (λ d. IsSome (map.get book.old.descriptions d.desc)) }
{
    if let Some(id) = book.get(p, fd) {
        book.set_owner(id, Some(p));
    }
}
