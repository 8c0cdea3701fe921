//! The owners of open descriptions (`man 2 fcntl`, F_SETOWN), kept while processes elect leaders by them.
ghost use Rattle.std.specs.Prelude.{◌≡◌, IfOk};
ghost use Rattle.leader_vote.specs.Owners as words;

use fd_book::Book;
use id_maps::ByDesc;
use std::alloc::{AllocError, Global};
use sys_abi::{DescId, RealPid};

/// The owner of each description, if it has one.
pub fn keep_owners(alloc: Global, book: &Book) -> Result<ByDesc<Option<RealPid>>, AllocError>
    ensures { IfOk result (words.KeepsOwners book.now) }
{
    let mut owners = ByDesc::new(alloc);
    let mut above = None;
    while let Some(id) = book.next_desc(above) {
        owners.insert(id, book.owner(id))?;
        above = Some(id);
    }
    Ok(owners)
}

/// Gives each description the owner that is kept for it, and none where none is kept. Takes no memory.
pub fn put_owners(book: &mut Book, owners: &ByDesc<Option<RealPid>>)
    ensures { book.new ≡ words.with_owners owners.now book.old }
{
    let mut above = None;
    while let Some(id) = book.next_desc(above) {
        book.set_owner(id, kept_owner(owners, id));
        above = Some(id);
    }
}

fn kept_owner(owners: &ByDesc<Option<RealPid>>, id: DescId) -> Option<RealPid>
    ensures { result ≡ words.kept_owner owners.now id }
{
    match owners.get(id) {
        None => None,
        Some(owner) => *owner,
    }
}
