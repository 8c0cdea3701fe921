use crate::FileName;
use views::list_of::ListOf;

/// What a call asks of a folder.
#[derive(Drop)]
pub enum Request {
    /// A length or a read, which changes nothing.
    Look,
    Write {
        name: FileName,
        at: u64,
        bytes: ListOf<u8>,
    },
    Cut {
        name: FileName,
        len: u64,
    },
    Sync,
}
