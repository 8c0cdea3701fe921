use std::alloc::AllocError;
use sys_abi::Errno;

/// What a row over real numbers came to: it gives a value, it fails, or it waits. Bytes for the guest stand
/// in the transfer then.
#[derive(Clone, Copy)]
pub enum Attempt {
    Gives(u32),
    Fails(Errno),
    NotReady,
}

pub type RowResult = Result<Attempt, AllocError>;
