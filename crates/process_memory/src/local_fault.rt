use sys_abi::Errno;
use sys_abi::errors::{EINVAL, ENOSYS};

/// Why a call is not made that its process answers alone.
#[derive(Clone, Copy)]
pub enum LocalFault {
    /// The call answers an error.
    Refused(Errno),
    /// Memory was wanted.
    Memory,
}

/// The call's arguments are none that it takes.
pub const INVALID: LocalFault = LocalFault::Refused(Errno(EINVAL));

/// There is no such call.
pub const UNKNOWN: LocalFault = LocalFault::Refused(Errno(ENOSYS));
