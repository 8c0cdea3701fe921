use set_disk::DiskFault;
use std::alloc::{AllocError, AllocFailed};

/// Why a line of the cases is not carried out.
#[derive(Clone, Copy)]
pub enum CaseFault {
    /// It is none of the language, or asks for what is not there.
    Unclear,
    /// There was not enough memory.
    Memory,
}

impl From<AllocError> for CaseFault {
    fn from(_error: AllocError) -> CaseFault {
        CaseFault::Memory
    }
}

impl<T: Drop> From<AllocFailed<T>> for CaseFault {
    fn from(_error: AllocFailed<T>) -> CaseFault {
        CaseFault::Memory
    }
}

impl From<DiskFault> for CaseFault {
    fn from(_fault: DiskFault) -> CaseFault {
        CaseFault::Unclear
    }
}
