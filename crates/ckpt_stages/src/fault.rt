use sys_abi::{Fd, Kind, VPid};

/// Why a system was not suspended.
#[derive(Clone, Copy)]
pub enum StageFault {
    /// No image holds what this descriptor of the process refers to.
    Unsupported(VPid, Fd, Kind),
    /// Room for the checkpoint was wanted.
    Memory,
}
