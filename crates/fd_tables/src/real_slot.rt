use sys_abi::RealPid;

/// A descriptor of a process that a node runs.
#[derive(Clone, Copy)]
pub struct RealSlot {
    pub pid: RealPid,
    pub fd: u32,
}
