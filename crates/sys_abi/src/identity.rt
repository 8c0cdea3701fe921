ghost use Rattle.std.specs.Prelude.{◌≡◌, ℕ};

use std::alloc::{AllocError, Global};
use views::duplicate::Duplicate;

/// A virtual process number, as guests see it. It stays the same over a restart.
#[derive(Clone, Copy, Debug, PartialEq, Eq, PartialOrd, Ord)]
pub struct VPid(pub u32);

/// A virtual thread number.
#[derive(Clone, Copy, Debug, PartialEq, Eq)]
pub struct Tid(pub u32);

/// A descriptor's number, from 0 to 255.
#[derive(Clone, Copy, Debug, PartialEq, Eq)]
pub struct Fd(pub u32);

/// A signal's number, from 1 to 31 (`man 7 signal`).
#[derive(Clone, Copy, Debug, PartialEq, Eq)]
pub struct Signal(pub u32);

/// A channel's name: the process that made it, and that process's running number.
#[derive(Clone, Copy, Debug, PartialEq, Eq, PartialOrd, Ord)]
pub struct ConnId {
    pub pid: VPid,
    pub num: u32,
}

/// An open description's name: the process that made it, and that process's running number.
#[derive(Clone, Copy, Debug, PartialEq, Eq, PartialOrd, Ord)]
pub struct DescId {
    pub pid: VPid,
    pub num: u32,
}

/// A direction of a channel, named by the side that sends, 0 or 1.
#[derive(Clone, Copy, Debug, PartialEq, Eq, PartialOrd, Ord)]
pub struct Dir {
    pub conn: ConnId,
    pub side: u8,
}

/// A descriptor of a process.
#[derive(Clone, Copy, Debug, PartialEq, Eq, PartialOrd, Ord)]
pub struct Slot {
    pub pid: VPid,
    pub fd: u32,
}

/// A process number that a node handed out. It may change over a restart.
#[derive(Clone, Copy, Debug, PartialEq, Eq, PartialOrd, Ord)]
pub struct RealPid {
    pub node: u32,
    pub pid: u32,
}

/// A port that a node handed out.
#[derive(Clone, Copy, Debug, PartialEq, Eq, PartialOrd, Ord)]
pub struct RealAddr {
    pub node: u32,
    pub port: u32,
}

/// An internet address as guests see it: host h is 10.0.0.(h+1).
#[derive(Clone, Copy, Debug, PartialEq, Eq, PartialOrd, Ord)]
pub struct VirtAddr {
    pub host: u32,
    pub port: u32,
}

impl Duplicate for VPid {
    fn duplicate(&self, alloc: Global) -> Result<Self, AllocError> {
        Ok(*self)
    }
}

impl Duplicate for Tid {
    fn duplicate(&self, alloc: Global) -> Result<Self, AllocError> {
        Ok(*self)
    }
}

impl Duplicate for Fd {
    fn duplicate(&self, alloc: Global) -> Result<Self, AllocError> {
        Ok(*self)
    }
}

impl Duplicate for Signal {
    fn duplicate(&self, alloc: Global) -> Result<Self, AllocError> {
        Ok(*self)
    }
}

impl Duplicate for ConnId {
    fn duplicate(&self, alloc: Global) -> Result<Self, AllocError> {
        Ok(*self)
    }
}

impl Duplicate for DescId {
    fn duplicate(&self, alloc: Global) -> Result<Self, AllocError> {
        Ok(*self)
    }
}

impl Duplicate for Dir {
    fn duplicate(&self, alloc: Global) -> Result<Self, AllocError> {
        Ok(*self)
    }
}

impl Duplicate for Slot {
    fn duplicate(&self, alloc: Global) -> Result<Self, AllocError> {
        Ok(*self)
    }
}

impl Duplicate for RealPid {
    fn duplicate(&self, alloc: Global) -> Result<Self, AllocError> {
        Ok(*self)
    }
}

impl Duplicate for RealAddr {
    fn duplicate(&self, alloc: Global) -> Result<Self, AllocError> {
        Ok(*self)
    }
}

impl Duplicate for VirtAddr {
    fn duplicate(&self, alloc: Global) -> Result<Self, AllocError> {
        Ok(*self)
    }
}
