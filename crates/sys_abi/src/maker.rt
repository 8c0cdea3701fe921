use std::alloc::{AllocError, Global};
use views::duplicate::Duplicate;

/// Where a process runs, and its running number for the channels and descriptions that it makes.
#[derive(Clone, Copy, Debug, PartialEq, Eq)]
pub struct Maker {
    /// The number of its host.
    pub host: u32,
    /// How many channels and descriptions it has made: the number that the next one gets.
    pub made: u32,
}

impl Duplicate for Maker {
    fn duplicate(&self, alloc: Global) -> Result<Self, AllocError> {
        Ok(*self)
    }
}
