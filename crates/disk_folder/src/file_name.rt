use std::alloc::{AllocError, Global};
use views::duplicate::Duplicate;

/// The name of a file in a folder: a slot, and an index in that slot.
#[derive(Clone, Copy, PartialEq, Eq, PartialOrd, Ord)]
pub struct FileName {
    pub slot: u32,
    pub index: u32,
}

impl Duplicate for FileName {
    fn duplicate(&self, alloc: Global) -> Result<Self, AllocError> {
        Ok(*self)
    }
}
