use crate::identity::DescId;
use std::alloc::{AllocError, Global};
use views::duplicate::Duplicate;

/// A descriptor (`man 2 open`): the open description that it refers to, and its close-on-exec flag
/// (`man 2 fcntl`).
#[derive(Clone, Copy)]
pub struct Descriptor {
    pub desc: DescId,
    pub cloexec: bool,
}

impl Duplicate for Descriptor {
    fn duplicate(&self, alloc: Global) -> Result<Self, AllocError> {
        Ok(*self)
    }
}
