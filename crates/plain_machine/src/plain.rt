use crate::kernel::PlainKernel;
use plain_tables::ByPid;
use plain_tables::plain_process::user_part::UserPart;
use plain_tables::views::duplicate::Duplicate;
use std::alloc::{AllocError, Global};

/// A plain state: the kernel part, and the user part of each live process.
#[derive(Drop)]
pub struct Plain {
    pub kernel: PlainKernel,
    pub users: ByPid<UserPart>,
}

impl Duplicate for Plain {
    fn duplicate(&self, alloc: Global) -> Result<Self, AllocError> {
        Ok(Plain {
            kernel: self.kernel.duplicate(alloc)?,
            users: self.users.duplicate(alloc)?,
        })
    }
}
