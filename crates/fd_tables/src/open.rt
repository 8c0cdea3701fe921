use crate::description::Desc;

/// An open description, and how many descriptors refer to it.
#[derive(Clone, Copy)]
pub struct Open {
    pub desc: Desc,
    pub holders: u64,
}
