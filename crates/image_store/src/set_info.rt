/// A set of a folder: the slot in which it lies, and its generation.
#[derive(Clone, Copy)]
pub struct SetInfo {
    pub slot: u32,
    pub generation: u64,
}
