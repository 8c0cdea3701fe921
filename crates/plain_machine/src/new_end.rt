/// An end of a channel that a call makes: the descriptor that refers to it, its side, and its status flags.
#[derive(Clone, Copy)]
pub struct NewEnd {
    pub fd: u32,
    pub side: u8,
    pub flags: u32,
}
