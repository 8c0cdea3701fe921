/// An error number (`man 3 errno`).
#[derive(Clone, Copy, Debug, PartialEq, Eq)]
pub struct Errno(pub u16);

/// What a call answers in a0: a value, or an error as the negative of its number.
#[derive(Clone, Copy, Debug, PartialEq, Eq)]
pub enum Reply {
    Value(u32),
    Error(Errno),
}
