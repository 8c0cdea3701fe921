//! What stands before the bytes that are sent back.

/// How many bytes the length of a frame has.
pub const HEADER_LENGTH: u32 = 4;
