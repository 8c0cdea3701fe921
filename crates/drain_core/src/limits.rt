//! How much an agent reads and sends.

/// How many bytes a cookie has.
pub const COOKIE_LENGTH: u32 = 16;
