//! How much all files may be.

/// How many files there are at most.
pub const FILE_LIMIT: usize = 1024;

/// How many bytes all files have at most.
pub const TOTAL_LIMIT: u64 = 67_108_864;

/// Where a write ends at the furthest. All files together have fewer bytes, so that it is their sum which
/// refuses one.
pub const LAST_END: u64 = 0x7FFF_FFFF;

/// The number that no file gets: where the next one would have it, no file is made.
pub const LAST_NUMBER: u32 = 0xFFFF_FFFF;
