//! How many processes and threads there may be.

/// How many processes there are at most, live ones and zombies.
pub const PROCESS_LIMIT: usize = 128;

/// How many threads a process has at most.
pub const THREAD_LIMIT: usize = 64;
