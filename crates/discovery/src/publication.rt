use sys_abi::RealAddr;

/// What a directory has of a channel.
#[derive(Clone, Copy)]
pub struct Publication {
    /// Where the end that accepts was published last.
    pub at: RealAddr,
    /// Whether it was looked up since.
    pub asked: bool,
}
