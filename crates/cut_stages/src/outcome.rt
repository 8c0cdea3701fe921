/// How the writing of a checkpoint's images ended.
#[derive(Clone, Copy)]
pub enum PutOutcome {
    /// They are written, as the set of this generation.
    Put(u64),
    /// The disk failed.
    DiskFault,
    /// Memory was wanted.
    Memory,
}
