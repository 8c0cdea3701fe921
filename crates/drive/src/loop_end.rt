/// How the loop of a run ended.
#[derive(Clone, Copy)]
pub enum LoopEnd {
    /// Nobody lives.
    Done,
    /// The trace is full, and somebody lives.
    Budget,
    /// Somebody lives, and nobody can go on.
    Stuck,
    /// The console or the log failed.
    SinkFault,
    /// There was no memory.
    Memory,
}
