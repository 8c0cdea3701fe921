ghost use Rattle.std.specs.Prelude.{◌≡◌};
ghost use Rattle.drive.specs.Driving.{end_told};

use crate::loop_end::LoopEnd;

/// How a driver's call ended.
#[derive(Clone, Copy, Debug, PartialEq, Eq)]
pub enum RunStatus {
    /// The run ended, and neither the console nor the log failed.
    Ended(RunEnd),
    /// The console or the log failed.
    SinkFault,
}

/// How a run ended.
#[derive(Clone, Copy, Debug, PartialEq, Eq)]
pub enum RunEnd {
    /// Nobody lives.
    Done,
    /// Somebody lives, and nobody can go on.
    Stuck,
    /// The trace is full, and somebody lives.
    Budget,
    /// There was no memory.
    Memory,
}

/// How a call ends whose run ended so.
pub(crate) fn status_of(end: LoopEnd) -> RunStatus
    ensures { end_told result ≡ end }
{
    match end {
        LoopEnd::Done => RunStatus::Ended(RunEnd::Done),
        LoopEnd::Stuck => RunStatus::Ended(RunEnd::Stuck),
        LoopEnd::Budget => RunStatus::Ended(RunEnd::Budget),
        LoopEnd::Memory => RunStatus::Ended(RunEnd::Memory),
        LoopEnd::SinkFault => RunStatus::SinkFault,
    }
}
