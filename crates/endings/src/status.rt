ghost use Rattle.std.specs.Prelude.{◌≡◌};
ghost use Rattle.endings.specs.Statuses.{number_of};

/// How a call ended. Statuses are tried in the order in which a call goes on: the words, the trace's room,
/// the inputs, the folder of sets, the memory of the start, the run.
#[derive(Clone, Copy, Debug, PartialEq, Eq)]
pub enum Status {
    /// No process lives.
    Done = 0,
    /// The words ask for nothing that is built.
    Usage = 10,
    /// An input could not be read.
    InputFault = 11,
    /// An input is not there.
    Missing = 12,
    /// A program's file breaks a rule of its format.
    BadElf = 13,
    /// A sink did not take what it was given.
    SinkFault = 14,
    /// The folder of sets failed before the run.
    DiskFault = 15,
    /// There is no set to restart from.
    NoSet = 16,
    /// The set to restart from spells no state.
    Damaged = 17,
    /// The trace is full, and a process lives.
    Budget = 18,
    /// A process lives, and none can go on.
    Stuck = 19,
    /// There was no memory.
    Memory = 20,
    /// The files that a launch names have too many bytes together.
    TooBig = 21,
}

impl Status {
    /// The number with which the program ends.
    pub fn code(self) -> u8
        ensures { result ≡ number_of self }
    {
        self as u8
    }
}
