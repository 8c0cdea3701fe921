use option_words::FileName;
use views::list_of::ListOf;

/// What the words of a command line ask for.
#[derive(Drop)]
pub enum Job {
    /// A launch of programs.
    Launch(LaunchJob),
    /// A restart from the last complete set.
    Restart(RestartJob),
    /// The worked ring of processes, launched and restarted.
    Ring(RingJob),
    /// The forms of the command line are asked for.
    Help,
}

/// A launch: the options under their names, and the programs in the order of the words.
#[derive(Drop)]
pub struct LaunchJob {
    /// The number of nodes, 1 to 16. Each program's host is below it.
    pub nodes: u32,
    /// The number of worker threads, 0 to 64.
    pub workers: u32,
    /// A checkpoint is asked for after each so many records of work, 1 to 4,000,000, if ever.
    pub every: Option<u32>,
    /// How many records the trace has room for, 1 to 4,000,000.
    pub records: u32,
    /// The names given by `--file`, in order: at most 64, all different.
    pub file: ListOf<FileName>,
    /// 1 to 128 programs.
    pub programs: ListOf<NamedProgram>,
}

/// A program to start.
#[derive(Drop)]
pub struct NamedProgram {
    /// The number of its host, 0 to 15.
    pub host: u32,
    /// The name of its file, 1 to 255 bytes.
    pub name: FileName,
    /// Its argument strings, the name first, each with a zero byte at its end: at most 4,096 bytes.
    pub arguments: ListOf<u8>,
}

/// A restart: the options under their names.
#[derive(Clone, Copy)]
pub struct RestartJob {
    /// The number of nodes, 1 to 16.
    pub nodes: u32,
    /// The number of worker threads, 0 to 64.
    pub workers: u32,
    /// A checkpoint is asked for after each so many records of work, 1 to 4,000,000, if ever.
    pub every: Option<u32>,
    /// How many records the trace has room for, 1 to 4,000,000.
    pub records: u32,
    /// Host h runs on node (h + shift) mod the number of nodes. The shift is 0 to 15.
    pub shift: u32,
    /// The first real process number of a node, 1 to 1,000,000,000.
    pub pid_base: u32,
    /// The first real port of a node, 1,024 to 57,344.
    pub port_base: u32,
}

/// The worked ring: the number of processes, and the options under their names.
#[derive(Clone, Copy)]
pub struct RingJob {
    /// The number of processes in the ring, 2 to 16.
    pub processes: u32,
    /// The number of worker threads, 0 to 64.
    pub workers: u32,
    /// A checkpoint is asked for after each so many records of work, 1 to 4,000,000.
    pub every: u32,
}
